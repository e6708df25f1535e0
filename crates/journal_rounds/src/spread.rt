//! Two calls at the same time.

use std::thread::{Threads, join_mut};

/// Calls `f` and `g` at the same time where a thread can be had, and else one after the other. The new thread has `g` where `spread`
/// says so, and `f` where it does not: threads that `g` makes spread over the processors better from a new one.
pub(crate) fn join_spread<
    R: Threads,
    F: FnMut() -> A + Send,
    G: FnMut() -> B + Send,
    A: Send,
    B: Send,
>(rt: &R, spread: bool, f: &mut F, g: &mut G) -> (A, B)
    requires { F.pre f.old × G.pre g.old }
    ensures { F.step f.old result.0 f.new × G.step g.old result.1 g.new }
{
    if spread {
        let (b, a) = join_mut(rt, g, f);
        (a, b)
    } else {
        join_mut(rt, f, g)
    }
}
