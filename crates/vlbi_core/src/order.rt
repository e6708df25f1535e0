//! The order of a call.
ghost use Rattle.std.specs.Prelude.{◌≡◌, Ok, IfOk, IfErr, IfSome, IsSome, option_copied};
ghost use Rattle.std.specs.Str.{IsUtf8};
ghost use Rattle.run_words.specs.Orders.{IsCut, IsOrder};
ghost use Rattle.vlbi_core.specs.{Calls.{texts_of, order_in}, Engine.{job_names, epoch_asked}, Faults.{words_refusal}, Steps.{IsOfWords}};

use num_time::Name;
use run_notes::Refusal;
use run_words::{Order, WordsFault, read_words};
use std::alloc::Global;

/// The order that the words give.
pub fn read_order(alloc: Global, words: &[String]) -> Result<Order, Refusal>
    ensures order { IfOk result (λ order. order_in (texts_of words.now) ≡ Ok order) }
    ensures is_order { IfOk result IsOrder }
    ensures fault { IfErr result (IsOfWords (order_in (texts_of words.now))) }
{
    match read_words(alloc, words) {
        Ok(order) => Ok(order),
        Err(fault) => Err(words_refusal(fault)),
    }
}

// The refusal of words that give no order.
fn words_refusal(fault: WordsFault) -> Refusal
    ensures { result ≡ words_refusal fault }
{
    match fault {
        WordsFault::Memory => Refusal::Memory,
        _ => Refusal::Words(fault),
    }
}

/// The name of an order's job.
pub fn job_of(order: &Order) -> &Name
    requires job { IsSome (job_names order.now) }
    requires is_order { IsOrder order.now }
    ensures name { IfSome (job_names order.now) (λ names. result.now ≡ names.0) }
    ensures text { IsUtf8 result.now }
{
    match order {
        Order::Run { job, .. } => job,
        Order::Plain { job, .. } => job,
        Order::Check { job, .. } => job,
        Order::Status { job, .. } => job,
        _ => unreachable!(),
    }
}

/// The samples of an epoch that an order asks for, where it does.
pub fn epoch_of(order: &Order) -> Option<u64>
    requires { IsOrder order.now }
    ensures asked { result ≡ epoch_asked order.now }
    ensures cut { IsCut result }
{
    match order {
        Order::Run { epoch, .. } => *epoch,
        Order::Check { epoch, .. } => *epoch,
        Order::Status { epoch, .. } => *epoch,
        _ => None,
    }
}

/// The name of its schedule, where it has one.
pub fn vex_of(order: &Order) -> Option<&Name>
    requires job { IsSome (job_names order.now) }
    requires is_order { IsOrder order.now }
    ensures name { IfSome (job_names order.now) (λ names. option_copied result ≡ names.1) }
    ensures text { IfSome result (λ vex. IsUtf8 vex.now) }
{
    match order {
        Order::Run { vex, .. } => vex.as_ref(),
        Order::Plain { vex, .. } => vex.as_ref(),
        Order::Check { vex, .. } => vex.as_ref(),
        Order::Status { vex, .. } => vex.as_ref(),
        _ => unreachable!(),
    }
}
