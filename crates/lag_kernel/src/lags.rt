//! All lags of a range.
ghost use Rattle.std.specs.Prelude.{◌≡◌, ℕ, ◌+◌, ◌-◌, ◌%◌, ◌<◌, ◌≤◌, ◌^◌, length, map, slice_index_or};
ghost use Rattle.std.specs.List.{range_with_len};
ghost use Rattle.corr_model.specs.{declared.cell.Cell.{Cell}, Cell.{cell_in, no_cell}, Lags.{lag_of}};
ghost use Rattle.corr_model.proofs.CellLemmas.{IsGrown};
ghost use Rattle.lag_kernel.specs.Held.{AddsEach, IsRange};

use crate::block::{add_sums, fetch};
use crate::parts::Value;
use corr_model::{Cell, Pair, Values};

/// Sets `out[i]` to the cell of lag `i - L/2`, `L` being the length of `out`: an even number of up to 1,024. The sample
/// numbers are those from `from` up to, not including, `to` in a scan of `samples` samples; sample `n` of the first
/// station is paired with sample `n + lag` of the second, also where that lies outside the range.
pub fn plain_lags<V: Values>(v: &V, pair: &Pair, from: u64, to: u64, samples: u64, out: &mut [Cell])
    requires even { length out.old % 2 ≡ 0 }
    requires most { length out.old ≤ 1024 }
    requires order { from ≤ to }
    requires inside { to ≤ samples }
    requires scan { samples ≤ 2 ^ 40 }
    requires range { to - from ≤ 2 ^ 36 }
    ensures { out.new ≡ map (λ i. cell_in (V.samples v.now) pair.now samples (lag_of (length out.old) i) from to) (range_with_len 0 (length out.old)) }
{
    clear(out);
    let mut at = from;
    while at < to {
        let stop = (at + 1024).min(to);
        add_block(v, pair, at, stop, samples, at - from, out);
        at = stop;
    }
}

/// Sets each cell to that of no pair.
pub fn clear(out: &mut [Cell])
    ensures { (k : ℕ) (d : Cell) → k < length out.old → slice_index_or out.new k d ≡ no_cell }
{
    for cell in out.iter_mut() {
        *cell = Cell::ZERO;
    }
}

// Adds the pairs of a block, the samples from `at` up to, not including, `stop`, to each lag's cell. `pairs` pairs at
// most were added to each before.
fn add_block<V: Values>(
    v: &V,
    pair: &Pair,
    at: u64,
    stop: u64,
    samples: u64,
    pairs: u64,
    out: &mut [Cell],
)
    requires lags { length out.old ≤ 1024 }
    requires block { IsRange 1024 at stop samples }
    requires most { pairs + (stop - at) ≤ 2 ^ 36 }
    requires grown { (k : ℕ) (d : Cell) → k < length out.old → IsGrown (slice_index_or out.old k d) pairs }
    ensures adds { AddsEach out.old out.new (λ i. cell_in (V.samples v.now) pair.now samples (lag_of (length out.old) i) at stop) }
    ensures grown { (k : ℕ) (d : Cell) → k < length out.old → IsGrown (slice_index_or out.new k d) (pairs + (stop - at)) }
{
    let len = (stop - at) as usize;
    let lags = out.len();
    let mut first = [None; 1024];
    let mut second = [None; 2048];
    add_held(
        v,
        pair,
        at,
        samples,
        pairs,
        &mut first[..len],
        &mut second[..len + lags],
        out,
    );
}

// Adds the pairs of the samples from `at` on, as many as there is room for in `first`, to each lag's cell. `second` has
// room for the values of all their lags.
fn add_held<V: Values>(
    v: &V,
    pair: &Pair,
    at: u64,
    samples: u64,
    pairs: u64,
    first: &mut [Value],
    second: &mut [Value],
    out: &mut [Cell],
)
    requires lags { length out.old ≤ 1024 }
    requires block { length first.old ≤ 1024 }
    requires room { length second.old ≡ length first.old + length out.old }
    requires inside { at + length first.old ≤ samples }
    requires scan { samples ≤ 2 ^ 40 }
    requires most { pairs + length first.old ≤ 2 ^ 36 }
    requires grown { (k : ℕ) (d : Cell) → k < length out.old → IsGrown (slice_index_or out.old k d) pairs }
    ensures adds { AddsEach out.old out.new (λ i. cell_in (V.samples v.now) pair.now samples (lag_of (length out.old) i) at (at + length first.old)) }
    ensures grown { (k : ℕ) (d : Cell) → k < length out.old → IsGrown (slice_index_or out.new k d) (pairs + length first.old) }
{
    fetch(v, pair.a, pair.x, at, 0, samples, first);
    fetch(
        v,
        pair.b,
        pair.y,
        at,
        (out.len() / 2) as u64,
        samples,
        second,
    );
    add_sums(first, second, pairs, out);
}
