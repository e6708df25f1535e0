//! A block of samples: its values, each asked for once, and what they add to all lags.
ghost use Rattle.std.specs.Prelude.{◌≡◌, ℕ, ◌+◌, ◌<◌, ◌≤◌, ◌^◌, ◌+ℤ◌, ◌-ℤ◌, pos, length, take, drop, slice_index_or, IfSome};
ghost use Rattle.corr_model.specs.{Cell.{AreSmall, cell_plus}, declared.cell.Cell.{Cell}};
ghost use Rattle.corr_model.proofs.CellLemmas.{IsGrown};
ghost use Rattle.lag_kernel.specs.{Held.{AddsEach, AllSmall, HoldsValues, pairs_sum, value_inside}, Parts.{AreSmallParts, parts_sum}};

use crate::parts::{Parts, Value};
use crate::sums::lag_sum;
use corr_model::{Cell, Values};

/// Fills `held` with the values of a station's channel from sample `at - back` on; None outside the scan.
pub fn fetch<V: Values>(
    v: &V,
    station: u32,
    chan: u32,
    at: u64,
    back: u64,
    samples: u64,
    held: &mut [Value],
)
    requires place { at ≤ 2 ^ 40 }
    requires back { back ≤ 512 }
    requires scan { samples ≤ 2 ^ 40 }
    requires few { length held.old ≤ 2048 }
    ensures values { HoldsValues (V.samples v.now) station chan samples (pos at -ℤ pos back) held.new }
    ensures small { AllSmall held.new }
{
    for (k, value) in held.iter_mut().enumerate() {
        *value = value_at(v, station, chan, at, back, k as u64, samples);
    }
}

// The value at sample `at - back + k`; None outside the scan.
fn value_at<V: Values>(
    v: &V,
    station: u32,
    chan: u32,
    at: u64,
    back: u64,
    k: u64,
    samples: u64,
) -> Value
    requires place { at ≤ 2 ^ 40 }
    requires back { back ≤ 512 }
    requires scan { samples ≤ 2 ^ 40 }
    requires few { k < 2048 }
    ensures value { result ≡ value_inside (V.samples v.now) station chan samples ((pos at -ℤ pos back) +ℤ pos k) }
    ensures small { IfSome result AreSmall }
{
    value_inside(
        v,
        station,
        chan,
        at as i64 - back as i64 + k as i64,
        samples,
    )
}

// The value at sample `n`; None outside the scan.
fn value_inside<V: Values>(v: &V, station: u32, chan: u32, n: i64, samples: u64) -> Value
    requires scan { samples ≤ 2 ^ 40 }
    ensures value { result ≡ value_inside (V.samples v.now) station chan samples n }
    ensures small { IfSome result AreSmall }
{
    if n < 0 || n >= samples as i64 {
        return None;
    }
    v.z(station, chan, n)
}

/// Adds to each cell the pairs of the first values and the second values from the cell's number on. `pairs` pairs at
/// most were added to each before.
pub fn add_sums(first: &[Value], second: &[Value], pairs: u64, out: &mut [Cell])
    requires long { length first.now + length out.old ≤ length second.now }
    requires few { length first.now ≤ 1024 }
    requires room { length second.now ≤ 2048 }
    requires most { pairs + length first.now ≤ 2 ^ 36 }
    requires small_first { AllSmall first.now }
    requires small_second { AllSmall second.now }
    requires grown { (k : ℕ) (d : Cell) → k < length out.old → IsGrown (slice_index_or out.old k d) pairs }
    ensures adds { AddsEach out.old out.new (λ k. pairs_sum first.now (take (length first.now) (drop k second.now)) (length first.now)) }
    ensures grown { (k : ℕ) (d : Cell) → k < length out.old → IsGrown (slice_index_or out.new k d) (pairs + length first.now) }
{
    let a = Parts::of(first);
    let b = Parts::of(second);
    for (i, cell) in out.iter_mut().enumerate() {
        *cell = add_sum(&a, &b, i, first.len(), pairs, *cell);
    }
}

// A cell and the pairs of `n` values and others from `i` on.
fn add_sum(a: &Parts, b: &Parts, i: usize, n: usize, pairs: u64, cell: Cell) -> Cell
    requires few { n ≤ 1024 }
    requires room { i + n ≤ 2048 }
    requires most { pairs + n ≤ 2 ^ 36 }
    requires small_a { AreSmallParts a.now }
    requires small_b { AreSmallParts b.now }
    requires grown { IsGrown cell pairs }
    ensures sum { result ≡ cell_plus cell (parts_sum a.now b.now i n) }
    ensures grown { IsGrown result (pairs + n) }
{
    cell.plus(lag_sum(a, b, i, n))
}
