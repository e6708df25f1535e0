//! The cell of a lag, sample by sample.
ghost use Rattle.std.specs.Prelude.{◌≡◌, ◌≤◌, ◌-◌, ◌^◌, ◌≤ℤ◌, ◌*ℤ◌, neg_ℤ, pos, IfSome};
ghost use Rattle.corr_model.specs.Cell.{cell_in, product_at, product_of, IsSmall, AreSmall, IsProduct};

use crate::{Cell, Pair, Values};

/// The cell of the sample numbers from `from` up to, not including, `to` in a scan of `samples`
/// samples: sample `n` of the first station with sample `n + lag` of the second, `lag` being in samples
/// (Thompson, Moran and Swenson, chapter 8).
pub fn plain_cell<V: Values>(v: &V, pair: &Pair, from: u64, to: u64, samples: u64, lag: i32) -> Cell
    requires order { from ≤ to }
    requires inside { to ≤ samples }
    requires scan { samples ≤ 2 ^ 40 }
    requires range { to - from ≤ 2 ^ 36 }
    requires low { neg_ℤ (pos 512) ≤ℤ lag }
    requires high { lag ≤ℤ pos 512 }
    ensures { result ≡ cell_in (V.samples v.now) pair.now samples lag from to }
{
    let mut cell = Cell::ZERO;
    for n in from..to {
        cell = cell.plus(product_at(v, pair, samples, lag, n));
    }
    cell
}

// What sample `n` adds, with the second station's sample `n + lag` where that is inside the scan.
fn product_at<V: Values>(v: &V, pair: &Pair, samples: u64, lag: i32, n: u64) -> Cell
    requires inside { n ≤ samples }
    requires scan { samples ≤ 2 ^ 40 }
    requires low { neg_ℤ (pos 512) ≤ℤ lag }
    requires high { lag ≤ℤ pos 512 }
    ensures value { result ≡ product_at (V.samples v.now) pair.now samples lag n }
    ensures small { IsProduct result }
{
    let other = n as i64 + i64::from(lag);
    if other < 0 || other >= samples as i64 {
        return Cell::ZERO;
    }
    product(v.z(pair.a, pair.x, n as i64), v.z(pair.b, pair.y, other))
}

// The first value times the conjugate of the second.
fn product(first: Option<(i8, i8)>, second: Option<(i8, i8)>) -> Cell
    requires first { IfSome first AreSmall }
    requires second { IfSome second AreSmall }
    ensures value { result ≡ product_of first second }
    ensures small { IsProduct result }
{
    match (first, second) {
        (Some((ar, ai)), Some((br, bi))) => Cell {
            re: product_of_parts(ar, br) + product_of_parts(ai, bi),
            im: product_of_parts(ai, br) - product_of_parts(ar, bi),
            count: 1,
        },
        _ => Cell::ZERO,
    }
}

// The product of two small components.
fn product_of_parts(x: i8, y: i8) -> i64
    requires first { IsSmall x }
    requires second { IsSmall y }
    ensures value { result ≡ x *ℤ y }
    ensures low { neg_ℤ (pos 225) ≤ℤ result }
    ensures high { result ≤ℤ pos 225 }
{
    i64::from(x) * i64::from(y)
}
