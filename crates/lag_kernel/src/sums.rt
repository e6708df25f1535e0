//! The sums of a lag, from components that are held.
ghost use Rattle.std.specs.Prelude.{◌≡◌, ◌≤◌, ◌+◌, ◌*◌, ℕ, pos, neg_ℤ, ◌*ℤ◌, ◌≤ℤ◌, length, slice_index, slice_index_or};
ghost use Rattle.corr_model.specs.Cell.{IsSmall};
ghost use Rattle.corr_model.proofs.CellLemmas.{IsGrown};
ghost use Rattle.lag_kernel.specs.Parts.{AreSmallParts, both_of, dot_of, parts_sum};

use crate::parts::Parts;
use corr_model::Cell;

/// What the pairs of the first `n` values of one station and the values of another from `i` on add up to.
pub fn lag_sum(a: &Parts, b: &Parts, i: usize, n: usize) -> Cell
    requires few { n ≤ 1024 }
    requires room { i + n ≤ 2048 }
    requires small_a { AreSmallParts a.now }
    requires small_b { AreSmallParts b.now }
    ensures value { result ≡ parts_sum a.now b.now i n }
    ensures grown { IsGrown result n }
{
    let re = dot(&a.re, &b.re, i, n) + dot(&a.im, &b.im, i, n);
    let im = dot(&a.im, &b.re, i, n) - dot(&a.re, &b.im, i, n);
    let count = both(&a.there, &b.there, i, n);
    Cell {
        re: i64::from(re),
        im: i64::from(im),
        count: u64::from(count),
    }
}

// The sum of the products of `n` components and others from `i` on.
fn dot(a: &[i16], b: &[i16], i: usize, n: usize) -> i32
    requires few { n ≤ 1024 }
    requires first { n ≤ length a.now }
    requires second { i + n ≤ length b.now }
    requires small_a { (k : ℕ) → IsSmall (slice_index_or a.now k (pos 0)) }
    requires small_b { (k : ℕ) → IsSmall (slice_index_or b.now k (pos 0)) }
    ensures value { result ≡ dot_of a.now b.now i n }
    ensures low { neg_ℤ (pos (225 * n)) ≤ℤ result }
    ensures high { result ≤ℤ pos (225 * n) }
{
    let mut sum = 0;
    for k in 0..n {
        sum += product(a[k], b[i + k]);
    }
    sum
}

// The product of two small components.
fn product(x: i16, y: i16) -> i32
    requires first { IsSmall x }
    requires second { IsSmall y }
    ensures value { result ≡ x *ℤ y }
    ensures small { (neg_ℤ (pos 225) ≤ℤ result) × (result ≤ℤ pos 225) }
{
    i32::from(x) * i32::from(y)
}

// How many of `n` values are there with others from `i` on.
fn both(a: &[u16], b: &[u16], i: usize, n: usize) -> u32
    requires few { n ≤ 1024 }
    requires first { n ≤ length a.now }
    requires second { i + n ≤ length b.now }
    requires one_a { (k : ℕ) → slice_index a.now k ≤ 1 }
    requires one_b { (k : ℕ) → slice_index b.now k ≤ 1 }
    ensures value { result ≡ both_of a.now b.now i n }
    ensures most { result ≤ n }
{
    let mut sum = 0;
    for k in 0..n {
        sum += one(a[k], b[i + k]);
    }
    sum
}

// 1 where both are 1.
fn one(x: u16, y: u16) -> u32
    requires first { x ≤ 1 }
    requires second { y ≤ 1 }
    ensures value { result ≡ x * y }
    ensures most { result ≤ 1 }
{
    u32::from(x) * u32::from(y)
}
