//! Sums of products of small bytes with bytes that hold two numbers, in lanes of 16 bits: one product serves two lags.
ghost use Rattle.std.specs.Prelude.{◌≡◌, ◌<◌, ◌≤◌, ◌+◌, ◌*◌, ◌/◌, ◌%◌, ℕ, length, map, slice_index};
ghost use Rattle.std.specs.Simd.Lanes.{Each1, sum_l};
ghost use Rattle.byte_sums.specs.{Sums.{AreAtMost}, Fields.{AreFields, lower_sum, pair_product, triple_product, upper_sum}};

use crate::pairing::pairs;
use crate::shorts::total;
use std::simd::prelude::*;

// The samples of a vector.
const LANES: usize = 32;

/// The samples of three vectors. The sums of their lower numbers' products are below 64, so that both sums can be told apart.
pub(crate) const TRIPLE: usize = 96;

// Sums of products with the lower numbers of bytes, and with the upper ones.
#[derive(Clone, Copy)]
struct Both {
    lower: u16x16,
    upper: u16x16,
}

// The vector of bytes that is so many places on.
#[inline(always)]
fn bytes_from(bytes: &[u8], lag: usize, from: usize) -> u8x32
    requires room { lag + (from + LANES) ≤ length bytes.now }
    ensures len { length result ≡ LANES }
    ensures lanes { (k : ℕ) → k < LANES → slice_index result k ≡ slice_index bytes.now (lag + (from + k)) }
    ensures bytes { Each1 (λ x. x < 256) result }
{
    u8x32::from_slice(&bytes[lag + from..])
}

// A vector of numbers of at most 3.
#[inline(always)]
fn numbers_from(numbers: &[u8], from: usize) -> u8x32
    requires room { from + LANES ≤ length numbers.now }
    requires small { AreAtMost 3 numbers.now }
    ensures len { length result ≡ LANES }
    ensures lanes { (k : ℕ) → k < LANES → slice_index result k ≡ slice_index numbers.now (from + k) }
    ensures small { Each1 (λ x. x < 65) result }
{
    u8x32::from_slice(&numbers[from..])
}

// The sums of three lanes.
#[inline(always)]
fn three(x: u16x16, y: u16x16, z: u16x16) -> u16x16
    requires lens { (length x ≡ 16) × (length y ≡ 16) × (length z ≡ 16) }
    requires small { Each1 (λ n. n ≤ 1530) x × Each1 (λ n. n ≤ 1530) y × Each1 (λ n. n ≤ 1530) z }
    ensures len { length result ≡ 16 }
    ensures lanes { (k : ℕ) → k < 16 → slice_index result k ≡ slice_index x k + slice_index y k + slice_index z k }
    ensures small { Each1 (λ n. n ≤ 4590) result }
{
    x.strict_add(y).strict_add(z)
}

// The products of three vectors, added by pairs of neighbours and then by vectors.
#[inline(always)]
fn triple(a: &[u8], b: &[u8], lag: usize, from: usize) -> u16x16
    requires a { AreAtMost 3 a.now }
    requires from { from + TRIPLE ≤ length a.now }
    requires room { lag + (from + TRIPLE) ≤ length b.now }
    ensures len { length result ≡ 16 }
    ensures lanes { (k : ℕ) → k < 16 → slice_index result k ≡ triple_product a.now b.now lag from k }
    ensures small { Each1 (λ n. n ≤ 4590) result }
{
    three(
        pair(a, b, lag, from),
        pair(a, b, lag, from + 32),
        pair(a, b, lag, from + 64),
    )
}

// The products of a vector, added by pairs of neighbours.
#[inline(always)]
fn pair(a: &[u8], b: &[u8], lag: usize, from: usize) -> u16x16
    requires a { AreAtMost 3 a.now }
    requires from { from + LANES ≤ length a.now }
    requires room { lag + (from + LANES) ≤ length b.now }
    ensures len { length result ≡ 16 }
    ensures lanes { (k : ℕ) → k < 16 → slice_index result k ≡ pair_product a.now b.now lag from k }
    ensures small { Each1 (λ n. n ≤ 1530) result }
{
    pairs(bytes_from(b, lag, from), numbers_from(a, from))
}

// The sums with those of lanes that hold a sum of each.
#[inline(always)]
fn parted(sums: Both, both: u16x16) -> Both
    requires lens { (length sums.lower ≡ 16) × (length sums.upper ≡ 16) × (length both ≡ 16) }
    requires both { Each1 (λ n. n ≤ 4590) both }
    requires lower { Each1 (λ n. n ≤ 60000) sums.lower }
    requires upper { Each1 (λ n. n ≤ 60000) sums.upper }
    ensures lower_len { length result.lower ≡ 16 }
    ensures upper_len { length result.upper ≡ 16 }
    ensures lower { sum_l result.lower ≡ sum_l sums.lower + sum_l (map (λ n. n % 64) both) }
    ensures upper { sum_l result.upper ≡ sum_l sums.upper + sum_l (map (λ n. n / 64) both) }
    ensures lower_small { (most : ℕ) → Each1 (λ n. n ≤ most) sums.lower → Each1 (λ n. n ≤ most + 75) result.lower }
    ensures upper_small { (most : ℕ) → Each1 (λ n. n ≤ most) sums.upper → Each1 (λ n. n ≤ most + 75) result.upper }
{
    Both {
        lower: sums.lower.strict_add(both & u16x16::splat(63)),
        upper: sums.upper.strict_add(both >> 6),
    }
}

/// The sums of a's first places at two lags from `lag` on: with the lower numbers of b, and behind them with the upper ones.
#[inline(always)]
pub(crate) fn field_sums(a: &[u8], b: &[u8], lag: usize, count: usize) -> [u32; 4]
    requires a { AreAtMost 3 a.now }
    requires b { AreFields b.now }
    requires size { count ≤ 64 }
    requires count { TRIPLE * count ≤ length a.now }
    requires room { lag + TRIPLE * count + 1 ≤ length b.now }
    ensures first { (slice_index result 0 ≡ lower_sum a.now b.now lag (TRIPLE * count)) × (slice_index result 1 ≡ lower_sum a.now b.now (lag + 1) (TRIPLE * count)) }
    ensures second { (slice_index result 2 ≡ upper_sum a.now b.now lag (TRIPLE * count)) × (slice_index result 3 ≡ upper_sum a.now b.now (lag + 1) (TRIPLE * count)) }
{
    let mut first = Both {
        lower: u16x16::splat(0),
        upper: u16x16::splat(0),
    };
    let mut second = first;
    for i in 0..count {
        let from = TRIPLE * i;
        first = parted(first, triple(a, b, lag, from));
        second = parted(second, triple(a, b, lag + 1, from));
    }
    [
        total(first.lower),
        total(second.lower),
        total(first.upper),
        total(second.upper),
    ]
}
