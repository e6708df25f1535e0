//! Sums of products of small bytes in lanes of 16 bits, four lags at a time.
ghost use Rattle.std.specs.Prelude.{◌≡◌, ◌<◌, ◌≤◌, ◌+◌, ◌*◌, ◌^◌, ℕ, length, slice_index};
ghost use Rattle.std.specs.Simd.Lanes.{Each1, chunk, products, sum_l};
ghost use Rattle.byte_sums.specs.Sums.{AreAtMost, AreWeights, lag_sum};

use crate::dots::four_with_rest;
use crate::pairing::pairs;
use std::simd::prelude::*;

// The samples of a vector.
const LANES: usize = 32;

// A vector of small bytes from `at` on.
#[inline(always)]
fn small_bytes(bytes: &[u8], at: usize) -> u8x32
    requires room { at + LANES ≤ length bytes.now }
    requires small { AreAtMost 12 bytes.now }
    ensures value { result ≡ chunk at LANES bytes.now }
    ensures len { length result ≡ LANES }
    ensures small { Each1 (λ x. x ≤ 12) result }
{
    u8x32::from_slice(&bytes[at..])
}

// The sums with the products of two vectors.
#[inline(always)]
fn plus(sums: u16x16, b: u8x32, a: u8x32) -> u16x16
    requires lanes { length sums ≡ 16 }
    requires lens { (length b ≡ LANES) × (length a ≡ LANES) }
    requires b { Each1 (λ x. x ≤ 12) b }
    requires a { Each1 (λ x. x ≤ 12) a }
    requires room { Each1 (λ x. x ≤ 65000) sums }
    ensures lanes { length result ≡ 16 }
    ensures value { sum_l result ≡ sum_l sums + sum_l (products b a) }
    ensures small { (most : ℕ) → Each1 (λ x. x ≤ most) sums → Each1 (λ x. x ≤ most + 288) result }
{
    sums.strict_add(pairs(b, a))
}

/// The sum of the lanes.
#[inline(always)]
pub(crate) fn total(sums: u16x16) -> u32
    ensures { result ≡ sum_l sums }
{
    sums.cast::<u32>().strict_reduce_sum()
}

// The sums of the first `count` vectors of a with b from `at` on, at four lags.
#[inline(always)]
fn vector_sums(a: &[u8], b: &[u8], at: usize, count: usize) -> [u32; 4]
    requires a { AreAtMost 12 a.now }
    requires b { AreAtMost 12 b.now }
    requires size { count ≤ 224 }
    requires count { LANES * count ≤ length a.now }
    requires room { at + LANES * count + 4 ≤ length b.now + 1 }
    ensures { (k : ℕ) → k < 4 → slice_index result k ≡ lag_sum a.now b.now (at + k) (LANES * count) }
{
    let mut first = u16x16::splat(0);
    let mut second = u16x16::splat(0);
    let mut third = u16x16::splat(0);
    let mut fourth = u16x16::splat(0);
    for i in 0..count {
        let from = LANES * i;
        let vector = small_bytes(a, from);
        first = plus(first, small_bytes(b, at + from), vector);
        second = plus(second, small_bytes(b, at + from + 1), vector);
        third = plus(third, small_bytes(b, at + from + 2), vector);
        fourth = plus(fourth, small_bytes(b, at + from + 3), vector);
    }
    [total(first), total(second), total(third), total(fourth)]
}

/// The sums at four lags from `at` on.
#[inline(always)]
pub(crate) fn four_short_sums(a: &[u8], b: &[u8], at: usize) -> [u32; 4]
    requires a { AreAtMost 12 a.now }
    requires b { AreAtMost 12 b.now }
    requires size { length a.now ≤ 7168 }
    requires room { at + length a.now + 4 ≤ length b.now + 1 }
    ensures { (k : ℕ) → k < 4 → slice_index result k ≡ lag_sum a.now b.now (at + k) (length a.now) }
{
    let count = a.len() / LANES;
    four_with_rest(vector_sums(a, b, at, count), a, b, at, LANES * count)
}
