//! Sums of products of bytes in lanes of 32 bits, four lags at a time.
ghost use Rattle.std.specs.Prelude.{◌≡◌, ◌<◌, ◌≤◌, ◌+◌, ◌*◌, ◌^◌, ℕ, length, slice_index};
ghost use Rattle.std.specs.Simd.Lanes.{Each1, chunk, products, sum_l};
ghost use Rattle.byte_sums.specs.Sums.{AreWeights, lag_sum};

use std::simd::prelude::*;

// The samples of a vector.
const LANES: usize = 32;

// A vector of weights from `at` on.
#[inline(always)]
fn weights(a: &[u8], at: usize) -> u8x32
    requires room { at + LANES ≤ length a.now }
    requires weights { AreWeights a.now }
    ensures value { result ≡ chunk at LANES a.now }
    ensures len { length result ≡ LANES }
    ensures weights { Each1 (λ x. x < 65) result }
{
    u8x32::from_slice(&a[at..])
}

// The sums with the products of a vector of weights and the bytes from `at` on.
#[inline(always)]
fn plus(sums: u32x8, b: &[u8], at: usize, weights: u8x32) -> u32x8
    requires lanes { length sums ≡ 8 }
    requires len { length weights ≡ LANES }
    requires weights { Each1 (λ x. x < 65) weights }
    requires room { at + LANES ≤ length b.now }
    requires small { sum_l sums < 2 ^ 31 }
    ensures lanes { length result ≡ 8 }
    ensures value { sum_l result ≡ sum_l sums + sum_l (products (chunk at LANES b.now) weights) }
{
    sums.strict_add(u8x32::from_slice(&b[at..]).dot4(weights))
}

// The sum of the lanes.
#[inline(always)]
fn total(sums: u32x8) -> u32
    requires { sum_l sums < 2 ^ 31 }
    ensures { result ≡ sum_l sums }
{
    sums.strict_reduce_sum()
}

// The sums of the first `count` vectors of a with b from `at` on, at four lags.
#[inline(always)]
fn vector_sums(a: &[u8], b: &[u8], at: usize, count: usize) -> [u32; 4]
    requires weights { AreWeights a.now }
    requires size { length a.now ≤ 2 ^ 15 }
    requires count { LANES * count ≤ length a.now }
    requires room { at + LANES * count + 4 ≤ length b.now + 1 }
    ensures { (k : ℕ) → k < 4 → slice_index result k ≡ lag_sum a.now b.now (at + k) (LANES * count) }
{
    let mut first = u32x8::splat(0);
    let mut second = u32x8::splat(0);
    let mut third = u32x8::splat(0);
    let mut fourth = u32x8::splat(0);
    for i in 0..count {
        let from = LANES * i;
        let vector = weights(a, from);
        first = plus(first, b, at + from, vector);
        second = plus(second, b, at + from + 1, vector);
        third = plus(third, b, at + from + 2, vector);
        fourth = plus(fourth, b, at + from + 3, vector);
    }
    [total(first), total(second), total(third), total(fourth)]
}

// The sum of the first `count` vectors of a with b from `at` on.
#[inline(always)]
fn vector_sum(a: &[u8], b: &[u8], at: usize, count: usize) -> u32
    requires weights { AreWeights a.now }
    requires size { length a.now ≤ 2 ^ 15 }
    requires count { LANES * count ≤ length a.now }
    requires room { at + LANES * count ≤ length b.now }
    ensures { result ≡ lag_sum a.now b.now at (LANES * count) }
{
    let mut sums = u32x8::splat(0);
    for i in 0..count {
        sums = plus(sums, b, at + LANES * i, weights(a, LANES * i));
    }
    total(sums)
}

// The sum with the products of a's samples from `from` on.
#[inline(always)]
fn with_rest(sum: u32, a: &[u8], b: &[u8], at: usize, from: usize) -> u32
    requires weights { AreWeights a.now }
    requires size { length a.now ≤ 2 ^ 15 }
    requires from { from ≤ length a.now }
    requires room { at + length a.now ≤ length b.now }
    requires sum { sum ≡ lag_sum a.now b.now at from }
    ensures { result ≡ lag_sum a.now b.now at (length a.now) }
{
    let mut all = sum;
    for i in from..a.len() {
        all += u32::from(a[i]) * u32::from(b[at + i]);
    }
    all
}

/// The sums at four lags from `at` on, each with the products of a's samples from `from` on.
#[inline(always)]
pub(crate) fn four_with_rest(sums: [u32; 4], a: &[u8], b: &[u8], at: usize, from: usize) -> [u32; 4]
    requires weights { AreWeights a.now }
    requires size { length a.now ≤ 2 ^ 15 }
    requires from { from ≤ length a.now }
    requires room { at + length a.now + 4 ≤ length b.now + 1 }
    requires sums { (k : ℕ) → k < 4 → slice_index sums k ≡ lag_sum a.now b.now (at + k) from }
    ensures { (k : ℕ) → k < 4 → slice_index result k ≡ lag_sum a.now b.now (at + k) (length a.now) }
{
    [
        with_rest(sums[0], a, b, at, from),
        with_rest(sums[1], a, b, at + 1, from),
        with_rest(sums[2], a, b, at + 2, from),
        with_rest(sums[3], a, b, at + 3, from),
    ]
}

/// The sums at four lags from `at` on.
#[inline(always)]
pub(crate) fn four_dot_sums(a: &[u8], b: &[u8], at: usize) -> [u32; 4]
    requires weights { AreWeights a.now }
    requires size { length a.now ≤ 2 ^ 15 }
    requires room { at + length a.now + 4 ≤ length b.now + 1 }
    ensures { (k : ℕ) → k < 4 → slice_index result k ≡ lag_sum a.now b.now (at + k) (length a.now) }
{
    let count = a.len() / LANES;
    four_with_rest(vector_sums(a, b, at, count), a, b, at, LANES * count)
}

/// The sum at one lag.
#[inline(always)]
pub(crate) fn one_sum(a: &[u8], b: &[u8], at: usize) -> u32
    requires weights { AreWeights a.now }
    requires size { length a.now ≤ 2 ^ 15 }
    requires room { at + length a.now ≤ length b.now }
    ensures { result ≡ lag_sum a.now b.now at (length a.now) }
{
    let count = a.len() / LANES;
    with_rest(vector_sum(a, b, at, count), a, b, at, LANES * count)
}
