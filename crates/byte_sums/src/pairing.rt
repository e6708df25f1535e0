//! The products of two vectors of bytes, added by pairs. The form is that which a compiler knows as one operation: it would
//! saturate, though here nothing is that large.
ghost use Rattle.std.specs.Prelude.{◌≡◌, ◌<◌, ◌≤◌, ◌+◌, ◌*◌, ◌^◌, ℕ, length, slice_index};
ghost use Rattle.std.specs.Simd.Lanes.{Each1, zip2};

use std::simd::prelude::*;

// The lanes at even places.
#[inline(always)]
fn even(v: u8x32) -> u8x16
    requires { length v ≡ 32 }
    ensures len { length result ≡ 16 }
    ensures lanes { (k : ℕ) → k < 16 → slice_index result k ≡ slice_index v (2 * k) }
{
    v.swizzle([0, 2, 4, 6, 8, 10, 12, 14, 16, 18, 20, 22, 24, 26, 28, 30])
}

// The lanes at odd places.
#[inline(always)]
fn odd(v: u8x32) -> u8x16
    requires { length v ≡ 32 }
    ensures len { length result ≡ 16 }
    ensures lanes { (k : ℕ) → k < 16 → slice_index result k ≡ slice_index v (2 * k + 1) }
{
    v.swizzle([1, 3, 5, 7, 9, 11, 13, 15, 17, 19, 21, 23, 25, 27, 29, 31])
}

// The sums of two products each, of bytes and weights.
#[inline(always)]
fn sums(b: u8x16, a: u8x16, d: u8x16, c: u8x16) -> u16x16
    requires lens { (length b ≡ 16) × (length a ≡ 16) × (length d ≡ 16) × (length c ≡ 16) }
    requires weights { Each1 (λ x. x < 65) a × Each1 (λ x. x < 65) c }
    requires bytes { Each1 (λ x. x < 256) b × Each1 (λ x. x < 256) d }
    ensures { result ≡ zip2 (λ x y. x + y) (zip2 (λ x y. x * y) b a) (zip2 (λ x y. x * y) d c) }
{
    let first = b.cast::<i32>() * a.cast::<i8>().cast::<i32>();
    let second = d.cast::<i32>() * c.cast::<i8>().cast::<i32>();
    (first + second)
        .simd_min(i32x16::splat(32767))
        .simd_max(i32x16::splat(-32768))
        .cast::<i16>()
        .cast::<u16>()
}

/// The sums of two neighbouring products each.
#[inline(always)]
pub(crate) fn pairs(b: u8x32, a: u8x32) -> u16x16
    requires lens { (length b ≡ 32) × (length a ≡ 32) }
    requires weights { Each1 (λ x. x < 65) a }
    requires bytes { Each1 (λ x. x < 256) b }
    ensures len { length result ≡ 16 }
    ensures lanes { (k : ℕ) → k < 16 → slice_index result k ≡ slice_index b (2 * k) * slice_index a (2 * k) + slice_index b (2 * k + 1) * slice_index a (2 * k + 1) }
{
    sums(even(b), even(a), odd(b), odd(a))
}
