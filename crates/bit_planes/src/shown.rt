//! The planes of bits of values.
ghost use Rattle.std.specs.Prelude.{◌≡◌, ◌<◌, ◌≤◌, ◌+◌, ◌^◌, ℕ, None, slice_index_or, if◌then◌else◌};
ghost use Rattle.std.specs.Int.{bit_at};
ghost use Rattle.bit_planes.specs.{Held.{AreHeld, values_in}, Shown.{has_part, has_sign, part_bit, plane_bit}};

use crate::held::Held;

// Whether a ternary part of a component is not 0.
fn has_part(part: u8, x: i8) -> bool
    requires { part < 4 }
    ensures { result ≡ has_part part x }
{
    (x.unsigned_abs() >> part) % 2 == 1
}

// Whether a component has the sign.
fn has_sign(sign: u8, x: i8) -> bool
    ensures { result ≡ has_sign sign x }
{
    if sign == 0 { 0 < x } else { x < 0 }
}

// Whether the bit of a component is set in the plane of a part and a sign.
fn part_bit(place: u8, x: i8) -> bool
    ensures { (if result then 1 else 0) ≡ part_bit place x }
{
    has_part(place / 2 % 4, x) && has_sign(place % 2, x)
}

// Whether the bit of a value is set in a plane.
fn plane_bit(plane: u8, value: Option<(i8, i8)>) -> bool
    ensures { (if result then 1 else 0) ≡ plane_bit plane value }
{
    let Some((re, im)) = value else {
        return false;
    };
    if plane == 0 {
        return true;
    }
    let place = plane - 1;
    part_bit(place, if place / 8 == 0 { re } else { im })
}

fn bit_of(bit: bool) -> u64
    ensures { result ≡ (if bit then 1 else 0) }
{
    u64::from(bit)
}

// A number whose bits are below bit `k`, with that bit.
fn with_bit(bits: u64, k: u32, bit: bool) -> u64
    requires inside { k < 64 }
    requires below { bits < 2 ^ k }
    ensures below { result < 2 ^ (k + 1) }
    ensures before { (j : ℕ) → j < k → bit_at result j ≡ bit_at bits j }
    ensures here { bit_at result k ≡ (if bit then 1 else 0) }
{
    bits | bit_of(bit) << k
}

// The 64 bits of a plane from that of place `first` on.
pub(crate) fn word_at(held: &Held, plane: u8, first: usize) -> u64
    requires held { AreHeld held.now }
    requires scan { first ≤ 2 ^ 40 }
    ensures { (k : ℕ) → k < 64 → bit_at result k ≡ plane_bit plane (slice_index_or (values_in held.now) (first + k) None) }
{
    let mut word = 0;
    for k in 0..64_u32 {
        word = with_bit(word, k, plane_bit(plane, held.value(first + k as usize)));
    }
    word
}
