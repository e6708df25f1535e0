//! What codes have in common: their bias, and the direction that all have.
ghost use Rattle.std.specs.Prelude.{◌≡◌, ◌⊎◌, ◌<◌, ◌≤◌, ◌%◌, ◌^◌, ℕ, Some, true, length, slice_index, unsigned_abs, bit_and, bit_or, bit_xor, IfSome};
ghost use Rattle.packed_values.specs.Tables.{IsAlong, IsBiasOf, IsNarrow, there_of};

use crate::places::places;

// How far apart codes are looked at for a change: a prime, since directions may come again behind a power of two.
const STRIDE: usize = 127;

// The bits of a code that say whether there is a value, and which direction it has up to the opposite one.
const KIND: u8 = 11;

// The bits of a code that levels of one or two bits do not have.
const FINE: u8 = 48;

// The bias of a component of one or two bits, and that of one of four.
const NARROW: u8 = 3;

const WIDE: u8 = 15;

// The bits in which any of the codes differs from one.
#[inline(always)]
fn differing(codes: &[u8], one: u8) -> u8
    ensures each { (m : ℕ) → bit_and result m ≡ 0 → (k : ℕ) → k < length codes.now → bit_and (bit_xor (slice_index codes.now k) one) m ≡ 0 }
    ensures all { (m : ℕ) → ((k : ℕ) → k < length codes.now → bit_and (bit_xor (slice_index codes.now k) one) m ≡ 0) → bit_and result m ≡ 0 }
{
    let mut bits = 0;
    for code in codes {
        bits |= *code ^ one;
    }
    bits
}

// The bias of codes, by one of them and the bits in which any differs from it.
fn bias_of(one: u8, bits: u8) -> u8
    ensures bias { (result ≡ WIDE) ⊎ ((result ≡ NARROW) × (bit_and (bit_or bits one) FINE ≡ 0)) }
    ensures narrow { bit_and (bit_or bits one) FINE ≡ 0 → result ≡ NARROW }
{
    if (bits | one) & FINE == 0 {
        NARROW
    } else {
        WIDE
    }
}

// The direction of codes that all have a value along it, by the same.
fn direction_of(one: u8, bits: u8) -> Option<usize>
    ensures direction { IfSome result (λ d. (d ≡ one % 4) × (there_of one ≡ 1) × (bit_and bits KIND ≡ 0)) }
    ensures along { there_of one ≡ 1 → bit_and bits KIND ≡ 0 → result ≡ Some (one % 4) }
{
    if one / 8 % 2 == 1 && bits & KIND == 0 {
        Some(usize::from(one % 4))
    } else {
        None
    }
}

// The first code, 0 where there is none.
fn first_of(codes: &[u8]) -> u8
    ensures { result ≡ slice_index codes.now 0 }
{
    if codes.is_empty() { 0 } else { codes[0] }
}

// The bias of codes, 3 where all are narrow, and the direction where all have a value along it.
pub(crate) fn kind_of(codes: &[u8]) -> (u8, Option<usize>)
    ensures bias { IsBiasOf result.0 codes.now }
    ensures direction { IfSome result.1 (λ d. (d < 4) × ((k : ℕ) → k < length codes.now → IsAlong d (slice_index codes.now k))) }
    ensures narrow { ((k : ℕ) → k < length codes.now → IsNarrow (slice_index codes.now k)) → result.0 ≡ NARROW }
    ensures along { (d : ℕ) → 0 < length codes.now → ((k : ℕ) → k < length codes.now → IsAlong d (slice_index codes.now k)) → result.1 ≡ Some d }
{
    let one = first_of(codes);
    let bits = differing(codes, one);
    (bias_of(one, bits), direction_of(one, bits))
}

// The same, of the first, the middle and the last of codes, of which there is one.
pub(crate) fn guess_of(codes: &[u8]) -> (u8, Option<usize>)
    requires some { 0 < length codes.now }
    ensures direction { IfSome result.1 (λ d. d < 4) }
    ensures narrow { ((k : ℕ) → k < length codes.now → IsNarrow (slice_index codes.now k)) → result.0 ≡ NARROW }
{
    kind_of(&[codes[0], codes[codes.len() / 2], codes[codes.len() - 1]])
}

// Whether these are the bias and the direction of codes, by one of them and the bits in which any differs from it.
pub(crate) fn is_kind(one: u8, bits: u8, bias: u8, direction: usize) -> bool
    ensures bias { result ≡ true → (bias ≡ WIDE) ⊎ ((bias ≡ NARROW) × (bit_and (bit_or bits one) FINE ≡ 0)) }
    ensures direction { result ≡ true → (direction ≡ one % 4) × (there_of one ≡ 1) × (bit_and bits KIND ≡ 0) }
{
    bias_of(one, bits) == bias && direction_of(one, bits) == Some(direction)
}

// Whether a code is of one kind with another one.
#[inline(always)]
fn is_alike(code: u8, one: u8) -> bool {
    (code ^ one) & KIND == 0
}

// The first place behind `low` whose code is of another kind, where that of `high` is and all change at once: it is looked for by halves.
fn change_behind(codes: &[u8], one: u8, low: usize, high: usize) -> usize
    requires order { low ≤ high }
    requires inside { high < length codes.now }
    ensures { result ≤ high }
{
    let (mut before, mut behind) = (low, high);
    while behind - before > 1 {
        let middle = before + (behind - before) / 2;
        if is_alike(codes[middle], one) {
            before = middle;
        } else {
            behind = middle;
        }
    }
    behind
}

// How many codes, from the first one on, are of one kind with a code, as far as those tell that are looked at, and the last one.
fn alike(codes: &[u8], one: u8) -> usize
    ensures { result ≤ length codes.now }
{
    if codes.is_empty() {
        return 0;
    }
    let last = codes.len() - 1;
    let mut at = 0;
    while last - at > STRIDE && is_alike(codes[at + STRIDE], one) {
        at += STRIDE;
    }
    let next = at + STRIDE.min(last - at);
    if is_alike(codes[next], one) {
        return codes.len();
    }
    change_behind(codes, one, at, next)
}

/// How many samples from place `start` on, of at most `most`, are of one kind: all there and of one direction or its opposite, or all
/// without a value. Before the first place and past the last one they are without a value. Not every code is looked at: a change that
/// lasts for fewer samples than lie between two looks may be passed over.
pub(crate) fn alike_from(codes: &[u8], start: i64, most: usize) -> usize
    requires start { unsigned_abs start ≤ 2 ^ 41 }
    requires size { length codes.now ≤ 2 ^ 41 }
    ensures { result ≤ most }
{
    let (before, place) = places(start);
    if before > 0 {
        return before.min(most);
    }
    if place >= codes.len() {
        return most;
    }
    let count = (codes.len() - place).min(most);
    alike(&codes[place..place + count], codes[place])
}
