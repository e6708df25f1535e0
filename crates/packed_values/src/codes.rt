//! The row of value codes, by look-ups in tables of sixteen.
ghost use Rattle.std.specs.Prelude.{◌≡◌, ◌<◌, ◌≤◌, ◌+◌, ◌*◌, ◌^◌, ◌++◌, ℕ, pos, ◌+ℤ◌, ◌-ℤ◌, Some, IfSome, true, [], length, map, slice_index, slice_index_or, unsigned_abs, bit_and, bit_xor, IsTrue};
ghost use Rattle.byte_lags.specs.Streams.{IsUnit};
ghost use Rattle.byte_streams.specs.{Rows.{bias_in, level_value, row_len, row_value}, Streams.{value_in}};
ghost use Rattle.value_codes.specs.Codes.{value_of};
ghost use Rattle.packed_values.specs.{From.{value_from}, Kinds.{is_still}, Tables.{are_signs, biased_of, IsAlong, IsBiasOf, IsNarrow, there_of, weights_along}, Words.{word_at}};

use crate::kinds::{guess_of, is_kind, kind_of};
use crate::places::places;
use byte_lags::{Stream, Weights};
use byte_streams::{Levels, Row, Streams};
use std::simd::prelude::*;

// The codes of a vector. Each half of it looks up in its own half of a table.
const LANES: usize = 32;

// By a code's higher half byte: the level.
const LEVELS: [u8; 16] = [
    253, 249, 245, 241, 255, 251, 247, 243, 1, 5, 9, 13, 3, 7, 11, 15,
];

// By a code's lower half byte: what its level's half byte is turned over with for the real component, 128 where that is 0.
const REAL: [u8; 16] = [
    128, 128, 128, 128, 128, 128, 128, 128, 0, 0, 128, 12, 12, 12, 128, 0,
];

// The same for the imaginary component.
const IMAGINARY: [u8; 16] = [
    128, 128, 128, 128, 128, 128, 128, 128, 128, 0, 0, 0, 128, 12, 12, 12,
];

// The same for a level along each of four directions: 12 where a code has the opposite one.
const ALONG: [[u8; 16]; 4] = [
    [
        128, 128, 128, 128, 128, 128, 128, 128, 0, 128, 128, 128, 12, 128, 128, 128,
    ],
    [
        128, 128, 128, 128, 128, 128, 128, 128, 128, 0, 128, 128, 128, 12, 128, 128,
    ],
    [
        128, 128, 128, 128, 128, 128, 128, 128, 128, 128, 0, 128, 128, 128, 12, 128,
    ],
    [
        128, 128, 128, 128, 128, 128, 128, 128, 128, 128, 128, 0, 128, 128, 128, 12,
    ],
];

// A table of sixteen in both halves of a vector.
#[inline(always)]
fn twice(table: &[u8; 16]) -> u8x32
    ensures { result ≡ table.now ++ table.now }
{
    u8x16::from_array(*table).swizzle([
        0, 1, 2, 3, 4, 5, 6, 7, 8, 9, 10, 11, 12, 13, 14, 15, 0, 1, 2, 3, 4, 5, 6, 7, 8, 9, 10, 11,
        12, 13, 14, 15,
    ])
}

// The components of a vector of codes, with the bias.
#[inline(always)]
fn components(codes: u8x32, signs: &[u8; 16], bias: u8) -> u8x32
    requires codes { length codes ≡ LANES }
    requires signs { IsTrue (are_signs signs.now) }
    ensures { result ≡ map (biased_of LEVELS signs.now bias) codes }
{
    let turn = twice(signs).swizzle_dyn_within::<16>(codes & u8x32::splat(15));
    let level = twice(&LEVELS).swizzle_dyn_within::<16>((codes >> 4) ^ turn);
    level + u8x32::splat(bias)
}

// 1 where there is a value, of a vector of codes.
#[inline(always)]
fn theres(codes: u8x32) -> u8x32
    requires { length codes ≡ LANES }
    ensures { result ≡ map there_of codes }
{
    (codes >> 3) & u8x32::splat(1)
}

// The streams of the first `count` vectors of codes.
fn fill_vectors(
    codes: &[u8],
    count: usize,
    bias: u8,
    re: &mut [u8],
    im: &mut [u8],
    there: &mut [u8],
)
    requires count { LANES * count ≤ length codes.now }
    requires re { length re.old ≡ length codes.now }
    requires im { length im.old ≡ length codes.now }
    requires there { length there.old ≡ length codes.now }
    ensures re_len { length re.new ≡ length codes.now }
    ensures im_len { length im.new ≡ length codes.now }
    ensures there_len { length there.new ≡ length codes.now }
    ensures re { (k : ℕ) → k < LANES * count → slice_index re.new k ≡ biased_of LEVELS REAL bias (slice_index codes.now k) }
    ensures im { (k : ℕ) → k < LANES * count → slice_index im.new k ≡ biased_of LEVELS IMAGINARY bias (slice_index codes.now k) }
    ensures there { (k : ℕ) → k < LANES * count → slice_index there.new k ≡ there_of (slice_index codes.now k) }
{
    for i in 0..count {
        let at = LANES * i;
        let vector = u8x32::from_slice(&codes[at..]);
        components(vector, &REAL, bias).copy_to_slice(&mut re[at..]);
        components(vector, &IMAGINARY, bias).copy_to_slice(&mut im[at..]);
        theres(vector).copy_to_slice(&mut there[at..]);
    }
}

// The component of one code, with the bias.
fn component(code: u8, signs: &[u8; 16], bias: u8) -> u8
    ensures { result ≡ biased_of LEVELS signs.now bias code }
{
    let at = usize::from((code >> 4) ^ signs[usize::from(code % 16)]);
    let level = if at < 16 { LEVELS[at] } else { 0 };
    level.wrapping_add(bias)
}

// The streams of the codes from `from` on, one by one.
fn fill_rest(codes: &[u8], from: usize, bias: u8, re: &mut [u8], im: &mut [u8], there: &mut [u8])
    requires from { from ≤ length codes.now }
    requires re { length re.old ≡ length codes.now }
    requires im { length im.old ≡ length codes.now }
    requires there { length there.old ≡ length codes.now }
    requires re_before { (k : ℕ) → k < from → slice_index re.old k ≡ biased_of LEVELS REAL bias (slice_index codes.now k) }
    requires im_before { (k : ℕ) → k < from → slice_index im.old k ≡ biased_of LEVELS IMAGINARY bias (slice_index codes.now k) }
    requires there_before { (k : ℕ) → k < from → slice_index there.old k ≡ there_of (slice_index codes.now k) }
    ensures re_len { length re.new ≡ length codes.now }
    ensures im_len { length im.new ≡ length codes.now }
    ensures there_len { length there.new ≡ length codes.now }
    ensures re { (k : ℕ) → k < length codes.now → slice_index re.new k ≡ biased_of LEVELS REAL bias (slice_index codes.now k) }
    ensures im { (k : ℕ) → k < length codes.now → slice_index im.new k ≡ biased_of LEVELS IMAGINARY bias (slice_index codes.now k) }
    ensures there { (k : ℕ) → k < length codes.now → slice_index there.new k ≡ there_of (slice_index codes.now k) }
{
    for i in from..codes.len() {
        re[i] = component(codes[i], &REAL, bias);
        im[i] = component(codes[i], &IMAGINARY, bias);
        there[i] = codes[i] / 8 % 2;
    }
}

// The streams of codes.
fn fill_streams(codes: &[u8], bias: u8, re: &mut [u8], im: &mut [u8], there: &mut [u8])
    requires re { length re.old ≡ length codes.now }
    requires im { length im.old ≡ length codes.now }
    requires there { length there.old ≡ length codes.now }
    ensures re_len { length re.new ≡ length codes.now }
    ensures im_len { length im.new ≡ length codes.now }
    ensures there_len { length there.new ≡ length codes.now }
    ensures re { (k : ℕ) → k < length codes.now → slice_index re.new k ≡ biased_of LEVELS REAL bias (slice_index codes.now k) }
    ensures im { (k : ℕ) → k < length codes.now → slice_index im.new k ≡ biased_of LEVELS IMAGINARY bias (slice_index codes.now k) }
    ensures there { (k : ℕ) → k < length codes.now → slice_index there.new k ≡ there_of (slice_index codes.now k) }
{
    let count = codes.len() / LANES;
    fill_vectors(codes, count, bias, re, im, there);
    fill_rest(codes, LANES * count, bias, re, im, there);
}

// Sets each byte before `first` and from `last` on.
fn fill_outside(out: &mut [u8], first: usize, last: usize, byte: u8)
    requires first { first ≤ last }
    requires last { last ≤ length out.old }
    ensures len { length out.new ≡ length out.old }
    ensures before { (k : ℕ) → k < first → slice_index out.new k ≡ byte }
    ensures behind { (k : ℕ) → last ≤ k → k < length out.old → slice_index out.new k ≡ byte }
{
    out[..first].fill(byte);
    out[last..].fill(byte);
}

// The streams of codes of which the first one is at place `first`. Before it and past the last one there are none.
fn fill_cut(codes: &[u8], first: usize, bias: u8, re: &mut [u8], im: &mut [u8], there: &mut [u8])
    requires room { first + length codes.now ≤ length there.old }
    requires re { length re.old ≡ length there.old }
    requires im { length im.old ≡ length there.old }
    ensures re_len { length re.new ≡ length there.old }
    ensures im_len { length im.new ≡ length there.old }
    ensures there_len { length there.new ≡ length there.old }
    ensures re { (k : ℕ) → k < length there.old → slice_index re.new k ≡ biased_of LEVELS REAL bias (word_at codes.now 0 (pos k -ℤ pos first)) }
    ensures im { (k : ℕ) → k < length there.old → slice_index im.new k ≡ biased_of LEVELS IMAGINARY bias (word_at codes.now 0 (pos k -ℤ pos first)) }
    ensures there { (k : ℕ) → k < length there.old → slice_index there.new k ≡ there_of (word_at codes.now 0 (pos k -ℤ pos first)) }
{
    let last = first + codes.len();
    fill_outside(re, first, last, bias);
    fill_outside(im, first, last, bias);
    fill_outside(there, first, last, 0);
    fill_streams(
        codes,
        bias,
        &mut re[first..last],
        &mut im[first..last],
        &mut there[first..last],
    );
}

// The same as streams, with the values of codes.
fn streams_of<'r>(
    codes: &[u8],
    first: usize,
    bias: u8,
    re: &'r mut [u8],
    im: &'r mut [u8],
    there: &'r mut [u8],
) -> Streams<'r>
    requires bias { IsBiasOf bias codes.now }
    requires room { first + length codes.now ≤ length there.old }
    requires re { length re.old ≡ length there.old }
    requires im { length im.old ≡ length there.old }
    ensures len { length result.there.now ≡ length there.old }
    ensures bias { result.bias ≡ bias }
    ensures values { (k : ℕ) → k < length there.old → value_in result k ≡ value_of (word_at codes.now 0 (pos k -ℤ pos first)) }
{
    fill_cut(codes, first, bias, re, im, there);
    Streams {
        re,
        im,
        there,
        bias,
    }
}

// The levels of codes along a direction, and the bits in which any of the codes differs from one.
fn fill_levels(codes: &[u8], one: u8, signs: &[u8; 16], bias: u8, out: &mut [u8]) -> u8
    requires signs { IsTrue (are_signs signs.now) }
    requires out { length out.old ≡ length codes.now }
    ensures len { length out.new ≡ length codes.now }
    ensures each { (k : ℕ) → k < length codes.now → slice_index out.new k ≡ biased_of LEVELS signs.now bias (slice_index codes.now k) }
    ensures bits { (m : ℕ) → bit_and result m ≡ 0 → (k : ℕ) → k < length codes.now → bit_and (bit_xor (slice_index codes.now k) one) m ≡ 0 }
{
    let count = codes.len() / LANES;
    let mut gathered = u8x32::splat(0);
    for i in 0..count {
        let at = LANES * i;
        let vector = u8x32::from_slice(&codes[at..]);
        components(vector, signs, bias).copy_to_slice(&mut out[at..]);
        gathered |= vector ^ u8x32::splat(one);
    }
    let mut bits = gathered.reduce_or();
    for k in LANES * count..codes.len() {
        out[k] = component(codes[k], signs, bias);
        bits |= codes[k] ^ one;
    }
    bits
}

// How many times a level along a direction counts in the real part and in the imaginary one.
fn weights_of(direction: usize) -> Weights
    ensures weights { result ≡ weights_along direction }
    ensures re { IsUnit result.re }
    ensures im { IsUnit result.im }
{
    match direction {
        0 => Weights { re: 1, im: 0 },
        1 => Weights { re: 1, im: 1 },
        2 => Weights { re: 0, im: 1 },
        _ => Weights { re: -1, im: 1 },
    }
}

// Bytes that are the levels of codes along a direction, which all have or its opposite.
fn as_levels<'r>(_codes: &[u8], bias: u8, direction: usize, bytes: &'r mut [u8]) -> Levels<'r>
    requires bias { IsBiasOf bias _codes.now }
    requires direction { direction < 4 }
    requires along { (k : ℕ) → k < length _codes.now → IsAlong direction (slice_index _codes.now k) }
    requires len { length bytes.old ≡ length _codes.now }
    requires each { (k : ℕ) → k < length _codes.now → slice_index bytes.old k ≡ biased_of LEVELS (slice_index_or ALONG direction []) bias (slice_index _codes.now k) }
    ensures len { length result.level.bytes.now ≡ length _codes.now }
    ensures bias { result.level.bias ≡ bias }
    ensures values { (k : ℕ) → k < length _codes.now → level_value result k ≡ value_of (slice_index _codes.now k) }
{
    Levels {
        level: Stream { bytes, bias },
        direction: weights_of(direction),
    }
}

// The levels of codes that have one direction or its opposite.
fn levels_of<'r>(codes: &[u8], bias: u8, direction: usize, out: &'r mut [u8]) -> Levels<'r>
    requires bias { IsBiasOf bias codes.now }
    requires direction { direction < 4 }
    requires along { (k : ℕ) → k < length codes.now → IsAlong direction (slice_index codes.now k) }
    requires out { length out.old ≡ length codes.now }
    ensures len { length result.level.bytes.now ≡ length codes.now }
    ensures bias { result.level.bias ≡ bias }
    ensures values { (k : ℕ) → k < length codes.now → level_value result k ≡ value_of (slice_index codes.now k) }
{
    fill_levels(codes, 0, &ALONG[direction], bias, out);
    as_levels(codes, bias, direction, out)
}

// The bias and the direction of as many codes as there is room for, whose levels are then there. None where three of the codes do not
// show them.
fn alike_levels(codes: &[u8], out: &mut [u8]) -> Option<(u8, usize)>
    ensures len { length out.new ≡ length out.old }
    ensures whole { IfSome result (λ _. length out.old ≡ length codes.now) }
    ensures bias { IfSome result (λ r. IsBiasOf r.0 codes.now) }
    ensures direction { IfSome result (λ r. r.1 < 4) }
    ensures along { IfSome result (λ r. (k : ℕ) → k < length codes.now → IsAlong r.1 (slice_index codes.now k)) }
    ensures each { IfSome result (λ r. (k : ℕ) → k < length codes.now → slice_index out.new k ≡ biased_of LEVELS (slice_index_or ALONG r.1 []) r.0 (slice_index codes.now k)) }
    ensures narrow { ((k : ℕ) → k < length codes.now → IsNarrow (slice_index codes.now k)) → IfSome result (λ r. r.0 ≡ 3) }
{
    if codes.is_empty() || codes.len() != out.len() {
        return None;
    }
    let (bias, direction) = guess_of(codes);
    let direction = direction?;
    let bits = fill_levels(codes, codes[0], &ALONG[direction], bias, out);
    if is_kind(codes[0], bits, bias, direction) {
        Some((bias, direction))
    } else {
        None
    }
}

// The codes of a cut of `count` places from `start` on that lie in the row, and the place of the first of them in the cut.
fn part_of<'c>(codes: &'c [u8], start: i64, count: usize) -> (usize, &'c [u8])
    requires start { unsigned_abs start ≤ 2 ^ 41 }
    requires size { length codes.now ≤ 2 ^ 41 }
    ensures room { result.0 + length result.1.now ≤ count }
    ensures codes { (k : ℕ) → k < count → word_at result.1.now 0 (pos k -ℤ pos result.0) ≡ word_at codes.now 0 (start +ℤ pos k) }
{
    let (before, place) = places(start);
    let from = place.min(codes.len());
    let first = before.min(count);
    let last = (first + (codes.len() - from)).min(count);
    (first, &codes[from..from + (last - first)])
}

// The direction of `count` values, of which `inside` have a code: none where a code is missing.
fn whole(direction: Option<usize>, inside: usize, count: usize) -> Option<usize>
    ensures whole { IfSome result (λ d. (direction ≡ Some d) × (inside ≡ count)) }
    ensures same { inside ≡ count → result ≡ direction }
{
    if inside == count { direction } else { None }
}

/// The row of the values of codes from place `start` on: the levels where all are there and have one direction or its opposite, and
/// else both components. The bias is 3 where no code that is cut out has a larger component, else 15. Before the first place and past
/// the last one there are none.
pub(crate) fn row_of<'r>(
    codes: &[u8],
    start: i64,
    re: &'r mut [u8],
    im: &'r mut [u8],
    there: &'r mut [u8],
) -> Row<'r>
    requires start { unsigned_abs start ≤ 2 ^ 41 }
    requires size { length codes.now ≤ 2 ^ 41 }
    requires re { length re.old ≡ length there.old }
    requires im { length im.old ≡ length there.old }
    ensures len { row_len result ≡ length there.old }
    ensures values { (k : ℕ) → k < length there.old → row_value result k ≡ value_from (map value_of codes.now) (start +ℤ pos k) }
    ensures still { (d : ℕ) → 0 < length there.old → ((k : ℕ) → k < length there.old → IsAlong d (word_at codes.now 0 (start +ℤ pos k))) → is_still result ≡ true }
    ensures narrow { ((k : ℕ) → k < length there.old → IsNarrow (word_at codes.now 0 (start +ℤ pos k))) → bias_in result ≡ 3 }
{
    let (first, inside) = part_of(codes, start, there.len());
    if let Some((bias, direction)) = alike_levels(inside, re) {
        return Row::Still(as_levels(inside, bias, direction, re));
    }
    let (bias, direction) = kind_of(inside);
    match whole(direction, inside.len(), there.len()) {
        Some(direction) => Row::Still(levels_of(inside, bias, direction, re)),
        None => Row::Turning(streams_of(inside, first, bias, re, im, there)),
    }
}
