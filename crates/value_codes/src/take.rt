//! The levels of a channel out of a data array.
ghost use Rattle.std.specs.Prelude.{◌≡◌, ◌+◌, ◌*◌, ◌/◌, ◌%◌, ◌^◌, ◌<◌, ◌≤◌, ℕ, Some, length, slice_index};
ghost use Rattle.sample_unpack.specs.Level.{IsWidth, bit_of, code_at, level_at};
ghost use Rattle.value_codes.specs.{Fields.{field_at}, Taken.{IsTaken, taken_of}};

use std::simd::prelude::*;

// The levels of a vector.
const LANES: usize = 16;

// The byte of a code of four bits.
#[inline(always)]
fn taken_of_four(code: u8) -> u8
    requires { code < 16 }
    ensures { result ≡ taken_of 4 code }
{
    let lower = if code < 8 { 3 - code / 2 } else { code / 2 - 4 };
    8 + 128 * (code / 8) + 64 * (code % 2) + 16 * lower
}

// The byte of the code in the lowest bits of a byte.
#[inline(always)]
fn taken(bits: u8, byte: u8) -> u8
    requires width { IsWidth bits }
    ensures { result ≡ taken_of bits (byte % 2 ^ bits) }
{
    if bits == 1 {
        72 + 64 * (byte % 2)
    } else if bits == 2 {
        8 + 64 * (byte % 4)
    } else {
        taken_of_four(byte % 16)
    }
}

// Sets each code to that of a level of a channel, the first of which begins at bit `shift` of byte `byte` and each other `step`
// bits behind the one before.
fn take_each(array: &[u8], byte: usize, shift: u32, bits: u8, step: u32, codes: &mut [u8])
    requires width { IsWidth bits }
    requires shift { shift < 8 }
    requires step { step ≤ 256 }
    requires inside { (i : ℕ) → i < length codes.old → 8 * byte + shift + i * step + bits ≤ 8 * length array.now }
    ensures { (i : ℕ) → i < length codes.old → slice_index codes.new i ≡ taken_of bits (code_at array.now bits (8 * byte + shift + i * step)) }
{
    let mut at = byte;
    let mut low = shift;
    for i in 0..codes.len() {
        codes[i] = taken(bits, array[at] >> low);
        let next = low + step;
        at += (next / 8) as usize;
        low = next % 8;
    }
}

// By four bits: the byte of the code in those from bit `low` on.
fn table(bits: u8, low: u32) -> u8x16
    requires width { IsWidth bits }
    requires low { low < 8 }
    ensures long { length result ≡ LANES }
    ensures lanes { (i : ℕ) → i < LANES → slice_index result i ≡ taken_of bits (i / 2 ^ low % 2 ^ bits) }
{
    let mut lanes = [0; LANES];
    for i in 0..LANES {
        lanes[i] = taken(bits, i as u8 >> low);
    }
    u8x16::from_array(lanes)
}

// By four bits: what a table has for those of them behind the lowest `width`.
#[inline(always)]
fn table_behind(table: u8x16, width: u8) -> u8x16
    requires table { length table ≡ LANES }
    requires width { width < 8 }
    ensures long { length result ≡ LANES }
    ensures lanes { (i : ℕ) → i < LANES → slice_index result i ≡ slice_index table (i / 2 ^ width) }
{
    let fields = u8x16::from_array([0, 1, 2, 3, 4, 5, 6, 7, 8, 9, 10, 11, 12, 13, 14, 15]);
    table.swizzle_dyn(fields >> u8x16::splat(width))
}

// The fields of `width` bits in lanes that hold two each, one a lane.
#[inline(always)]
fn halves(fields: u8x16, width: u8) -> (u8x16, u8x16)
    requires long { length fields ≡ LANES }
    requires width { width ≤ 4 }
    ensures first_long { length result.0 ≡ LANES }
    ensures second_long { length result.1 ≡ LANES }
    ensures first { (i : ℕ) → i < LANES → slice_index result.0 i ≡ field_at fields 2 width i }
    ensures second { (i : ℕ) → i < LANES → slice_index result.1 i ≡ field_at fields 2 width (LANES + i) }
{
    let mask = u8x16::splat((1 << width) - 1);
    let lower = fields & mask;
    let higher = (fields >> u8x16::splat(width)) & mask;
    lower.interleave(higher)
}

// Sets each code to what the table has for a lane of four bits.
#[inline(always)]
fn put_one(table: u8x16, fields: u8x16, codes: &mut [u8])
    requires table { length table ≡ LANES }
    requires long { length fields ≡ LANES }
    requires below { (i : ℕ) → i < LANES → slice_index fields i < LANES }
    requires codes { length codes.old ≡ LANES }
    ensures { (i : ℕ) → i < length codes.old → slice_index codes.new i ≡ slice_index table (slice_index fields i) }
{
    table.swizzle_dyn(fields).copy_to_slice(codes);
}

// As `put_one`, where each lane of eight bits holds two fields of four.
#[inline(always)]
fn put_halves(table: u8x16, bytes: u8x16, codes: &mut [u8])
    requires table { length table ≡ LANES }
    requires long { length bytes ≡ LANES }
    requires codes { length codes.old ≡ 2 * LANES }
    ensures { (i : ℕ) → i < length codes.old → slice_index codes.new i ≡ slice_index table (field_at bytes 2 4 i) }
{
    let (first, second) = halves(bytes, 4);
    let (front, behind) = codes.split_at_mut(LANES);
    put_one(table, first, front);
    put_one(table, second, behind);
}

// Sets each code to what the table has for a field of `width` bits, of which each lane holds two.
#[inline(always)]
fn put_two(table: u8x16, fields: u8x16, width: u8, codes: &mut [u8])
    requires table { length table ≡ LANES }
    requires alike { (x : ℕ) → x < LANES → slice_index table x ≡ slice_index table (x % 2 ^ width) }
    requires long { length fields ≡ LANES }
    requires below { (i : ℕ) → i < LANES → slice_index fields i < LANES }
    requires width { width < 8 }
    requires codes { length codes.old ≡ 2 * LANES }
    ensures { (i : ℕ) → i < length codes.old → slice_index codes.new i ≡ slice_index table (field_at fields 2 width i) }
{
    let first = table.swizzle_dyn(fields);
    let second = table_behind(table, width).swizzle_dyn(fields);
    let (front, behind) = first.interleave(second);
    front.copy_to_slice(codes);
    behind.copy_to_slice(&mut codes[LANES..]);
}

// As `put_two`, where each lane holds four.
#[inline(always)]
fn put_four(table: u8x16, fields: u8x16, width: u8, codes: &mut [u8])
    requires table { length table ≡ LANES }
    requires alike { (x : ℕ) → x < LANES → slice_index table x ≡ slice_index table (x % 2 ^ width) }
    requires long { length fields ≡ LANES }
    requires width { 2 * width ≤ 4 }
    requires codes { length codes.old ≡ 4 * LANES }
    ensures { (i : ℕ) → i < length codes.old → slice_index codes.new i ≡ slice_index table (field_at fields 4 width i) }
{
    let (first, second) = halves(fields, 2 * width);
    let (front, behind) = codes.split_at_mut(2 * LANES);
    put_two(table, first, width, front);
    put_two(table, second, width, behind);
}

// As `put_four`, where each lane holds eight, of one bit.
#[inline(always)]
fn put_eight(table: u8x16, bytes: u8x16, codes: &mut [u8])
    requires table { length table ≡ LANES }
    requires alike { (x : ℕ) → x < LANES → slice_index table x ≡ slice_index table (x % 2) }
    requires long { length bytes ≡ LANES }
    requires codes { length codes.old ≡ 8 * LANES }
    ensures { (i : ℕ) → i < length codes.old → slice_index codes.new i ≡ slice_index table (field_at bytes 8 1 i) }
{
    let (first, second) = halves(bytes, 4);
    let (front, behind) = codes.split_at_mut(4 * LANES);
    put_four(table, first, 1, front);
    put_four(table, second, 1, behind);
}

// Sets each code to what the table has for a field of `step` bits of a byte, or, where a byte is one field, for its four bits from bit
// `low` on.
#[inline(always)]
fn put_bytes(table: u8x16, bytes: u8x16, low: u32, step: u32, codes: &mut [u8])
    requires table { length table ≡ LANES }
    requires alike { (x : ℕ) → x < LANES → slice_index table x ≡ slice_index table (x % 2 ^ step) }
    requires long { length bytes ≡ LANES }
    requires low { low < 8 }
    requires step { 8 / step * step ≡ 8 }
    requires codes { length codes.old ≡ LANES * (8 / step) }
    ensures one { step ≡ 8 → (i : ℕ) → i < length codes.old → slice_index codes.new i ≡ slice_index table (slice_index bytes i / 2 ^ low % 2 ^ 4) }
    ensures more { step ≤ 4 → (i : ℕ) → i < length codes.old → slice_index codes.new i ≡ slice_index table (field_at bytes (8 / step) step i) }
{
    match step {
        8 => {
            let shifted = bytes >> u8x16::splat(low as u8);
            put_one(table, shifted & u8x16::splat(15), codes);
        }
        4 => put_halves(table, bytes, codes),
        2 => put_four(table, bytes, 2, codes),
        _ => put_eight(table, bytes, codes),
    }
}

// Sets the codes to those of the levels of `count` vectors of bytes as `take_each` does, where each byte holds as many levels and the
// first of them begins at its bit `low`.
fn take_vectors(
    array: &[u8],
    byte: usize,
    count: usize,
    low: u32,
    bits: u8,
    step: u32,
    codes: &mut [u8],
)
    requires width { IsWidth bits }
    requires step { 8 / step * step ≡ 8 }
    requires low { low + bits ≤ step }
    requires whole { length codes.old ≡ LANES * (8 / step) * count }
    requires inside { byte + LANES * count ≤ length array.now }
    ensures { (i : ℕ) → i < length codes.old → slice_index codes.new i ≡ taken_of bits (code_at array.now bits (8 * byte + low + i * step)) }
{
    // A level that has its byte alone may begin behind the four bits that the table knows, so its byte is shifted.
    let from = if step == 8 { 0 } else { low };
    let table = table(bits, from);
    let levels = LANES * (8 / step) as usize;
    for v in 0..count {
        let bytes = u8x16::from_slice(&array[byte + LANES * v..]);
        let part = &mut codes[levels * v..levels * (v + 1)];
        put_bytes(table, bytes, low, step, part);
    }
}

// Sets each code to that of a level of a channel as `take_each` does, where a byte holds `per` levels of the channel.
fn take_whole(
    array: &[u8],
    byte: usize,
    shift: u32,
    bits: u8,
    step: u32,
    per: usize,
    codes: &mut [u8],
)
    requires width { IsWidth bits }
    requires shift { shift < 8 }
    requires low { shift % step + bits ≤ step }
    requires step { per * step ≡ 8 }
    requires some { 0 < length codes.old }
    requires inside { (i : ℕ) → i < length codes.old → 8 * byte + shift + i * step + bits ≤ 8 * length array.now }
    ensures { (i : ℕ) → i < length codes.old → slice_index codes.new i ≡ taken_of bits (code_at array.now bits (8 * byte + shift + i * step)) }
{
    let low = shift % step;
    let head = (per - (shift / step) as usize).min(codes.len());
    let levels = LANES * per;
    let count = (codes.len() - head) / levels;
    let (front, behind) = codes.split_at_mut(head);
    let (middle, rest) = behind.split_at_mut(levels * count);
    take_each(array, byte, shift, bits, step, front);
    take_vectors(array, byte + 1, count, low, bits, step, middle);
    take_each(array, byte + 1 + LANES * count, low, bits, step, rest);
}

/// Sets each code to that of a sample of channel `chan`, from sample `first` on, in a data array of `chans` channels with `bits`
/// bits a sample, turned by the direction 0 (VDIF 1.1.1, data array).
pub fn take_levels(array: &[u8], bits: u8, chans: u32, chan: u32, first: u64, codes: &mut [u8])
    requires width { IsWidth bits }
    requires channel { chan < chans }
    requires channels { chans ≤ 64 }
    requires inside { (i : ℕ) → i < length codes.old → bit_of bits chans chan (first + i) + bits ≤ 8 * length array.now }
    ensures { (i : ℕ) → i < length codes.old → IsTaken (slice_index codes.new i) (Some (level_at array.now bits chans chan (first + i))) }
{
    if codes.is_empty() {
        return;
    }
    let at = (u128::from(first) * u128::from(chans) + u128::from(chan)) * u128::from(bits);
    let byte = (at / 8) as usize;
    let shift = (at % 8) as u32;
    let step = chans * u32::from(bits);
    if 8 % step == 0 {
        take_whole(array, byte, shift, bits, step, (8 / step) as usize, codes);
    } else {
        take_each(array, byte, shift, bits, step, codes);
    }
}
