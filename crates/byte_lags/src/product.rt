//! Sums of products of two streams of biased bytes at many lags.
ghost use Rattle.std.specs.Prelude.{◌≡◌, ◌<◌, ◌≤◌, ◌+◌, ◌-◌, ◌*◌, ◌^◌, ℕ, ℤ, pos, ◌+ℤ◌, ◌-ℤ◌, ◌*ℤ◌, length, slice_index_or, unsigned_abs};
ghost use Rattle.byte_sums.specs.Sums.{AreAtMost};
ghost use Rattle.byte_lags.specs.Streams.{AreWithin, IsAdded, IsBiased, IsWeight, IsWithin, window};
ghost use Rattle.corr_model.specs.Cell.{no_cell};

use byte_sums::lag_sums;
use corr_model::Cell;

// How many bytes have a sum of 16 bits, whichever they are.
const STRETCH: usize = 256;

/// Numbers as bytes: each with the bias, which makes it positive.
#[derive(Clone, Copy)]
pub struct Stream<'a> {
    pub bytes: &'a [u8],
    pub bias: u8,
}

/// How many times a sum of products counts in the real part of a cell and in its imaginary one.
#[derive(Clone, Copy)]
pub struct Weights {
    pub re: i64,
    pub im: i64,
}

// The sum of a stretch of bytes, which 16 bits hold.
#[inline(always)]
fn stretch_sum(bytes: &[u8], at: usize, count: usize) -> u16
    requires room { at + count ≤ length bytes.now }
    requires size { count ≤ STRETCH }
    ensures { result ≡ window bytes.now at count }
{
    let mut sum: u16 = 0;
    for i in 0..count {
        sum += u16::from(bytes[at + i]);
    }
    sum
}

// The sum of the first `count` bytes, stretch by stretch.
#[inline(always)]
fn byte_sum(bytes: &[u8], count: usize) -> u64
    requires room { count ≤ length bytes.now }
    requires size { count ≤ 4096 }
    ensures value { result ≡ window bytes.now 0 count }
    ensures small { result ≤ 255 * count }
{
    let mut sum: u64 = 0;
    let mut at = 0;
    while at < count {
        let size = STRETCH.min(count - at);
        sum += u64::from(stretch_sum(bytes, at, size));
        at += size;
    }
    sum
}

// The window of so many bytes, one place on.
#[inline(always)]
fn next_window(sum: u64, bytes: &[u8], at: usize, count: usize) -> u64
    requires room { at + count < length bytes.now }
    requires sum { sum ≡ window bytes.now at count }
    requires size { count ≤ 4096 }
    ensures value { result ≡ window bytes.now (at + 1) count }
    ensures small { result ≤ 255 * count }
{
    sum + u64::from(bytes[at + count]) - u64::from(bytes[at])
}

// A window times a bias.
#[inline(always)]
fn scaled(bias: u8, sum: u64) -> u64
    requires bias { bias ≤ 30 }
    requires sum { sum ≤ 2 ^ 20 }
    ensures value { result ≡ bias * sum }
    ensures small { result ≤ 2 ^ 25 }
{
    u64::from(bias) * sum
}

// The product of the biases, for each of `count` pairs.
#[inline(always)]
fn bias_products(a: u8, b: u8, count: usize) -> u64
    requires a { a ≤ 30 }
    requires b { b ≤ 30 }
    requires size { count ≤ 4096 }
    ensures value { result ≡ a * b * count }
    ensures small { result ≤ 2 ^ 22 }
{
    u64::from(a) * u64::from(b) * count as u64
}

// A difference of two numbers.
#[inline(always)]
fn difference(more: u64, less: u64) -> i64
    requires more { more ≤ 2 ^ 33 }
    requires less { less ≤ 2 ^ 33 }
    ensures value { result ≡ pos more -ℤ pos less }
    ensures small { unsigned_abs result ≤ 2 ^ 33 }
{
    more as i64 - less as i64
}

// A number with another one added, so many times.
#[inline(always)]
fn grown(old: i64, weight: i64, value: i64) -> i64
    requires old { unsigned_abs old ≤ 2 ^ 62 + 2 ^ 61 }
    requires weight { IsWeight weight }
    requires value { unsigned_abs value ≤ 2 ^ 33 }
    ensures value { result ≡ old +ℤ weight *ℤ value }
    ensures within { (most : ℕ) → unsigned_abs old ≤ most → unsigned_abs result ≤ most + 2 ^ 34 }
{
    old + weight * value
}

// A cell with a number added by weights.
#[inline(always)]
fn next_cell(old: Cell, weights: Weights, value: i64) -> Cell
    requires within { IsWithin (2 ^ 62 + 2 ^ 61) old }
    requires weights { IsWeight weights.re × IsWeight weights.im }
    requires value { unsigned_abs value ≤ 2 ^ 33 }
    ensures re { result.re ≡ old.re +ℤ weights.re *ℤ value }
    ensures im { result.im ≡ old.im +ℤ weights.im *ℤ value }
    ensures count { result.count ≡ old.count }
    ensures within { (most : ℕ) → IsWithin most old → IsWithin (most + 2 ^ 34) result }
{
    Cell {
        re: grown(old.re, weights.re, value),
        im: grown(old.im, weights.im, value),
        count: old.count,
    }
}

/// Adds to each cell the sum of the products of a's numbers with b's, each as many places on as the cell's number, by weights.
/// `greatest` is what a byte is at most: 12 or less is faster. A block of at most 4,096 numbers of a stays in the near cache from
/// lag to lag. b has a number for each of a's at each lag, and one more. `sums` has a place for each cell, and is overwritten.
pub fn add_products(
    a: &Stream,
    b: &Stream,
    greatest: u8,
    weights: Weights,
    sums: &mut [u32],
    cells: &mut [Cell],
)
    requires biases { (a.now.bias ≤ 30) × (b.now.bias ≤ 30) }
    requires greatest { greatest ≤ 60 }
    requires a { AreAtMost greatest a.now.bytes.now }
    requires b { AreAtMost greatest b.now.bytes.now }
    requires size { length a.now.bytes.now ≤ 4096 }
    requires room { length a.now.bytes.now + length cells.old ≤ length b.now.bytes.now }
    requires work { length sums.old ≡ length cells.old }
    requires weights { IsWeight weights.re × IsWeight weights.im }
    requires within { AreWithin (2 ^ 62 + 2 ^ 61) cells.old }
    ensures len { length cells.new ≡ length cells.old }
    ensures work { length sums.new ≡ length sums.old }
    ensures added { (x y : ℕ → ℤ) → IsBiased a.now.bias x (length a.now.bytes.now) a.now.bytes.now → IsBiased b.now.bias y (length b.now.bytes.now) b.now.bytes.now
        → (i : ℕ) → i < length cells.old → IsAdded weights x y i (length a.now.bytes.now) (slice_index_or cells.old i no_cell) (slice_index_or cells.new i no_cell) }
    ensures within { (most : ℕ) → AreWithin most cells.old → AreWithin (most + 2 ^ 34) cells.new }
{
    let count = a.bytes.len();
    lag_sums(greatest, a.bytes, b.bytes, sums);
    let biases = bias_products(a.bias, b.bias, count);
    let first = scaled(b.bias, byte_sum(a.bytes, count));
    let mut sliding = byte_sum(b.bytes, count);
    for i in 0..cells.len() {
        let old = cells[i];
        let more = u64::from(sums[i]) + biases;
        let less = first + scaled(a.bias, sliding);
        cells[i] = next_cell(old, weights, difference(more, less));
        sliding = next_window(sliding, b.bytes, i, count);
    }
}
