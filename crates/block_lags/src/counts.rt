//! How many pairs of values are there at each lag.
ghost use Rattle.std.specs.Prelude.{◌≡◌, ◌<◌, ◌≤◌, ◌+◌, ◌^◌, ℕ, length, slice_index, slice_index_or};
ghost use Rattle.byte_sums.specs.Sums.{AreAtMost, lag_sum, nat_sum};
ghost use Rattle.byte_lags.specs.Streams.{AreWithin, IsWithin};
ghost use Rattle.corr_model.specs.Cell.{no_cell};
ghost use Rattle.byte_streams.specs.Rows.{row_len, row_value};
ghost use Rattle.block_lags.specs.{Cells.{lag_cell}, Counts.{IsCounted}};

use crate::turning::BLOCK;
use crate::uniform::are_all;
use byte_streams::Row;
use byte_sums::lag_sums;
use corr_model::Cell;

// The most values of a second row: a block's at all lags.
const WIDE: usize = 5120;

// A cell with so many pairs more.
#[inline(always)]
fn counted(old: Cell, pairs: u32) -> Cell
    requires within { old.count ≤ 2 ^ 62 + 2 ^ 61 }
    ensures counted { IsCounted pairs old result }
    ensures within { (most : ℕ) → IsWithin most old → IsWithin (most + 2 ^ 34) result }
{
    Cell {
        re: old.re,
        im: old.im,
        count: old.count + u64::from(pairs),
    }
}

// Sets each place to a number.
fn fill(sums: &mut [u32], number: u32)
    ensures len { length sums.new ≡ length sums.old }
    ensures numbers { (i : ℕ) → i < length sums.old → slice_index sums.new i ≡ number }
{
    for i in 0..sums.len() {
        sums[i] = number;
    }
}

// Sets each place to the number of pairs at its lag. A byte is 1 where a value is there, and 0 where none is.
fn sum_theres(first: &[u8], second: &[u8], sums: &mut [u32])
    requires first { AreAtMost 1 first.now }
    requires second { AreAtMost 1 second.now }
    requires size { length first.now ≤ BLOCK }
    requires room { length first.now + length sums.old ≤ length second.now }
    ensures len { length sums.new ≡ length sums.old }
    ensures counts { (i : ℕ) → i < length sums.old → slice_index sums.new i ≡ lag_sum first.now second.now i (length first.now) }
{
    if are_all(first, 1) && are_all(second, 1) {
        fill(sums, first.len() as u32);
    } else {
        lag_sums(1, first, second, sums);
    }
}

// The same where the values of the first row are all there.
fn sum_second(count: usize, second: &[u8], sums: &mut [u32])
    requires size { count ≤ BLOCK }
    requires second { AreAtMost 1 second.now }
    requires room { count + length sums.old ≤ length second.now }
    ensures len { length sums.new ≡ length sums.old }
    ensures counts { (i : ℕ) → i < length sums.old → slice_index sums.new i ≡ nat_sum (λ k. slice_index second.now (i + k)) count }
{
    let all = [1; BLOCK];
    sum_theres(&all[..count], second, sums);
}

// The same where the values of the second row are all there.
fn sum_first(first: &[u8], count: usize, sums: &mut [u32])
    requires first { AreAtMost 1 first.now }
    requires size { length first.now ≤ BLOCK }
    requires wide { count ≤ WIDE }
    requires room { length first.now + length sums.old ≤ count }
    ensures len { length sums.new ≡ length sums.old }
    ensures counts { (i : ℕ) → i < length sums.old → slice_index sums.new i ≡ nat_sum (slice_index first.now) (length first.now) }
{
    let all = [1; WIDE];
    sum_theres(first, &all[..count], sums);
}

// Sets each place to the number of pairs at its lag.
fn pair_counts(first: &Row, second: &Row, sums: &mut [u32])
    requires size { row_len first.now ≤ BLOCK }
    requires wide { row_len second.now ≤ WIDE }
    requires room { row_len first.now + length sums.old ≤ row_len second.now }
    ensures len { length sums.new ≡ length sums.old }
    ensures counts { (i : ℕ) → i < length sums.old
        → slice_index sums.new i ≡ (lag_cell (row_value first.now) (row_value second.now) i (row_len first.now)).count }
{
    match (first, second) {
        (Row::Still(a), Row::Still(_)) => fill(sums, a.level.bytes.len() as u32),
        (Row::Still(a), Row::Turning(t)) => sum_second(a.level.bytes.len(), t.there, sums),
        (Row::Turning(s), Row::Still(b)) => sum_first(s.there, b.level.bytes.len(), sums),
        (Row::Turning(s), Row::Turning(t)) => sum_theres(s.there, t.there, sums),
    }
}

/// Adds to each cell the number of pairs at its lag: places at which there is a value of the first row, and one of the second row as many
/// places on as the cell's number.
pub(crate) fn add_counts(first: &Row, second: &Row, sums: &mut [u32], cells: &mut [Cell])
    requires size { row_len first.now ≤ BLOCK }
    requires wide { row_len second.now ≤ WIDE }
    requires room { row_len first.now + length cells.old ≤ row_len second.now }
    requires work { length sums.old ≡ length cells.old }
    requires within { AreWithin (2 ^ 62 + 2 ^ 61) cells.old }
    ensures len { length cells.new ≡ length cells.old }
    ensures work { length sums.new ≡ length sums.old }
    ensures counted { (i : ℕ) → i < length cells.old
        → IsCounted ((lag_cell (row_value first.now) (row_value second.now) i (row_len first.now)).count) (slice_index_or cells.old i no_cell) (slice_index_or cells.new i no_cell) }
    ensures within { (most : ℕ) → AreWithin most cells.old → AreWithin (most + 2 ^ 34) cells.new }
{
    pair_counts(first, second, sums);
    for i in 0..cells.len() {
        cells[i] = counted(cells[i], sums[i]);
    }
}
