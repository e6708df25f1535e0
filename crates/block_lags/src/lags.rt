//! All lags of a block.
ghost use Rattle.std.specs.Prelude.{◌≡◌, ◌<◌, ◌≤◌, ◌+◌, ◌^◌, ℕ, ℤ, pos, ◌+ℤ◌, true, None, length, slice_index_or};
ghost use Rattle.corr_model.specs.{declared.cell.Pair.{Pair}, Cell.{Samples, cell_in, no_cell}};
ghost use Rattle.byte_lags.specs.Streams.{AreWithin};
ghost use Rattle.byte_streams.specs.Rows.{row_len, row_value};
ghost use Rattle.block_lags.specs.{Cells.{IsGrown, lag_cell}, Scans.{AreRows}};

use crate::counts::add_counts;
use crate::pairs::add_pairs;
use crate::uniform::are_all;
use byte_streams::Row;
use corr_model::Cell;

// Whether a row has no value.
fn is_empty(row: &Row) -> bool
    ensures { result ≡ true → (k : ℕ) → k < row_len row.now → row_value row.now k ≡ None }
{
    match row {
        Row::Turning(streams) => are_all(streams.there, 0),
        Row::Still(levels) => levels.level.bytes.is_empty(),
    }
}

/// Adds to each cell the pairs of a block of at most 4,096 values and the second values, at most 5,120, these as many places on as the
/// cell's number.
/// The second row begins where the first lag has the first sample's pair, and goes on to the last sample's pair at the last lag, and
/// one place further; where there is no sample, as outside a scan, it has no value. A row without a value costs nothing. `sums` has a place for each cell, and `numbers`
/// one for each of the second values; both are overwritten.
pub fn add_lags(first: &Row, second: &Row, numbers: &mut [u8], sums: &mut [u32], cells: &mut [Cell])
    requires size { row_len first.now ≤ 4096 }
    requires room { row_len first.now + length cells.old ≤ row_len second.now }
    requires wide { row_len second.now ≤ 5120 }
    requires numbers { row_len second.now ≤ length numbers.old }
    requires work { length sums.old ≡ length cells.old }
    requires within { AreWithin (2 ^ 62) cells.old }
    ensures len { length cells.new ≡ length cells.old }
    ensures grown { (i : ℕ) → i < length cells.old
        → IsGrown (lag_cell (row_value first.now) (row_value second.now) i (row_len first.now)) (slice_index_or cells.old i no_cell) (slice_index_or cells.new i no_cell) }
    ensures scan { (z : Samples) (pair : Pair) (samples from : ℕ) (least : ℤ) → AreRows z pair samples from least first.now second.now → (i : ℕ) → i < length cells.old
        → IsGrown (cell_in z pair samples (least +ℤ pos i) from (from + row_len first.now)) (slice_index_or cells.old i no_cell) (slice_index_or cells.new i no_cell) }
{
    if is_empty(first) {
        return;
    }
    if is_empty(second) {
        return;
    }
    add_pairs(first, second, &mut numbers[..second.len()], sums, cells);
    add_counts(first, second, sums, cells);
}
