//! The products of the values of a block, by as few products of streams as their directions allow.
ghost use Rattle.std.specs.Prelude.{◌≡◌, ◌<◌, ◌≤◌, ◌+◌, ◌*◌, ◌^◌, ℕ, length, slice_index_or};
ghost use Rattle.byte_lags.specs.Streams.{AreWithin};
ghost use Rattle.corr_model.specs.Cell.{no_cell};
ghost use Rattle.byte_streams.specs.Rows.{row_len, row_value};
ghost use Rattle.block_lags.specs.Cells.{HasProducts, lag_cell};

use crate::still::{add_levels, add_to_level, add_with_level};
use crate::turning::{BLOCK, add_turning};
use byte_streams::Row;
use corr_model::Cell;

// What a sum of two components is at most, of either.
#[inline(always)]
fn greatest(first: u8, second: u8) -> u8
    requires { (first ≤ 15) × (second ≤ 15) }
    ensures small { result ≤ 60 }
    ensures first { 4 * first ≤ result }
    ensures second { 4 * second ≤ result }
{
    4 * first.max(second)
}

/// Adds to each cell the products of the values of a block and those of the second row, as many places on as the cell's number.
pub(crate) fn add_pairs(
    first: &Row,
    second: &Row,
    numbers: &mut [u8],
    sums: &mut [u32],
    cells: &mut [Cell],
)
    requires size { row_len first.now ≤ BLOCK }
    requires room { row_len first.now + length cells.old ≤ row_len second.now }
    requires numbers { length numbers.old ≡ row_len second.now }
    requires work { length sums.old ≡ length cells.old }
    requires within { AreWithin (2 ^ 62 + 2 ^ 60) cells.old }
    ensures len { length cells.new ≡ length cells.old }
    ensures work { length sums.new ≡ length sums.old }
    ensures products { (i : ℕ) → i < length cells.old
        → HasProducts (lag_cell (row_value first.now) (row_value second.now) i (row_len first.now)) (slice_index_or cells.old i no_cell) (slice_index_or cells.new i no_cell) }
    ensures within { (most : ℕ) → AreWithin most cells.old → AreWithin (most + 3 * 2 ^ 34) cells.new }
{
    let greatest = greatest(first.bias(), second.bias());
    match (first, second) {
        (Row::Still(a), Row::Still(b)) => add_levels(a, b, greatest, sums, cells),
        (Row::Still(a), Row::Turning(t)) => add_with_level(a, t, greatest, sums, cells),
        (Row::Turning(s), Row::Still(b)) => add_to_level(s, b, greatest, sums, cells),
        (Row::Turning(s), Row::Turning(t)) => add_turning(s, t, greatest, numbers, sums, cells),
    }
}
