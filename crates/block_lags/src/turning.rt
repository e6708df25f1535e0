//! The products of two rows of complex values, by three products of real ones (Gauss).
ghost use Rattle.std.specs.Prelude.{◌≡◌, ◌<◌, ◌≤◌, ◌+◌, ◌*◌, ◌^◌, ℕ, length, slice_index_or};
ghost use Rattle.byte_lags.specs.Streams.{AreWithin};
ghost use Rattle.corr_model.specs.Cell.{no_cell};
ghost use Rattle.byte_streams.specs.Streams.{value_in};
ghost use Rattle.block_lags.specs.Cells.{HasProducts, lag_cell};

use byte_lags::{Stream, Weights, add_products};
use byte_streams::{Streams, component_differences, component_sums};
use corr_model::Cell;

/// The samples of a block.
pub(crate) const BLOCK: usize = 4096;

/// Adds to each cell the products of the values of a block and those of the second row, as many places on as the cell's number.
pub(crate) fn add_turning(
    first: &Streams,
    second: &Streams,
    greatest: u8,
    numbers: &mut [u8],
    sums: &mut [u32],
    cells: &mut [Cell],
)
    requires greatest { greatest ≤ 60 }
    requires first { 4 * first.now.bias ≤ greatest }
    requires second { 4 * second.now.bias ≤ greatest }
    requires size { length first.now.there.now ≤ BLOCK }
    requires room { length first.now.there.now + length cells.old ≤ length second.now.there.now }
    requires numbers { length numbers.old ≡ length second.now.there.now }
    requires work { length sums.old ≡ length cells.old }
    requires within { AreWithin (2 ^ 62 + 2 ^ 60) cells.old }
    ensures len { length cells.new ≡ length cells.old }
    ensures work { length sums.new ≡ length sums.old }
    ensures numbers { length numbers.new ≡ length numbers.old }
    ensures products { (i : ℕ) → i < length cells.old
        → HasProducts (lag_cell (value_in first.now) (value_in second.now) i (length first.now.there.now)) (slice_index_or cells.old i no_cell) (slice_index_or cells.new i no_cell) }
    ensures within { (most : ℕ) → AreWithin most cells.old → AreWithin (most + 3 * 2 ^ 34) cells.new }
{
    let mut space = [0; BLOCK];
    let mine = &mut space[..first.there.len()];
    component_differences(second, numbers);
    add_products(
        &first.reals(),
        &Stream {
            bytes: numbers,
            bias: 2 * second.bias,
        },
        greatest,
        Weights { re: 1, im: 1 },
        sums,
        cells,
    );
    component_differences(first, mine);
    add_products(
        &Stream {
            bytes: mine,
            bias: 2 * first.bias,
        },
        &second.reals(),
        greatest,
        Weights { re: 0, im: -1 },
        sums,
        cells,
    );
    component_sums(first, mine);
    add_products(
        &Stream {
            bytes: mine,
            bias: 2 * first.bias,
        },
        &second.imaginaries(),
        greatest,
        Weights { re: 1, im: 0 },
        sums,
        cells,
    );
}
