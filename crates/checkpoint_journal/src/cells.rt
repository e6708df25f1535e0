//! The bytes of cells.
ghost use Rattle.std.specs.Prelude.{◌≡◌, ◌+◌, ◌≤◌, length};
ghost use Rattle.checkpoint_journal.specs.Cells.{cell_from};

use byteorder::{ByteOrder, LittleEndian};
use corr_model::Cell;

// Reads the cell whose numbers stand from a place on.
pub(crate) fn read_cell(bytes: &[u8], at: usize) -> Cell
    requires { at + 24 ≤ length bytes.now }
    ensures { result ≡ cell_from bytes.now at }
{
    Cell {
        re: LittleEndian::read_i64(&bytes[at..]),
        im: LittleEndian::read_i64(&bytes[at + 8..]),
        count: LittleEndian::read_u64(&bytes[at + 16..]),
    }
}
