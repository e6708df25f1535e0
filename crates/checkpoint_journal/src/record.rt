//! The bytes of a record, written in parts through a buffer.
ghost use Rattle.std.specs.Prelude.{◌≡◌, ℕ, ◌++◌, ◌+◌, ◌*◌, ◌≤◌, ◌<◌, ◌^◌, length, take, drop, OnOk, is_some, option_map};
ghost use Rattle.dev_traits.specs.{Fault.{Counts}, Told.{WhereTold}, Moments.{Runs}};
ghost use Rattle.corr_model.specs.Records.{cell_text};
ghost use Rattle.checkpoint_journal.specs.{Cells.{body_text}, Runs.{KeepsFront, put_over}, Staged.{FitsAt}};
ghost use Rattle.journal_image.specs.Image.{range_text};

use atomic_sums::EpochSums;
use byteorder::{ByteOrder, LittleEndian};
use corr_model::Cell;
use dev_traits::{Disk, Failed};
use journal_image::{EpochRange, write_head};
use piece_plan::EpochPlan;

// The bytes of a cell: three numbers of eight.
const CELL: usize = 24;

// Writes a record from a place on: the range of its epoch, and behind it the cells.
pub(crate) fn write_record<D: Disk>(
    disk: &mut D,
    at: u64,
    e: &EpochPlan,
    sums: &EpochSums,
    buffer: &mut [u8],
) -> Result<(), Failed>
    requires fits { FitsAt e.now sums.now.cells at buffer.old }
    requires within { WhereTold (D.seen disk.old) (λ image. at ≤ length image) }
    ensures written { OnOk result
        (D.seen disk.new ≡ option_map (put_over at (range_text e.now ++ body_text sums.now.cells)) (D.seen disk.old)) }
    ensures tells { is_some (D.seen disk.new) ≡ is_some (D.seen disk.old) }
    ensures runs { Runs D.moment D.may_leave (KeepsFront at) disk.old disk.new }
    ensures counts { Counts (D.faults disk.old) (D.faults disk.new) result }
{
    let cells = u64::from(e.cells());
    disk.write_at(at, &range_bytes(e))?;
    write_body(disk, at + 28, sums, cells, buffer)?;
    Ok(())
}

// The bytes of an epoch's range.
fn range_bytes(e: &EpochPlan) -> [u8; 28]
    ensures { result ≡ range_text e.now }
{
    let mut bytes = [0; 28];
    let range = EpochRange {
        scan: e.scan,
        m: e.m,
        from: e.from,
        to: e.to,
    };
    write_head(&mut bytes, &range);
    bytes
}

// Writes a body from a place on, in parts through the buffer.
fn write_body<D: Disk>(
    disk: &mut D,
    at: u64,
    sums: &EpochSums,
    cells: u64,
    buffer: &mut [u8],
) -> Result<(), Failed>
    requires cells { cells ≡ length sums.now.cells }
    requires room { at + 24 * length sums.now.cells + 1 < 2 ^ 63 }
    requires buffer { length buffer.old ≡ 960000 }
    requires within { WhereTold (D.seen disk.old) (λ image. at ≤ length image) }
    ensures written { OnOk result
        (D.seen disk.new ≡ option_map (put_over at (body_text sums.now.cells)) (D.seen disk.old)) }
    ensures tells { is_some (D.seen disk.new) ≡ is_some (D.seen disk.old) }
    ensures runs { (n : ℕ) → n ≤ at → Runs D.moment D.may_leave (KeepsFront n) disk.old disk.new }
    ensures counts { Counts (D.faults disk.old) (D.faults disk.new) result }
{
    let mut done = 0;
    while done < cells {
        let part = (cells - done).min(40_000);
        fill(buffer, sums, done, part as usize);
        disk.write_at(at + 24 * done, &buffer[..24 * part as usize])?;
        done += part;
    }
    Ok(())
}

// Fills the front of the buffer with cells from one on.
fn fill(buffer: &mut [u8], sums: &EpochSums, first: u64, count: usize)
    requires cells { first + count ≤ length sums.now.cells }
    requires short { first + count < 2 ^ 63 }
    requires room { 24 * count ≤ length buffer.old }
    ensures { take (24 * count) buffer.new ≡ body_text (take count (drop first sums.now.cells)) }
{
    for k in 0..count {
        put_cell(buffer, k, sums.cell(first + k as u64));
    }
}

// Writes a cell behind the first k.
fn put_cell(buffer: &mut [u8], k: usize, cell: Cell)
    requires { 24 * k + 24 ≤ length buffer.old }
    ensures { take (24 * k + 24) buffer.new ≡ take (24 * k) buffer.old ++ cell_text cell }
{
    let at = 24 * k;
    buffer[at..at + 24].copy_from_slice(&cell_bytes(cell));
}

// The bytes of a cell.
fn cell_bytes(cell: Cell) -> [u8; CELL]
    ensures { result ≡ cell_text cell }
{
    let mut bytes = [0; CELL];
    LittleEndian::write_i64(&mut bytes, cell.re);
    LittleEndian::write_i64(&mut bytes[8..], cell.im);
    LittleEndian::write_u64(&mut bytes[16..], cell.count);
    bytes
}
