//! Bodies, read back.
ghost use Rattle.std.specs.Prelude.{◌≡◌, ℕ, List, [], ◌∷◌, ◌++◌, ◌+◌, ◌*◌, ◌≤◌, ◌<◌, ◌^◌, length, take, slice_index, OnOk};
ghost use Rattle.dev_traits.specs.{Fault.{Counts}, Told.{WhereTold}};
ghost use Rattle.checkpoint_journal.specs.{Runs.{Looks}, Cells.{cell_from, cells_at, body_cells}};

use crate::cells::read_cell;
use crate::reader::load;
use corr_model::Cell;
use dev_traits::{Disk, Failed};

/// Reads cells out of the bytes of a body, 24 for each, as many as there are.
pub fn body_cells(bytes: &[u8], out: &mut [Cell])
    requires { length bytes.now ≡ 24 * length out.old }
    ensures { out.new ≡ body_cells bytes.now }
{
    let count = out.len();
    decode(bytes, out, 0, count);
}

// Reads so many cells of a body that begins at a place into the front of `out`, in parts through the buffer.
pub(crate) fn read_front<D: Disk>(
    disk: &mut D,
    at: u64,
    out: &mut [Cell],
    count: usize,
    buffer: &mut [u8],
) -> Result<(), Failed>
    requires places { count ≤ length out.old }
    requires room { at + 24 * count < 2 ^ 64 }
    requires buffer { length buffer.old ≡ 960000 }
    ensures cells { OnOk result
        (WhereTold (D.seen disk.old) (λ image. take count out.new ≡ cells_at image at count)) }
    ensures looks { Looks D.seen D.moment D.may_leave disk.old disk.new }
    ensures stays { D.stays disk.old disk.new }
    ensures counts { Counts (D.faults disk.old) (D.faults disk.new) result }
{
    read_body(disk, at, &mut out[..count], buffer)
}

// Reads the cells of a body that begins at a place, in parts through the buffer.
pub(crate) fn read_body<D: Disk>(
    disk: &mut D,
    at: u64,
    out: &mut [Cell],
    buffer: &mut [u8],
) -> Result<(), Failed>
    requires room { at + 24 * length out.old < 2 ^ 64 }
    requires buffer { length buffer.old ≡ 960000 }
    ensures cells { OnOk result
        (WhereTold (D.seen disk.old) (λ image. out.new ≡ cells_at image at (length out.old))) }
    ensures looks { Looks D.seen D.moment D.may_leave disk.old disk.new }
    ensures stays { D.stays disk.old disk.new }
    ensures counts { Counts (D.faults disk.old) (D.faults disk.new) result }
{
    let mut done = 0;
    while done < out.len() {
        let part = (out.len() - done).min(40_000);
        read_part(disk, at, out, done, part, buffer)?;
        done += part;
    }
    Ok(())
}

// Reads so many more cells of a body, of which the first ones were read.
fn read_part<D: Disk>(
    disk: &mut D,
    body: u64,
    out: &mut [Cell],
    first: usize,
    count: usize,
    buffer: &mut [u8],
) -> Result<(), Failed>
    requires places { first + count ≤ length out.old }
    requires fits { 24 * count ≤ length buffer.old }
    requires room { body + 24 * length out.old < 2 ^ 64 }
    ensures cells { OnOk result (WhereTold (D.seen disk.old)
        (λ image. take first out.old ≡ cells_at image body first
        → take (first + count) out.new ≡ cells_at image body (first + count))) }
    ensures looks { Looks D.seen D.moment D.may_leave disk.old disk.new }
    ensures stays { D.stays disk.old disk.new }
    ensures counts { Counts (D.faults disk.old) (D.faults disk.new) result }
{
    load_front(disk, body + 24 * first as u64, buffer, 24 * count)?;
    decode(buffer, out, first, count);
    Ok(())
}

// Reads so many bytes from a place on into the front of the buffer.
fn load_front<D: Disk>(disk: &mut D, at: u64, buffer: &mut [u8], count: usize) -> Result<(), Failed>
    requires fits { count ≤ length buffer.old }
    ensures bytes { OnOk result
        (WhereTold (D.seen disk.old)
        (λ image. (k : ℕ) → k < count → slice_index buffer.new k ≡ slice_index image (at + k))) }
    ensures looks { Looks D.seen D.moment D.may_leave disk.old disk.new }
    ensures stays { D.stays disk.old disk.new }
    ensures counts { Counts (D.faults disk.old) (D.faults disk.new) result }
{
    load(disk, at, &mut buffer[..count])?;
    Ok(())
}

// Takes so many cells of a body out of the front of the buffer, where these bytes of an image stand.
fn decode(buffer: &[u8], out: &mut [Cell], first: usize, count: usize)
    requires places { first + count ≤ length out.old }
    requires fits { 24 * count ≤ length buffer.now }
    ensures { (image : List ℕ) (body : ℕ)
        → ((k : ℕ) → k < 24 * count → slice_index buffer.now k ≡ slice_index image (body + 24 * first + k))
        → take first out.old ≡ cells_at image body first
        → take (first + count) out.new ≡ cells_at image body (first + count) }
{
    for k in 0..count {
        take_cell(buffer, k, out, first + k);
    }
}

// Takes a cell out of the buffer, behind the first k.
fn take_cell(buffer: &[u8], k: usize, out: &mut [Cell], at: usize)
    requires there { 24 * k + 24 ≤ length buffer.now }
    requires place { at < length out.old }
    ensures { take (at + 1) out.new ≡ take at out.old ++ cell_from buffer.now (24 * k) ∷ [] }
{
    out[at] = read_cell(buffer, 24 * k);
}
