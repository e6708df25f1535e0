//! A slot, read whole.
ghost use Rattle.std.specs.Prelude.{◌≡◌, ◌≤◌, ◌<◌, ◌+◌, ◌^◌, ◌↔◌, IsTrue, length, slice_get, IfOk};
ghost use Rattle.std.specs.{Option.{ForSome}, Str.{IsUtf8}};
ghost use Rattle.dev_traits.specs.{Fault.{Counts}, Files.{bytes_of}, Told.{WhereTold}};
ghost use Rattle.frame_index.specs.Recording.{AreOnShelf, bytes_on};
ghost use Rattle.shelf_stretch.specs.Stretch.{stretch};
ghost use Rattle.station_stream.specs.Standing.{StandsAt, bytes_at};

use dev_traits::{Failed, Shelf};
use frame_index::{FileRef, SlotAt};
use shelf_stretch::read_stretch;

// Whether a file has `len` bytes from byte `at` on.
fn reaches(file: &FileRef, at: u64, len: usize) -> bool
    ensures whole { IsTrue result ↔ (at + len ≤ file.now.size) }
    ensures fits { IsTrue result → at + len < 2 ^ 64 }
{
    let size = file.size;
    match at.checked_add(len as u64) {
        Some(end) => end <= size,
        None => false,
    }
}

/// Fills `slot` with the bytes from a place on, those that the shelf does not give being zero, and answers whether the
/// files reach so far.
pub(crate) fn read_slot<F: Shelf>(
    shelf: &mut F,
    files: &[FileRef],
    at: SlotAt,
    slot: &mut [u8],
) -> Result<bool, Failed>
    ensures same { F.told shelf.new ≡ F.told shelf.old }
    ensures read { IfOk result (λ there. WhereTold (F.told shelf.old) (λ told. AreOnShelf files.now told
        → StandsAt (bytes_on told files.now) at (length slot.old)
        → IsTrue there × (slot.new ≡ bytes_at (bytes_on told files.now) at (length slot.old)))) }
    ensures stretch { IfOk result (λ there. IsTrue there → WhereTold (F.told shelf.old) (λ told. ForSome (slice_get files.now at.file) (λ file. IsUtf8 file.name
        → slot.new ≡ stretch at.at (length slot.old) (bytes_of (told file.name))))) }
    ensures counts { Counts (F.faults shelf.old) (F.faults shelf.new) result }
{
    let Some(file) = files.get(at.file as usize) else {
        return Ok(false);
    };
    if !reaches(file, at.at, slot.len()) {
        return Ok(false);
    }
    read_stretch(shelf, file.name.bytes(), at.at, slot)?;
    Ok(true)
}
