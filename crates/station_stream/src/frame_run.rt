//! Frames whose slots follow one another in a file, read at once.
ghost use Rattle.std.specs.Prelude.{◌≡◌, ◌+◌, ◌*◌, ◌<◌, ◌≤◌, ◌^◌, ◌↔◌, IsTrue, ℕ, pos, ◌+ℤ◌, unsigned_abs, length, false, slice_index_or, Some, IfOk};
ghost use Rattle.dev_traits.specs.Told.{WhereTold};
ghost use Rattle.vdif_frame.specs.Shape.{samples_per_frame};
ghost use Rattle.station_stream.specs.{Part.{IsIndexed}, FrameSlots.{AreSlots, IsRun, slot_at}, Faults.{CountsReads}};

use crate::place::{place_from, slot_len};
use crate::slot::read_slot;
use crate::{StationPart, StreamFault};
use dev_traits::Shelf;
use frame_index::{Index, SlotAt};

// The bytes that are read at once, at most.
const AT_ONCE: usize = 1 << 20;

// Where the slot of frame `i` from sample `start` on stands; None where no slot holds it.
fn find_slot(
    index: &Index,
    part: &StationPart<'_>,
    thread: u16,
    start: i64,
    i: usize,
) -> Option<SlotAt>
    requires near { unsigned_abs start < 2 ^ 61 }
    requires near_frame { unsigned_abs (start +ℤ pos (i * samples_per_frame part.now.shape)) < 2 ^ 61 }
    ensures { result ≡ slot_at index.now part.now thread start i }
{
    let place = place_from(part, start, i);
    index.find(thread, place.second, place.number)
}

// Whether the slot that was found stands `ahead` bytes behind a place.
fn stands_behind(found: Option<SlotAt>, at: SlotAt, ahead: u64) -> bool
    ensures { IsTrue result → found ≡ Some (record { file = at.file; at = at.at + ahead }) }
{
    let Some(found) = found else {
        return false;
    };
    if found.file != at.file {
        return false;
    }
    if found.at < at.at {
        return false;
    }
    found.at - at.at == ahead
}

// How many frames from frame `i` on, `most` at most, have slots of `size` bytes that follow one another from a place on.
fn run_len(
    index: &Index,
    part: &StationPart<'_>,
    thread: u16,
    start: i64,
    i: usize,
    at: SlotAt,
    size: usize,
    most: usize,
) -> usize
    requires near { unsigned_abs start < 2 ^ 61 }
    requires near_end { unsigned_abs (start +ℤ pos ((i + most) * samples_per_frame part.now.shape)) < 2 ^ 61 }
    requires inside { i + most < 2 ^ 64 }
    requires fits { most * size < 2 ^ 64 }
    requires some { 1 ≤ most }
    requires found { slot_at index.now part.now thread start i ≡ Some at }
    ensures some { 1 ≤ result }
    ensures most { result ≤ most }
    ensures run { IsRun index.now part.now thread start i at size result }
{
    for n in 1..most {
        let found = find_slot(index, part, thread, start, i + n);
        if !stands_behind(found, at, (n * size) as u64) {
            return n;
        }
    }
    most
}

// Says of `n` frames from frame `i` on whether a slot holds them.
fn mark(there: &mut [bool], i: usize, n: usize, is_there: bool)
    requires { i + n ≤ length there.old }
    ensures before { (k : ℕ) → k < i → slice_index_or there.new k false ≡ slice_index_or there.old k false }
    ensures marked { (k : ℕ) → k < n → slice_index_or there.new (i + k) false ≡ is_there }
{
    for k in 0..n {
        there[i + k] = is_there;
    }
}

/// Reads the slot of frame `i` and those of the frames behind it that follow it in its file, and answers up to which frame,
/// not including it, the slots are read then.
pub(crate) fn read_run<F: Shelf>(
    shelf: &mut F,
    index: &Index,
    part: &StationPart<'_>,
    thread: u16,
    start: i64,
    i: usize,
    there: &mut [bool],
    bytes: &mut [u8],
) -> Result<usize, StreamFault>
    requires near { unsigned_abs start < 2 ^ 61 }
    requires near_end { unsigned_abs (start +ℤ pos (length there.old * samples_per_frame part.now.shape)) < 2 ^ 61 }
    requires room { length bytes.old ≡ length there.old * part.now.shape.frame_bytes }
    requires inside { i < length there.old }
    ensures same { F.told shelf.new ≡ F.told shelf.old }
    ensures further { IfOk result (λ n. i < n) }
    ensures within { IfOk result (λ n. n ≤ length there.old) }
    ensures slots { IfOk result (λ n. WhereTold (F.told shelf.old) (λ told. IsIndexed told part.now index.now
        → AreSlots told part.now thread start i there.old bytes.old → AreSlots told part.now thread start n there.new bytes.new)) }
    ensures counts { CountsReads (F.faults shelf.old) (F.faults shelf.new) result }
{
    let Some(at) = find_slot(index, part, thread, start, i) else {
        there[i] = false;
        return Ok(i + 1);
    };
    let size = slot_len(&part.shape);
    let n = run_len(
        index,
        part,
        thread,
        start,
        i,
        at,
        size,
        (AT_ONCE / size).min(there.len() - i),
    );
    let run = &mut bytes[i * size..i * size + n * size];
    let is_there = read_slot(shelf, part.files, at, run)?;
    mark(there, i, n, is_there);
    Ok(i + n)
}
