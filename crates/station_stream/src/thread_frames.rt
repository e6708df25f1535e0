//! The frames of a thread, read whole.
ghost use Rattle.std.specs.Prelude.{◌≡◌, ◌+◌, ◌*◌, ◌<◌, ◌≤◌, ◌^◌, ℕ, ℤ, pos, ◌+ℤ◌, ◌-ℤ◌, ◌≤ℤ◌, ◌<ℤ◌, unsigned_abs, length, IfOk, OnOk};
ghost use Rattle.dev_traits.specs.Told.{WhereTold};
ghost use Rattle.vdif_frame.specs.Shape.{samples_per_frame};
ghost use Rattle.station_stream.specs.{declared.chan.StationChan.{StationChan}, Ranges.{IsChanOf}, Part.{IsIndexed, chan_sample}, FrameSlots.{AreSlots}, ThreadFrames.{Reach, level_in_frames}};
ghost use Rattle.station_stream.specs.Faults.{CountsReads};

use crate::frame_run::read_run;
use crate::place::{FramePlace, slot_len};
use crate::room::take_room;
use crate::{StationPart, StreamFault};
use dev_traits::Shelf;
use frame_index::Index;
use std::alloc::Global;

/// Frames of a thread, one after another: the sample with which the first one begins, whether a slot holds each, and the bytes
/// of the slots, where there is none as many that say nothing.
#[derive(Drop)]
pub(crate) struct ThreadFrames {
    pub start: i64,
    pub there: Vec<bool>,
    pub bytes: Vec<u8>,
}

impl ThreadFrames {
    /// Reads the frames of a thread in which the samples from `first` up to, not including, `last` lie, each once, in the room
    /// of a spare list.
    pub(crate) fn read<F: Shelf>(
        alloc: Global,
        spare: &mut Vec<Vec<u8>>,
        shelf: &mut F,
        index: &Index,
        part: &StationPart<'_>,
        thread: u16,
        first: i64,
        last: i64,
    ) -> Result<ThreadFrames, StreamFault>
        requires thread { thread < 1024 }
        requires order { first ≤ℤ last }
        requires near_first { unsigned_abs first < 2 ^ 60 }
        requires near_last { unsigned_abs last < 2 ^ 60 }
        ensures same { F.told shelf.new ≡ F.told shelf.old }
        ensures reach { IfOk result (Reach part.now.shape first last) }
        ensures levels { IfOk result (λ f. WhereTold (F.told shelf.old) (λ told. IsIndexed told part.now index.now
            → (chan : StationChan) → IsChanOf part.now.shape chan → chan.thread ≡ thread → (p : ℤ) → first ≤ℤ p → p <ℤ last
            → chan_sample told part.now chan p ≡ level_in_frames part.now.shape f chan.index p)) }
        ensures counts { CountsReads (F.faults shelf.old) (F.faults shelf.new) result }
    {
        let start = FramePlace::of(part, first).start;
        let count = frames_up_to(start, last, part.shape.samples_per_frame());
        let Some(size) = count.checked_mul(slot_len(&part.shape)) else {
            return Err(StreamFault::Memory);
        };
        let mut there = vec![in alloc; false; count]?;
        let mut bytes = take_room(alloc, spare, size)?;
        fill(shelf, index, part, thread, start, &mut there, &mut bytes)?;
        Ok(ThreadFrames {
            start,
            there,
            bytes,
        })
    }
}

// How many frames of `size` samples reach from sample `start` up to sample `last`.
fn frames_up_to(start: i64, last: i64, size: u32) -> usize
    requires near_start { unsigned_abs start < 2 ^ 61 }
    requires near_last { unsigned_abs last < 2 ^ 61 }
    requires order { start ≤ℤ last }
    requires some { 0 < size }
    ensures reach { last ≤ℤ (start +ℤ pos (result * size)) }
    ensures least { (start +ℤ pos (result * size)) <ℤ (last +ℤ pos size) }
{
    ((last - start) as usize).div_ceil(size as usize)
}

// Reads the slots of the frames of a thread from sample `start` on, as many as there is room for.
fn fill<F: Shelf>(
    shelf: &mut F,
    index: &Index,
    part: &StationPart<'_>,
    thread: u16,
    start: i64,
    there: &mut [bool],
    bytes: &mut [u8],
) -> Result<(), StreamFault>
    requires near { unsigned_abs start < 2 ^ 61 }
    requires near_end { unsigned_abs (start +ℤ pos (length there.old * samples_per_frame part.now.shape)) < 2 ^ 61 }
    requires room { length bytes.old ≡ length there.old * part.now.shape.frame_bytes }
    ensures same { F.told shelf.new ≡ F.told shelf.old }
    ensures slots { OnOk result (WhereTold (F.told shelf.old) (λ told. IsIndexed told part.now index.now
        → AreSlots told part.now thread start (length there.new) there.new bytes.new)) }
    ensures counts { CountsReads (F.faults shelf.old) (F.faults shelf.new) result }
{
    let mut i = 0;
    while i < there.len() {
        i = read_run(shelf, index, part, thread, start, i, there, bytes)?;
    }
    Ok(())
}
