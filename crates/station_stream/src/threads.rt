//! The frames of a sweep, by thread.
use crate::room::leave_room;
use crate::sweep::Sweep;
use crate::thread_frames::ThreadFrames;
use crate::{StationPart, StreamFault};
use dev_traits::Shelf;
use frame_index::Index;
use std::alloc::Global;

/// The threads whose frames a sweep has asked for, and for each, at the same place, the frames.
#[derive(Drop)]
pub(crate) struct Threads {
    pub sweep: Sweep,
    pub numbers: Vec<u16>,
    pub frames: Vec<ThreadFrames>,
}

impl Threads {
    ghost use Rattle.std.specs.Prelude.{◌≡◌, ◌<◌, ℕ, Option, OnOk, length, slice_index};
    ghost use Rattle.std.specs.List.{Contains};
    ghost use Rattle.dev_traits.specs.Told.{WhereTold};
    ghost use Rattle.frame_index.specs.Recording.{Shelved};
    ghost use Rattle.station_stream.specs.{declared.part.StationPart.{StationPart}, Part.{IsIndexed}, Threads.{AreThreads}, Faults.{CountsReads}};

    /// Those of no thread yet.
    pub(crate) fn new(alloc: Global, sweep: Sweep) -> Threads
        ensures sweep { result.sweep ≡ sweep }
        ensures none { (told : Option Shelved) (part : StationPart) → AreThreads told part result }
    {
        Threads {
            sweep,
            numbers: Vec::new(alloc),
            frames: Vec::new(alloc),
        }
    }

    /// Reads the frames of a thread, where they are not there yet.
    pub(crate) fn add<F: Shelf>(
        &mut self,
        alloc: Global,
        spare: &mut Vec<Vec<u8>>,
        shelf: &mut F,
        index: &Index,
        part: &StationPart<'_>,
        thread: u16,
    ) -> Result<(), StreamFault>
        requires thread { thread < 1024 }
        requires indexed { WhereTold (F.told shelf.old) (λ told. IsIndexed told part.now index.now) }
        requires threads { AreThreads (F.told shelf.old) part.now self.old }
        ensures same { F.told shelf.new ≡ F.told shelf.old }
        ensures sweep { self.new.sweep ≡ self.old.sweep }
        ensures threads { OnOk result (AreThreads (F.told shelf.old) part.now self.new) }
        ensures there { OnOk result (Contains self.new.numbers.items thread) }
        ensures kept { OnOk result ((number : ℕ) → Contains self.old.numbers.items number → Contains self.new.numbers.items number) }
        ensures counts { CountsReads (F.faults shelf.old) (F.faults shelf.new) result }
    {
        if self.numbers.contains(&thread) {
            return Ok(());
        }
        let (first, last) = (self.sweep.first, self.sweep.last);
        let frames = ThreadFrames::read(alloc, spare, shelf, index, part, thread, first, last)?;
        self.numbers.push(thread)?;
        self.frames.push(frames)?;
        Ok(())
    }

    /// The place of a thread's frames, which are there.
    pub(crate) fn place(&self, thread: u16) -> usize
        requires { Contains self.now.numbers.items thread }
        ensures inside { result < length self.now.numbers.items }
        ensures thread { slice_index self.now.numbers.items result ≡ thread }
    {
        match self.numbers.iter().position(|number| *number == thread) {
            Some(i) => i,
            None => unreachable!(),
        }
    }

    /// Gives the room of the frames to the spare lists.
    pub(crate) fn leave(self, spare: &mut Vec<Vec<u8>>) {
        for frames in self.frames {
            leave_room(spare, frames.bytes);
        }
    }
}
