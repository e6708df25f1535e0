//! The frames of valid slots.
ghost use Rattle.std.specs.Prelude.{◌≡◌, ◌+◌, [], ◌∷◌, ◌++◌, List, IfOk, OnOk, if◌then◌else◌, length};
ghost use Rattle.frame_index.specs.{FrameOrder.{place_under, AreInFileOrder, frames_in}, declared.frame.Frame.{Frame}};

use crate::frame::{Frame, SlotAt};
use crate::frames::FramePlaces;
use std::alloc::{AllocError, Global};

/// The frames of the valid slots met so far with the slots' places, in the slots' order. One takes 32 bytes.
#[derive(Drop)]
pub struct ValidFrames {
    pub entries: Vec<(Frame, SlotAt)>,
}

impl ValidFrames {
    /// None yet, and room for so many.
    pub fn new(alloc: Global, most: u64) -> Result<Self, AllocError>
        ensures { IfOk result (λ frames. frames.entries.items ≡ []) }
    {
        let entries = Vec::with_capacity(alloc, most as usize)?;
        Ok(ValidFrames { entries })
    }

    /// Takes the frame of one more slot, unless that is marked invalid.
    pub fn keep_valid(
        &mut self,
        invalid: bool,
        frame: Frame,
        place: SlotAt,
    ) -> Result<(), AllocError>
        ensures { OnOk result (self.new.entries.items
            ≡ (if invalid then self.old.entries.items else self.old.entries.items ++ (frame, place) ∷ [])) }
    {
        if invalid {
            return Ok(());
        }
        self.entries.push((frame, place))?;
        Ok(())
    }

    /// The first place of each frame, and how many slots hold a frame that an earlier one holds.
    pub fn first_places(self) -> (FramePlaces, u64)
        ensures first { AreInFileOrder self.entries.items
            → (frame : Frame) → place_under result.0.entries.items frame ≡ place_under self.entries.items frame }
        ensures doubled { result.1 + frames_in self.entries.items ≡ length self.entries.items }
    {
        let mut entries = self.entries;
        entries.sort_unstable();
        let all = entries.len();
        entries.dedup_by_key(|entry| entry.0);
        let doubled = all - entries.len();
        (FramePlaces { entries }, doubled as u64)
    }
}
