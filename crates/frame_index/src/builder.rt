//! An index on its way.
ghost use Rattle.std.specs.Prelude.{◌≡◌, ◌<◌, ◌+◌, ◌^◌, ◌==◌, if◌then◌else◌, [], ◌∷◌, List, ℕ, None, Some, IfOk, OnOk, MatchResult, length, min};
ghost use Rattle.vdif_frame.specs.{Header.{HeaderFields, fields_of, AreInRange}, Agreement.{first_field}};
ghost use Rattle.frame_index.specs.Orderly.{IsOrderly};

use crate::counts::Counts;
use crate::frame::{Frame, SlotAt};
use crate::latest::LatestFrames;
use crate::slot::slot_header;
use crate::valid::ValidFrames;
use std::alloc::{AllocError, Global};
use vdif_frame::{Field, Header, Shape};

/// What is known of the slots met so far: the frames of the valid ones, the latest frame of each thread, the
/// counts but for the doubled ones, and the first slot's field where none agreed.
#[derive(Drop)]
pub struct Builder {
    pub frames: ValidFrames,
    pub latest: LatestFrames,
    pub counts: Counts,
    pub none_agrees: Option<Field>,
    ghost orderly: { IsOrderly counts },
}

// The field in which the first slot differs, after one more foreign slot.
fn first_field(slots: u64, known: Option<Field>, field: Field) -> Option<Field>
    ensures { result ≡ (if slots == 0 then Some field else known) }
{
    if slots == 0 { Some(field) } else { known }
}

impl Builder {
    ghost use Rattle.vdif_frame.specs.Shape.{ShapeFields};
    ghost use Rattle.frame_index.specs.Building.{Holds, ExtendsByHead, ExtendsByHeader};

    /// No slots met, and room for so many.
    pub fn new(alloc: Global, most: u64) -> Result<Self, AllocError>
        ensures holds { IfOk result (λ builder. (shape : ShapeFields) → Holds shape [] builder) }
        ensures slots { IfOk result (λ builder. builder.counts.slots ≡ 0) }
    {
        Ok(Builder {
            frames: ValidFrames::new(alloc, most)?,
            latest: LatestFrames::new(alloc)?,
            counts: Counts::none(),
            none_agrees: None,
        })
    }

    /// Meets the next slot, of which `head` has the first bytes, 32 or all.
    pub fn meet(&mut self, shape: &Shape, place: SlotAt, head: &[u8]) -> Result<(), AllocError>
        requires room { self.old.counts.slots < 2 ^ 26 }
        requires long { length head.now ≡ min 32 shape.now.frame_bytes }
        ensures extends { OnOk result (ExtendsByHead shape.now self.old self.new place.file place.at head.now) }
        ensures slots { OnOk result (self.new.counts.slots ≡ self.old.counts.slots + 1) }
    {
        match slot_header(shape, head) {
            Ok(header) => self.meet_agreeing(&header, place),
            Err(field) => {
                self.meet_foreign(field);
                Ok(())
            }
        }
    }

    // Meets a slot that does not agree.
    fn meet_foreign(&mut self, field: Field)
        requires room { self.old.counts.slots < 2 ^ 26 }
        ensures extends { (shape : ShapeFields) (h : HeaderFields) (file at : ℕ) → first_field h shape ≡ Some field
            → ExtendsByHeader shape self.old self.new file at h }
        ensures slots { self.new.counts.slots ≡ self.old.counts.slots + 1 }
    {
        self.none_agrees = first_field(self.counts.slots, self.none_agrees, field);
        self.counts = self.counts.with_foreign();
    }

    // Meets one that agrees.
    fn meet_agreeing(&mut self, h: &Header, place: SlotAt) -> Result<(), AllocError>
        requires room { self.old.counts.slots < 2 ^ 26 }
        requires range { AreInRange h.now }
        ensures extends { OnOk result ((shape : ShapeFields) → first_field h.now shape ≡ None
            → ExtendsByHeader shape self.old self.new place.file place.at h.now) }
        ensures slots { OnOk result (self.new.counts.slots ≡ self.old.counts.slots + 1) }
    {
        let frame = Frame::of(h);
        self.frames.keep_valid(h.invalid, frame, place)?;
        let late = self.latest.meet(frame);
        self.counts = self.counts.with_agreeing(h.invalid, late);
        self.none_agrees = None;
        Ok(())
    }
}
