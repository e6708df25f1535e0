//! The index.
ghost use Rattle.std.specs.Prelude.{◌≡◌, List, map, IfOk, IfErr, None};
ghost use Rattle.vdif_frame.specs.Shape.{ShapeFields};
ghost use Rattle.corr_model.specs.Slots.{Slot};
ghost use Rattle.frame_index.specs.{Foreign.{foreign_field}, Indexed.{IsIndexOf, place_in}, Building.{Holds}, SlotOrder.{FollowOn}, Faults.{IsFieldFault}};

use crate::builder::Builder;
use crate::counts::Counts;
use crate::fault::IndexFault;
use crate::frame::{Frame, SlotAt};
use crate::frames::FramePlaces;
use std::marker::Model;

/// Where the first slot of each frame of a station stands, and the counts of the station's slots.
#[derive(Drop)]
pub struct Index {
    frames: FramePlaces,
    counts: Counts,
}

impl Model for Index {
    ghost use Rattle.frame_index.specs.Indexed.{IndexFields};

    ghost Value = { IndexFields };

    ghost view = { λ index. record {
      entries = index.frames.entries.items;
      counts = index.counts;
    } };
}

impl Index {
    // The index of the slots that a builder has met.
    pub(crate) fn finish(builder: Builder) -> Result<Index, IndexFault>
        ensures index { IfOk result (λ index. (shape : ShapeFields) (slots : List Slot) → Holds shape slots builder → FollowOn slots → IsIndexOf shape slots index) }
        ensures slots { IfOk result (λ index. index.counts.slots ≡ builder.counts.slots) }
        ensures agrees { IfOk result (λ _. builder.none_agrees ≡ None) }
        ensures foreign { IfErr result (IsFieldFault builder.none_agrees) }
    {
        match builder.none_agrees {
            Some(field) => Err(IndexFault::NoFrameAgrees(field)),
            None => {
                let (frames, doubled) = builder.frames.first_places();
                Ok(Index {
                    frames,
                    counts: builder.counts.with_doubled(doubled),
                })
            }
        }
    }

    /// Where the first slot stands, in the files' order, that agrees with the shape, is not marked invalid and
    /// holds the frame of this thread, second (from 1970-01-01 00:00 on) and number; None where there is none.
    pub fn find(&self, thread: u16, second: i64, frame: u32) -> Option<SlotAt>
        ensures { result ≡ place_in self.now thread second frame }
    {
        self.frames.find(&Frame {
            thread,
            second,
            number: frame,
        })
    }

    /// The counts of the station's slots.
    pub fn counts(&self) -> Counts
        ensures { result ≡ self.now.counts }
    {
        self.counts
    }
}
