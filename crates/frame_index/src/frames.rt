//! The first slot of each frame.
ghost use Rattle.std.specs.Prelude.{◌≡◌};
ghost use Rattle.std.specs.{List.Sorted.{IsStrictlySortedBy}, Map.{keys_of}};
ghost use Rattle.std.proofs.Props.{props};
ghost use Rattle.frame_index.specs.FrameOrder.{frame_cmp, place_under};

use crate::frame::{Frame, SlotAt};

/// Places by frame, in the frames' order.
#[derive(Drop)]
pub struct FramePlaces {
    pub entries: Vec<(Frame, SlotAt)>,
    ghost sorted: { IsStrictlySortedBy frame_cmp (keys_of entries.items) } by { Prim.hlevel props },
}

impl FramePlaces {
    /// The place under a frame.
    pub fn find(&self, frame: &Frame) -> Option<SlotAt>
        ensures { result ≡ place_under self.now.entries.items frame.now }
    {
        match self.entries.binary_search_by_key(frame, |entry| entry.0) {
            Ok(i) => Some(self.entries[i].1),
            Err(_) => None,
        }
    }
}
