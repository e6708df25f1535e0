//! Frames, and where slots stand.
ghost use Rattle.std.specs.Prelude.{◌≡◌, ◌+ℤ◌, pos};
ghost use Rattle.num_time.specs.Numbers.{epoch_second_of};
ghost use Rattle.vdif_frame.specs.Header.{AreInRange};
ghost use Rattle.frame_index.specs.FrameOrder.{is_earlier};

use num_time::epoch_second;
use vdif_frame::Header;

/// Where a slot stands: the number of its file among the station's, from 0, and the place of its first byte in
/// that file.
#[derive(Clone, Copy, Debug, PartialEq, Eq, PartialOrd, Ord)]
pub struct SlotAt {
    pub file: u32,
    pub at: u64,
}

/// A frame: its second from 1970-01-01 00:00 on, its number in that second, and its thread. Frames are ordered by
/// these, as they stand in most recordings.
#[derive(Clone, Copy, Debug, PartialEq, Eq, PartialOrd, Ord)]
pub struct Frame {
    pub second: i64,
    pub number: u32,
    pub thread: u16,
}

impl Frame {
    /// The frame that a header begins.
    pub fn of(h: &Header) -> Frame
        requires { AreInRange h.now }
        ensures { result ≡ record {
          second = epoch_second_of h.now.epoch +ℤ pos h.now.seconds;
          number = h.now.frame;
          thread = h.now.thread;
        } }
    {
        Frame {
            second: epoch_second(h.epoch) + i64::from(h.seconds),
            number: h.frame,
            thread: h.thread,
        }
    }

    /// Whether it is earlier than another frame of its thread.
    pub fn is_before(&self, other: &Frame) -> bool
        ensures { result ≡ is_earlier self.now other.now }
    {
        self.second < other.second || (self.second == other.second && self.number < other.number)
    }
}
