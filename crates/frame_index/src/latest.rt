//! The latest frame of each thread.
ghost use Rattle.std.specs.Prelude.{◌≡◌, ◌<◌, ◌^◌, ◌==◌, ◌&&◌, ◌||◌, false, IfOk, length};
ghost use Rattle.frame_index.specs.{declared.frame.Frame.{Frame}, FrameOrder.{is_earlier}, Passed.{is_passed}};

use crate::frame::Frame;
use std::alloc::{AllocError, Global};

/// The latest frame met of each thread, None where none was met; a header has 10 bits for a thread.
#[derive(Drop)]
pub struct LatestFrames {
    pub last: Vec<Option<Frame>>,
    ghost threads: { length last.items ≡ 1024 },
}

impl LatestFrames {
    /// No frames met.
    pub fn new(alloc: Global) -> Result<Self, AllocError>
        ensures { IfOk result (λ latest. (frame : Frame) → is_passed latest.last.items frame ≡ false) }
    {
        let last = vec![in alloc; None; 1024]?;
        Ok(LatestFrames { last })
    }

    /// Whether a later frame of this one's thread was met.
    pub fn is_passed(&self, frame: &Frame) -> bool
        requires { frame.now.thread < 2 ^ 10 }
        ensures { result ≡ is_passed self.now.last.items frame.now }
    {
        match self.last[usize::from(frame.thread)] {
            None => false,
            Some(latest) => frame.is_before(&latest),
        }
    }

    /// Meets a frame; whether a later one of its thread was met before.
    pub fn meet(&mut self, frame: Frame) -> bool
        requires { frame.thread < 2 ^ 10 }
        ensures late { result ≡ is_passed self.old.last.items frame }
        ensures met { (other : Frame) → is_passed self.new.last.items other
            ≡ (is_passed self.old.last.items other || ((other.thread == frame.thread) && is_earlier other frame)) }
    {
        let late = self.is_passed(&frame);
        if !late {
            self.last[usize::from(frame.thread)] = Some(frame);
        }
        late
    }
}
