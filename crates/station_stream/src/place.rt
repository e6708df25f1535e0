//! The frame in which a sample lies.
ghost use Rattle.std.specs.Prelude.{◌≡◌, ◌*◌, ◌<◌, ◌^◌, pos, ◌+ℤ◌, unsigned_abs};
ghost use Rattle.station_stream.specs.{Part.{timing_of}, Place.{frame_place}, FrameSlots.{place_from}};
ghost use Rattle.vdif_frame.specs.Shape.{IsShape, samples_per_frame};

use crate::StationPart;
use vdif_frame::Shape;

/// A frame of a station: its second from 1970-01-01 00:00 on, its number in that second, and the sample of the scan with
/// which it begins.
#[derive(Clone, Copy)]
pub(crate) struct FramePlace {
    pub second: i64,
    pub number: u32,
    pub start: i64,
}

impl FramePlace {
    /// That of the frame in which sample `p` lies.
    pub(crate) fn of(part: &StationPart<'_>, p: i64) -> FramePlace
        requires { unsigned_abs p < 2 ^ 61 }
        ensures { result ≡ frame_place (timing_of part.now) p }
    {
        let rate = i64::from(part.track.rate);
        let size = part.shape.samples_per_frame();
        let within = p.rem_euclid(rate) as u32;
        FramePlace {
            second: part.track.second + p.div_euclid(rate),
            number: within / size,
            start: p - i64::from(within % size),
        }
    }
}

/// The place of the frame that begins `i` frames behind sample `start`.
pub(crate) fn place_from(part: &StationPart<'_>, start: i64, i: usize) -> FramePlace
    requires near { unsigned_abs start < 2 ^ 61 }
    requires near_frame { unsigned_abs (start +ℤ pos (i * samples_per_frame part.now.shape)) < 2 ^ 61 }
    ensures { result ≡ place_from part.now start i }
{
    let size = part.shape.samples_per_frame() as usize;
    FramePlace::of(part, start + (i * size) as i64)
}

/// Bytes of a slot.
pub(crate) fn slot_len(shape: &Shape) -> usize
    ensures value { result ≡ shape.now.frame_bytes }
    ensures invariant { IsShape shape.now }
{
    shape.frame_bytes as usize
}
