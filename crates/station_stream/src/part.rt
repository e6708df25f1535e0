//! A station in a scan.
ghost use Rattle.station_stream.specs.Ranges.{IsPart};

use crate::StationChan;
use delay_track::Track;
use frame_index::FileRef;
use vdif_frame::Shape;

/// One station in one scan: its files, the shape of its frames, its delays through the scan, its part of the scan, the
/// samples from `from` up to, not including, `to`, and its channels, None where it lacks one.
#[derive(Clone, Copy)]
pub struct StationPart<'a> {
    pub files: &'a [FileRef],
    pub shape: Shape,
    pub track: Track<'a>,
    pub from: u64,
    pub to: u64,
    pub chans: &'a [Option<StationChan>],
    pub ghost sound: { IsPart shape track from to chans.now },
}
