//! The frames of a job's stations.
ghost use Rattle.std.specs.Prelude.{◌≡◌, ◌<◌, ◌%◌, ◌==◌, not};
ghost use Rattle.std.specs.List.{position};
ghost use Rattle.vdif_frame.specs.Shape.{samples_per_frame};
ghost use Rattle.job_text.specs.{Job.{StationFields}, Ranges.{shape_of}};

use job_text::Station;
use vdif_frame::Shape;

/// The shape of a station's frames, of which so many come in a second.
pub(crate) fn shape_of(station: &Station, frames: u32) -> Shape
    requires { 0 < frames }
    ensures { result ≡ shape_of frames station.now }
{
    Shape {
        legacy: station.legacy,
        frame_bytes: station.frame_bytes,
        chans_log2: station.chans_log2,
        bits: station.bits,
        station: station.id,
        frames,
    }
}

/// The complete samples in a frame of a station.
pub(crate) fn samples_per_frame(station: &Station) -> u32
    ensures value { result ≡ samples_per_frame (shape_of 0 station.now) }
    ensures some { 0 < result }
{
    shape_of(station, 1).samples_per_frame()
}

// Whether the frames of a station do not go into a second.
fn is_broken(station: &Station, rate: u32) -> bool
    ensures { result ≡ not ((rate % samples_per_frame (shape_of 0 station.now)) == 0) }
{
    rate % samples_per_frame(station) != 0
}

/// The first station whose frames do not go into a second.
pub(crate) fn frame_rate(stations: &[Station], rate: u32) -> Option<usize>
    ensures { result ≡ position (λ (s : StationFields). not ((rate % samples_per_frame (shape_of 0 s)) == 0)) stations.now }
{
    stations.iter().position(|station| is_broken(station, rate))
}
