//! Sweeps of a scan.
ghost use Rattle.std.specs.Prelude.{◌<◌, ◌^◌, ◌↔◌, ◌≤ℤ◌, ◌+ℤ◌, pos, unsigned_abs, IsTrue};

use crate::StationPart;

/// A stretch of a scan whose recorded samples lie close together: the samples from `from` up to, not including, `to`, and those
/// of the recording from `first` up to, not including, `last`, among which theirs are.
#[derive(Clone, Copy)]
pub(crate) struct Sweep {
    pub from: u64,
    pub to: u64,
    pub first: i64,
    pub last: i64,
    ghost order: { first ≤ℤ last },
    ghost near_first: { unsigned_abs first < 2 ^ 60 },
    ghost near_last: { unsigned_abs last < 2 ^ 60 },
}

// Whether so many samples as a frame has, or more, lie from one's end up to another's begin.
fn far(end: i64, begin: i64, frame: u32) -> bool
    requires near_end { unsigned_abs end < 2 ^ 60 }
    requires near_begin { unsigned_abs begin < 2 ^ 60 }
    ensures { IsTrue result ↔ ((end +ℤ pos frame) ≤ℤ begin) }
{
    begin - end >= i64::from(frame)
}

impl Sweep {
    ghost use Rattle.std.specs.Prelude.{◌≤◌};
    ghost use Rattle.station_stream.specs.Sweep.{IsSweep};

    /// The longest sweep from sample `from` on and before `to`. It goes on over recorded samples that the delay skips, and
    /// ends where they are as many as a frame has, so that each frame from its first sample to its last one holds some of it.
    pub(crate) fn of(part: &StationPart<'_>, from: u64, to: u64) -> Sweep
        requires order { from < to }
        requires inside { to ≤ part.now.track.samples }
        ensures { IsSweep part.now.track from to result }
    {
        let mut end = from;
        let mut first = from as i64 + part.track.whole(from);
        let mut last = first;
        let frame = part.shape.samples_per_frame();
        let mut runs = part.track.runs(from, to);
        while let Some(run) = runs.next() {
            let whole = part.track.whole(run.from);
            let (begins, ends) = (run.from as i64 + whole, run.to as i64 + whole);
            if far(last, begins, frame) || far(ends, first, frame) {
                break;
            }
            end = run.to;
            first = first.min(begins);
            last = last.max(ends);
        }
        Sweep {
            from,
            to: end,
            first,
            last,
        }
    }
}
