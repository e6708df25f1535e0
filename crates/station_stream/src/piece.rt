//! The values of a channel, piece by piece, out of the frames of a thread.
ghost use Rattle.std.specs.Prelude.{◌≡◌, ◌+◌, ◌<◌, ◌≤◌, ℕ, length, slice_index};
ghost use Rattle.station_stream.specs.{Ranges.{IsChanOf}, Sweep.{LieIn}, ThreadFrames.{Reach, value_in_frames}};
ghost use Rattle.value_codes.specs.Codes.{value_of};

use crate::levels::fill_levels;
use crate::sweep::Sweep;
use crate::thread_frames::ThreadFrames;
use crate::turned::turn_levels;
use crate::{StationChan, StationPart};

// Samples of a piece. Its bytes stay in the processor's cache from when the levels are taken until they are turned.
const PIECE: usize = 32_768;

// Sets `codes` to the values of a channel at the samples of a sweep from `from` on.
fn fill_piece(
    frames: &ThreadFrames,
    part: &StationPart<'_>,
    chan: &StationChan,
    sweep: Sweep,
    from: u64,
    codes: &mut [u8],
)
    requires chan { IsChanOf part.now.shape chan.now }
    requires inside { from + length codes.old ≤ part.now.track.samples }
    requires reach { Reach part.now.shape sweep.first sweep.last frames.now }
    requires lie { LieIn part.now.track from (from + length codes.old) sweep.first sweep.last }
    ensures { (k : ℕ) → k < length codes.old
        → value_of (slice_index codes.new k) ≡ value_in_frames part.now chan.now frames.now (from + k) }
{
    let (first, last) = (sweep.first, sweep.last);
    fill_levels(frames, part, chan.index, first, last, from, codes);
    turn_levels(part, chan, from, codes);
}

/// Sets `codes` to the values of a channel at the samples of a sweep from `from` on. The frames hold the samples of the sweep.
pub(crate) fn fill_values(
    frames: &ThreadFrames,
    part: &StationPart<'_>,
    chan: &StationChan,
    sweep: Sweep,
    from: u64,
    codes: &mut [u8],
)
    requires chan { IsChanOf part.now.shape chan.now }
    requires inside { from + length codes.old ≤ part.now.track.samples }
    requires reach { Reach part.now.shape sweep.first sweep.last frames.now }
    requires lie { LieIn part.now.track from (from + length codes.old) sweep.first sweep.last }
    ensures { (k : ℕ) → k < length codes.old
        → value_of (slice_index codes.new k) ≡ value_in_frames part.now chan.now frames.now (from + k) }
{
    let mut done = 0;
    while done < codes.len() {
        let count = PIECE.min(codes.len() - done);
        fill_piece(
            frames,
            part,
            chan,
            sweep,
            from + done as u64,
            &mut codes[done..done + count],
        );
        done += count;
    }
}
