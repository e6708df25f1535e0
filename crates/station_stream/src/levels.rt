//! The levels of a channel, out of the frames of a thread.
ghost use Rattle.std.specs.Prelude.{◌≡◌, ◌+◌, ◌*◌, ◌/◌, ◌%◌, ◌^◌, ◌<◌, ◌≤◌, ◌+ℤ◌, ◌≤ℤ◌, ◌<ℤ◌, ℕ, pos, true, false, Some, length, slice_index, slice_index_or};
ghost use Rattle.value_codes.specs.Taken.{IsTaken};
ghost use Rattle.vdif_frame.specs.Shape.{chans_of, samples_per_frame};
ghost use Rattle.corr_model.specs.Delay.{whole_at};
ghost use Rattle.delay_track.specs.Track.{model_of};
ghost use Rattle.station_stream.specs.ThreadFrames.{Reach, level_in_frame, level_in_frames};

use crate::StationPart;
use crate::samples::take_slot;
use crate::thread_frames::ThreadFrames;
use vdif_frame::Shape;

// Sets `codes` to the levels of a channel from sample `at` of frame `i` on.
fn fill_from_frame(
    frames: &ThreadFrames,
    shape: &Shape,
    index: u32,
    i: usize,
    at: usize,
    codes: &mut [u8],
)
    requires index { index < chans_of shape.now }
    requires bytes { length frames.now.bytes.items ≡ length frames.now.there.items * shape.now.frame_bytes }
    requires inside { i < length frames.now.there.items }
    requires room { at + length codes.old ≤ samples_per_frame shape.now }
    ensures { (k : ℕ) → k < length codes.old
        → IsTaken (slice_index codes.new k) (level_in_frame shape.now frames.now index i (at + k)) }
{
    if frames.there[i] {
        let size = shape.frame_bytes as usize;
        let slot = &frames.bytes[i * size..i * size + size];
        take_slot(shape, slot, index, at, codes);
    } else {
        codes.fill(0);
    }
}

// Sets `codes` to the levels of a channel from sample `past` of the frames on, counted through all of them.
fn fill_run(frames: &ThreadFrames, shape: &Shape, index: u32, past: u64, codes: &mut [u8])
    requires index { index < chans_of shape.now }
    requires bytes { length frames.now.bytes.items ≡ length frames.now.there.items * shape.now.frame_bytes }
    requires inside { past + length codes.old ≤ length frames.now.there.items * samples_per_frame shape.now }
    requires near { past + length codes.old < 2 ^ 64 }
    ensures { (k : ℕ) → k < length codes.old → IsTaken (slice_index codes.new k)
        (level_in_frame shape.now frames.now index ((past + k) / samples_per_frame shape.now) ((past + k) % samples_per_frame shape.now)) }
{
    let size = shape.samples_per_frame() as usize;
    let mut done = 0;
    while done < codes.len() {
        let next = past as usize + done;
        let at = next % size;
        let count = (size - at).min(codes.len() - done);
        fill_from_frame(
            frames,
            shape,
            index,
            next / size,
            at,
            &mut codes[done..done + count],
        );
        done += count;
    }
}

/// Sets `codes` to the levels of a channel, by its place in the complete samples, at the samples of the scan from `from`
/// on, each moved by the whole delay there, and the direction 0. The frames hold the samples from `first` up to, not
/// including, `last`.
pub(crate) fn fill_levels(
    frames: &ThreadFrames,
    part: &StationPart<'_>,
    index: u32,
    first: i64,
    last: i64,
    from: u64,
    codes: &mut [u8],
)
    requires index { index < chans_of part.now.shape }
    requires inside { from + length codes.old ≤ part.now.track.samples }
    requires reach { Reach part.now.shape first last frames.now }
    requires delayed { (n : ℕ) → from ≤ n → n < from + length codes.old
        → (first ≤ℤ (pos n +ℤ whole_at (model_of part.now.track) n))
        × ((pos n +ℤ whole_at (model_of part.now.track) n) <ℤ last) }
    ensures { (k : ℕ) → k < length codes.old → IsTaken (slice_index codes.new k)
        (level_in_frames part.now.shape frames.now index (pos (from + k) +ℤ whole_at (model_of part.now.track) (from + k))) }
{
    let mut runs = part.track.runs(from, from + codes.len() as u64);
    while let Some(run) = runs.next() {
        let past = (run.from as i64 + run.whole).abs_diff(frames.start);
        fill_run(
            frames,
            &part.shape,
            index,
            past,
            &mut codes[(run.from - from) as usize..(run.to - from) as usize],
        );
    }
}
