//! The samples of a channel in a slot.
ghost use Rattle.std.specs.Prelude.{◌≡◌, ◌+◌, ◌≤◌, ◌<◌, ℕ, Some, length, drop, slice_index};
ghost use Rattle.vdif_frame.specs.Shape.{head_bytes, chans_of, samples_per_frame};
ghost use Rattle.sample_unpack.specs.Level.{level_at};
ghost use Rattle.value_codes.specs.Taken.{IsTaken};

use value_codes::take_levels;
use vdif_frame::Shape;

/// Sets `codes` to the levels of a channel, by its place in the complete samples, from sample `at` on, as a slot holds them.
pub(crate) fn take_slot(shape: &Shape, slot: &[u8], index: u32, at: usize, codes: &mut [u8])
    requires index { index < chans_of shape.now }
    requires slot { length slot.now ≡ shape.now.frame_bytes }
    requires room { at + length codes.old ≤ samples_per_frame shape.now }
    ensures { (k : ℕ) → k < length codes.old → IsTaken (slice_index codes.new k)
        (Some (level_at (drop (head_bytes shape.now.legacy) slot.now) shape.now.bits (chans_of shape.now) index (at + k))) }
{
    let array = &slot[shape.head_bytes() as usize..];
    take_levels(array, shape.bits, shape.chans(), index, at as u64, codes);
}
