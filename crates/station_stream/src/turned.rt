//! The levels of a channel, turned by the directions of the delay.
ghost use Rattle.std.specs.Prelude.{◌≡◌, ◌+◌, ◌^◌, ◌<◌, ◌≤◌, ℕ, ℤ, Option, length, option_map, slice_index};
ghost use Rattle.delay_track.specs.Track.{model_of};
ghost use Rattle.fringe_turns.specs.Direction.{direction_at};
ghost use Rattle.value_codes.specs.{Codes.{value_of, turned_by}, Taken.{IsTaken}};

use crate::{StationChan, StationPart};
use fringe_turns::turns_of;

// The byte of a level that is turned by a direction, from that of the level alone. Where there is no level, bit 3 stays 0.
#[inline(always)]
fn turned_code(code: u8, direction: u8) -> u8
    requires { direction < 8 }
    ensures { (level : Option ℤ) → IsTaken code level → value_of result ≡ option_map (λ l. turned_by l direction) level }
{
    code.wrapping_add(direction)
}

// Turns levels by one direction. The direction 0 leaves them as they are.
fn turn_codes(direction: u8, codes: &mut [u8])
    requires { direction < 8 }
    ensures { (k : ℕ) (level : Option ℤ) → k < length codes.old → IsTaken (slice_index codes.old k) level
        → value_of (slice_index codes.new k) ≡ option_map (λ l. turned_by l direction) level }
{
    if direction == 0 {
        return;
    }
    for code in codes.iter_mut() {
        *code = turned_code(*code, direction);
    }
}

/// Turns the levels of a channel by the directions of the delays at the samples from `from` on.
pub(crate) fn turn_levels(part: &StationPart<'_>, chan: &StationChan, from: u64, codes: &mut [u8])
    requires frequency { chan.now.hertz < 2 ^ 40 }
    requires inside { from + length codes.old ≤ part.now.track.samples }
    ensures { (k : ℕ) (level : Option ℤ) → k < length codes.old → IsTaken (slice_index codes.old k) level
        → value_of (slice_index codes.new k) ≡ option_map (λ l. turned_by l (direction_at
        (model_of part.now.track) (record { hertz = chan.now.hertz; upper = chan.now.upper }) (from + k))) level }
{
    let to = from + codes.len() as u64;
    let mut turns = turns_of(&part.track, chan.hertz, chan.upper, from, to);
    while let Some(turn) = turns.next() {
        turn_codes(
            turn.direction,
            &mut codes[(turn.from - from) as usize..(turn.to - from) as usize],
        );
    }
}
