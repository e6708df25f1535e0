//! The direction of a delay, and how far the delay may go with the same direction.
ghost use Rattle.std.specs.Prelude.{◌≡◌, ◌+◌, ◌*◌, ◌^◌, ◌<◌, pos, ◌+ℤ◌, unsigned_abs};
ghost use Rattle.std.specs.Int.{int_div_euclid, int_rem_euclid};

use crate::quotients::{floor, quotient};

// The whole eighths in a number, and what is past them.
#[derive(Clone, Copy)]
pub(crate) struct Parts {
    pub(crate) whole: i128,
    pub(crate) past: u128,
}

// The units of an eighth of a turn.
fn eighth(rate: u32) -> i128
    ensures { result ≡ pos (rate * 2 ^ 33) }
{
    i128::from(rate) * (1 << 33)
}

// The eighths in a number, rounded down.
fn whole_parts(number: i128, rate: u32) -> i128
    requires rate { 0 < rate }
    requires number { unsigned_abs number < 2 ^ 105 }
    ensures { result ≡ int_div_euclid number (pos (rate * 2 ^ 33)) }
{
    floor(number.div_euclid(1 << 33), rate)
}

// What is past them.
fn past_parts(number: i128, whole: i128, rate: u32) -> u128
    requires rate { 0 < rate }
    requires number { unsigned_abs number < 2 ^ 105 }
    requires whole { whole ≡ int_div_euclid number (pos (rate * 2 ^ 33)) }
    ensures past { int_rem_euclid number (pos (rate * 2 ^ 33)) ≡ pos result }
    ensures within { result < rate * 2 ^ 33 }
{
    (number - whole * eighth(rate)).unsigned_abs()
}

fn parts_of(number: i128, rate: u32) -> Parts
    requires rate { 0 < rate }
    requires number { unsigned_abs number < 2 ^ 105 }
    ensures whole { result.whole ≡ int_div_euclid number (pos (rate * 2 ^ 33)) }
    ensures past { int_rem_euclid number (pos (rate * 2 ^ 33)) ≡ pos result.past }
    ensures within { result.past < rate * 2 ^ 33 }
{
    let whole = whole_parts(number, rate);
    Parts {
        whole,
        past: past_parts(number, whole, rate),
    }
}

/// The fringe of a band: the sky frequency of its edge, whether it goes up from there, and the samples of a second.
#[derive(Clone, Copy)]
pub(crate) struct Fringe {
    pub(crate) hertz: u64,
    pub(crate) upper: bool,
    pub(crate) rate: u32,
    ghost frequency: { hertz < 2 ^ 40 },
    ghost some: { 0 < rate },
}

// The direction of a delay, and how far it is past the first turn, and before the last one, of that direction.
#[derive(Clone, Copy)]
pub(crate) struct Facing {
    pub(crate) direction: u8,
    pub(crate) past: u128,
    pub(crate) left: u128,
}

impl Fringe {
    ghost use Rattle.std.specs.Prelude.{◌≡◌, ◌^◌, ◌<◌, unsigned_abs};
    ghost use Rattle.fringe_rotator.specs.Sector.{turn_of};
    ghost use Rattle.fringe_turns.specs.Eighths.{ahead_of, band_of, IsFacing, IsRoom};

    // Sixteenths of a turn, times the samples of a second and 2^32.
    fn turn(&self, delay: i64) -> i128
        requires { unsigned_abs delay < 2 ^ 59 }
        ensures value { result ≡ turn_of self.now.hertz self.now.upper delay }
        ensures bound { unsigned_abs result < 2 ^ 104 }
    {
        let size = i128::from(16 * self.hertz) * i128::from(delay);
        if self.upper { size } else { -size }
    }

    // The turn and a sixteenth.
    fn ahead(&self, delay: i64) -> i128
        requires { unsigned_abs delay < 2 ^ 59 }
        ensures value { result ≡ ahead_of self.now delay }
        ensures bound { unsigned_abs result < 2 ^ 105 }
    {
        self.turn(delay) + i128::from(self.rate) * (1 << 32)
    }

    // The direction of a delay: the eighth of a turn that is nearest.
    pub(crate) fn facing(&self, delay: i64) -> Facing
        requires { unsigned_abs delay < 2 ^ 59 }
        ensures { IsFacing self.now delay result }
    {
        let parts = parts_of(self.ahead(delay), self.rate);
        Facing {
            direction: parts.whole.rem_euclid(8) as u8,
            past: parts.past,
            left: u128::from(self.rate) * (1 << 33) - 1 - parts.past,
        }
    }

    // How far the delay may rise, or else fall, with the same direction. A frequency of zero never turns.
    pub(crate) fn room(&self, delay: i64, facing: Facing, rises: bool) -> u64
        requires { IsFacing self.now delay facing }
        ensures room { IsRoom (band_of self.now) self.now.rate delay rises result }
        ensures bound { result < 2 ^ 62 }
    {
        let size = if rises == self.upper {
            facing.left
        } else {
            facing.past
        };
        if self.hertz == 0 {
            1 << 60
        } else {
            quotient(size, 16 * self.hertz) as u64
        }
    }
}
