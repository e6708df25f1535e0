ghost use Rattle.std.specs.Prelude.{◌≡◌, ◌<◌, ◌*◌, ◌^◌, pos, ◌*ℤ◌, ◌≤ℤ◌, ◌<ℤ◌, unsigned_abs};
ghost use Rattle.std.specs.Int.{int_div_euclid};
ghost use Rattle.station_clock.specs.Reading.{reading};

use crate::ClockEntry;

// What the drift adds over `u` samples, rounded down.
fn drift(c1: i64, u: i128, rate: u32) -> i128
    requires begun { pos 0 ≤ℤ u }
    requires within { u <ℤ pos (2 ^ 32 * rate) }
    requires small { unsigned_abs c1 < 2 ^ 25 }
    ensures { result ≡ int_div_euclid (c1 *ℤ u) (pos rate) }
{
    (i128::from(c1) * u).div_euclid(i128::from(rate))
}

/// How far the clock is ahead, in units of 2^-32 sample, at the sample `u` from the entry's second on,
/// at `rate` samples a second.
pub fn clock_at(e: &ClockEntry, u: i128, rate: u32) -> i64
    requires begun { pos 0 ≤ℤ u }
    requires within { u <ℤ pos (2 ^ 32 * rate) }
    requires offset { unsigned_abs e.now.c0 < 2 ^ 57 }
    requires drift { unsigned_abs e.now.c1 < 2 ^ 25 }
    ensures value { result ≡ reading e.now.c0 e.now.c1 u rate }
    ensures bound { unsigned_abs result < 2 ^ 58 }
{
    e.c0 + drift(e.c1, u, rate) as i64
}
