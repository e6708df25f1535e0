ghost use Rattle.std.specs.Prelude.{◌≡◌, ◌<◌, ◌^◌, pos, unsigned_abs};
ghost use Rattle.fringe_rotator.specs.Sector.{turn_of, sector_of};

// Sixteenths of a turn, times the samples of a second and 2^32.
fn turn(hertz: u64, upper: bool, delay: i64) -> i128
    requires frequency { hertz < 2 ^ 40 }
    requires delay { unsigned_abs delay < 2 ^ 60 }
    ensures value { result ≡ turn_of hertz upper delay }
    ensures bound { unsigned_abs result < 2 ^ 104 }
{
    let size = i128::from(16 * hertz) * i128::from(delay);
    if upper { size } else { -size }
}

/// The sector, 0 to 15, of the fringe phase at the sky frequency of `hertz`, in the upper sideband or
/// the lower, after a delay in units of 2^-32 sample at `rate` samples a second.
pub fn sector(hertz: u64, upper: bool, delay: i64, rate: u32) -> u8
    requires frequency { hertz < 2 ^ 40 }
    requires delay { unsigned_abs delay < 2 ^ 60 }
    requires rate { 0 < rate }
    ensures value { pos result ≡ sector_of hertz upper delay rate }
    ensures within { result < 16 }
{
    let second = i128::from(u64::from(rate) << 32);
    turn(hertz, upper, delay).div_euclid(second).rem_euclid(16) as u8
}
