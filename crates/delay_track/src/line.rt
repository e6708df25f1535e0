ghost use Rattle.std.specs.Prelude.{◌≡◌, ◌*◌, ◌^◌, ◌≤◌, ◌<◌, pos, ◌*ℤ◌, unsigned_abs};
ghost use Rattle.corr_model.specs.Delay.{nearest};

// The samples of so many seconds, `rate` in each.
pub(crate) fn samples_in(seconds: i64, rate: u32) -> i128
    ensures { result ≡ seconds *ℤ pos rate }
{
    i128::from(seconds) * i128::from(rate)
}

// The samples to knot `j`, `knot` to each.
pub(crate) fn samples_to(j: u64, knot: u32) -> i128
    ensures { result ≡ pos (j * knot) }
{
    i128::from(j) * i128::from(knot)
}

/// The whole samples of a delay in units of 2^-32 sample: the nearest number, a half rounded up.
pub fn nearest(delay: i64) -> i64
    requires { unsigned_abs delay < 2 ^ 60 }
    ensures value { result ≡ nearest delay }
    ensures bound { unsigned_abs result ≤ 2 ^ 28 }
{
    (delay + (1 << 31)).div_euclid(1 << 32)
}
