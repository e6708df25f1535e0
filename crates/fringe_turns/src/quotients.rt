//! Quotients by a division of 64 bits where the numbers have no more.
ghost use Rattle.std.specs.Prelude.{◌≡◌, ◌/◌, ◌+◌, ◌*◌, ◌^◌, ◌≤◌, ◌<◌, pos, unsigned_abs};
ghost use Rattle.std.specs.Int.{int_div_euclid};

// A quotient, rounded down.
pub(crate) fn quotient(top: u128, by: u64) -> u128
    requires { 0 < by }
    ensures { result ≡ top / by }
{
    if top < 1 << 64 {
        u128::from(top as u64 / by)
    } else {
        top / u128::from(by)
    }
}

// A quotient, rounded down, also of a number below zero.
pub(crate) fn floor(top: i128, by: u32) -> i128
    requires { 0 < by }
    ensures value { result ≡ int_div_euclid top (pos by) }
    ensures within { unsigned_abs result ≤ unsigned_abs top }
{
    if -(1 << 62) < top && top < 1 << 62 {
        i128::from((top as i64).div_euclid(i64::from(by)))
    } else {
        top.div_euclid(i128::from(by))
    }
}
