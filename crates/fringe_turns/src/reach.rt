//! How far a line has come, and the samples that it takes to come so far.
ghost use Rattle.std.specs.Prelude.{◌≡◌, ◌+◌, ◌-◌, ◌*◌, ◌/◌, ◌^◌, ◌≤◌, ◌<◌, ℕ, pos, ◌+ℤ◌, ◌-ℤ◌, ◌≤ℤ◌, unsigned_abs};

use crate::quotients::quotient;

// From one delay up to another.
pub(crate) fn rise(low: i64, high: i64) -> u64
    requires order { low ≤ℤ high }
    requires low { unsigned_abs low < 2 ^ 59 }
    requires high { unsigned_abs high < 2 ^ 59 }
    ensures value { pos result ≡ high -ℤ low }
    ensures bound { result < 2 ^ 60 }
{
    (high - low) as u64
}

// The delay so far above this one.
pub(crate) fn above(delay: i64, by: u64) -> i64
    requires delay { unsigned_abs delay < 2 ^ 59 }
    requires by { by < 2 ^ 60 }
    ensures value { result ≡ delay +ℤ pos by }
    ensures bound { unsigned_abs result < 2 ^ 61 }
{
    delay + by as i64
}

// The delay so far below this one.
pub(crate) fn below(delay: i64, by: u64) -> i64
    requires delay { unsigned_abs delay < 2 ^ 59 }
    requires by { by < 2 ^ 60 }
    ensures value { result ≡ delay -ℤ pos by }
    ensures bound { unsigned_abs result < 2 ^ 61 }
{
    delay - by as i64
}

// How far a line that rises by `rise` in `knot` samples has risen after `past` samples, rounded down.
pub(crate) fn risen(rise: u64, past: u32, knot: u32) -> u64
    requires { past < knot }
    ensures value { result ≡ rise * past / knot }
    ensures within { result ≤ rise }
{
    quotient(u128::from(rise) * u128::from(past), u64::from(knot)) as u64
}

// How far a line that falls by `fall` in `knot` samples has fallen after `past` samples, rounded up.
pub(crate) fn fallen(fall: u64, past: u32, knot: u32) -> u64
    requires { past < knot }
    ensures value { result ≡ (fall * past + (knot - 1)) / knot }
    ensures within { result ≤ fall }
{
    quotient(
        u128::from(fall) * u128::from(past) + u128::from(knot - 1),
        u64::from(knot),
    ) as u64
}

fn over_knot(gap: u64, knot: u32) -> u128
    ensures value { result ≡ gap * knot }
    ensures bound { result < 2 ^ 96 }
{
    u128::from(gap) * u128::from(knot)
}

// The first number of samples whose product with `slope` is above `top`.
fn first_above(top: u128, slope: u64) -> u128
    requires slope { 0 < slope }
    requires top { top < 2 ^ 96 }
    ensures below { (n : ℕ) → n < result → slope * n ≤ top }
    ensures above { (n : ℕ) → result ≤ n → top < slope * n }
{
    quotient(top, slope) + 1
}

// The first sample of a line that rises by `rise` in `knot` samples to have risen by `gap`, or else `to`.
pub(crate) fn first_reaching(rise: u64, gap: u64, knot: u32, to: u32) -> u32
    requires rise { 0 < rise }
    requires some { 0 < gap }
    requires knot { 0 < knot }
    ensures within { result ≤ to }
    ensures below { (n : ℕ) → n < result → rise * n < gap * knot }
    ensures above { result < to → (n : ℕ) → result ≤ n → gap * knot ≤ rise * n }
{
    first_above(over_knot(gap, knot) - 1, rise).min(u128::from(to)) as u32
}

// The first sample of a line that falls by `fall` in `knot` samples to have fallen by more than `gap`, or else `to`.
pub(crate) fn first_past(fall: u64, gap: u64, knot: u32, to: u32) -> u32
    requires { 0 < fall }
    ensures within { result ≤ to }
    ensures below { (n : ℕ) → n < result → fall * n ≤ gap * knot }
    ensures above { result < to → (n : ℕ) → result ≤ n → gap * knot < fall * n }
{
    first_above(over_knot(gap, knot), fall).min(u128::from(to)) as u32
}
