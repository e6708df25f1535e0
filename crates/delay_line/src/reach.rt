//! The samples that a line takes to come so far.
ghost use Rattle.std.specs.Prelude.{◌≡◌, ◌*◌, ◌^◌, ◌≤◌, ◌<◌, ℕ, pos, ◌-ℤ◌, ◌≤ℤ◌, unsigned_abs};

// From one delay up to another.
pub(crate) fn rise(low: i64, high: i64) -> u64
    requires { low ≤ℤ high }
    ensures { pos result ≡ high -ℤ low }
{
    (i128::from(high) - i128::from(low)) as u64
}

pub(crate) fn gap(low: i128, high: i128) -> u128
    requires order { low ≤ℤ high }
    requires low { unsigned_abs low < 2 ^ 90 }
    requires high { unsigned_abs high < 2 ^ 90 }
    ensures value { pos result ≡ high -ℤ low }
    ensures bound { result < 2 ^ 91 }
{
    (high - low) as u128
}

fn over_knot(gap: u128, knot: u32) -> u128
    requires gap { gap < 2 ^ 91 }
    ensures value { result ≡ gap * knot }
    ensures bound { result < 2 ^ 123 }
{
    gap * u128::from(knot)
}

// The first number of samples whose product with `slope` is above `top`.
fn first_above(top: u128, slope: u64) -> u128
    requires slope { 0 < slope }
    requires top { top < 2 ^ 126 }
    ensures below { (n : ℕ) → n < result → slope * n ≤ top }
    ensures above { (n : ℕ) → result ≤ n → top < slope * n }
{
    top / u128::from(slope) + 1
}

// The first sample of a line that rises by `rise` in `knot` samples to have risen by `gap`, or else `to`.
pub(crate) fn first_reaching(rise: u64, gap: u128, knot: u32, to: u32) -> u32
    requires rise { 0 < rise }
    requires some { 0 < gap }
    requires gap { gap < 2 ^ 91 }
    requires knot { 0 < knot }
    ensures within { result ≤ to }
    ensures below { (n : ℕ) → n < result → rise * n < gap * knot }
    ensures above { result < to → (n : ℕ) → result ≤ n → gap * knot ≤ rise * n }
{
    first_above(over_knot(gap, knot) - 1, rise).min(u128::from(to)) as u32
}

// The first sample of a line that falls by `fall` in `knot` samples to have fallen by more than `gap`, or else `to`.
pub(crate) fn first_past(fall: u64, gap: u128, knot: u32, to: u32) -> u32
    requires fall { 0 < fall }
    requires gap { gap < 2 ^ 91 }
    ensures within { result ≤ to }
    ensures below { (n : ℕ) → n < result → fall * n ≤ gap * knot }
    ensures above { result < to → (n : ℕ) → result ≤ n → gap * knot < fall * n }
{
    first_above(over_knot(gap, knot), fall).min(u128::from(to)) as u32
}
