//! Whole quotients.
ghost use Rattle.std.specs.Prelude.{◌≡◌, pos, ◌+ℤ◌, ◌*ℤ◌, ◌<ℤ◌, ◌≤ℤ◌};
ghost use Rattle.num_time.specs.Numbers.{floor_of};

/// The greatest whole number that is not above a / b.
pub fn floor_div(a: i128, b: i128) -> i128
    requires { pos 0 <ℤ b }
    ensures value { result ≡ floor_of a b }
    ensures below { (result *ℤ b) ≤ℤ a }
    ensures above { a <ℤ ((result +ℤ pos 1) *ℤ b) }
{
    a.div_euclid(b)
}
