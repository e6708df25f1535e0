//! The places of a cut in a row.
ghost use Rattle.std.specs.Prelude.{◌≡◌, ◌<◌, ◌≤◌, ◌^◌, ◌+ℤ◌, ◌<ℤ◌, ℕ, pos, unsigned_abs};

// How many places from `start` on are before the first one, and the first of them that is not.
pub(crate) fn places(start: i64) -> (usize, usize)
    requires { unsigned_abs start ≤ 2 ^ 41 }
    ensures before { (k : ℕ) → k < result.0 → (start +ℤ pos k) <ℤ pos 0 }
    ensures first { pos result.1 ≡ start +ℤ pos result.0 }
{
    if start < 0 {
        ((-start) as usize, 0)
    } else {
        (0, start as usize)
    }
}
