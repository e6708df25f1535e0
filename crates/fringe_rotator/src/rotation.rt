ghost use Rattle.std.specs.Prelude.{◌≡◌, ◌<◌, ◌≤◌, ◌*ℤ◌, unsigned_abs};
ghost use Rattle.fringe_rotator.specs.Table.{cos3, sin3};

// The cosine of each sector, at three levels.
const COSINES: [i8; 16] = [1, 1, 1, 0, 0, -1, -1, -1, -1, -1, -1, 0, 0, 1, 1, 1];

fn cosine(k: u8) -> i8
    requires { k < 16 }
    ensures value { result ≡ cos3 k }
    ensures level { unsigned_abs result ≤ 1 }
{
    COSINES[usize::from(k)]
}

/// A sample's level turned by the sector `k`: its cosine and its sine component.
pub fn rotate(x: i8, k: u8) -> (i8, i8)
    requires level { unsigned_abs x ≤ 15 }
    requires sector { k < 16 }
    ensures cosine { result.0 ≡ x *ℤ cos3 k }
    ensures sine { result.1 ≡ x *ℤ sin3 k }
    ensures cosine_within { unsigned_abs result.0 ≤ unsigned_abs x }
    ensures sine_within { unsigned_abs result.1 ≤ unsigned_abs x }
{
    (x * cosine(k), x * cosine((k + 12) % 16))
}
