ghost use Rattle.std.specs.Prelude.{◌≡◌, ◌^◌, ◌≤◌, ◌<◌, ◌⊎◌, [], ◌∷◌, pos, unsigned_abs};
ghost use Rattle.delay_poly.specs.Nested.{nested};

use delay_poly::{Poly, PolyEntry};

// The polynomial zero from a second on.
pub(crate) fn zero_poly(second: i64) -> PolyEntry
    ensures { result ≡ record { second = second; poly = pos 0 ∷ [] } }
{
    PolyEntry {
        second,
        poly: Poly::new(&[0]).unwrap(),
    }
}

// The value of a polynomial at knot `j`. No polynomial but zero is asked for behind knot 2^24.
pub(crate) fn poly_value(poly: &Poly, j: u64) -> i64
    requires { (poly.now ≡ pos 0 ∷ []) ⊎ (j ≤ 2 ^ 24) }
    ensures value { result ≡ nested poly.now j }
    ensures bound { unsigned_abs result < 2 ^ 58 }
{
    if j <= 1 << 24 { poly.at(j as u32) } else { 0 }
}
