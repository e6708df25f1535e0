ghost use Rattle.std.specs.Prelude.{◌≡◌, ◌+◌, ◌^◌, ◌≤◌, ◌<◌, ◌↔◌, pos, ◌+ℤ◌, ◌*ℤ◌, unsigned_abs, length, IsSome, IfSome};
ghost use Rattle.std.specs.Int.{int_div_euclid};
ghost use Rattle.delay_poly.specs.Nested.{nested, magnitude, IsPoly};

use std::marker::Model;

/// One to six coefficients, that of the power 0 first, whose magnitudes together are below 2^58. That of
/// the power k is in units of 2^-32 sample in (2^24 knots)^k.
#[derive(Clone, Copy, Debug, PartialEq, Eq)]
pub struct Poly {
    coeffs: [i64; 6],
    len: usize,
}

impl Model for Poly {
    ghost use Rattle.std.specs.Prelude.{List, ℤ};

    ghost Value = { List ℤ };

    ghost use Rattle.delay_poly.specs.Held.{shown, held, IsHeld, held-shown};

    ghost view = { shown };

    ghost invariant = { IsHeld };

    ghost inverse = { held };

    ghost inverse_ok = { held-shown };
}

fn sum_of_magnitudes(coeffs: &[i64]) -> u128
    requires { length coeffs.now ≤ 6 }
    ensures { result ≡ magnitude coeffs.now }
{
    coeffs.iter().map(|c| u128::from(c.unsigned_abs())).sum()
}

// A number times `j` / 2^24, rounded down.
fn part(behind: i64, j: u32) -> i128
    ensures { result ≡ int_div_euclid (behind *ℤ pos j) (pos (2 ^ 24)) }
{
    let product = i128::from(behind) * i128::from(j);
    product.div_euclid(1 << 24)
}

// A coefficient, and that part of what stands behind it.
fn step(c: i64, behind: i64, j: u32) -> i64
    requires time { j ≤ 2 ^ 24 }
    requires small { unsigned_abs c + unsigned_abs behind < 2 ^ 58 }
    ensures value { result ≡ c +ℤ int_div_euclid (behind *ℤ pos j) (pos (2 ^ 24)) }
    ensures bound { unsigned_abs result ≤ unsigned_abs c + unsigned_abs behind }
{
    c + part(behind, j) as i64
}

fn nest(coeffs: &[i64], j: u32) -> i64
    requires time { j ≤ 2 ^ 24 }
    requires small { magnitude coeffs.now < 2 ^ 58 }
    ensures value { result ≡ nested coeffs.now j }
    ensures bound { unsigned_abs result ≤ magnitude coeffs.now }
{
    let mut value = 0;
    for k in (0..coeffs.len()).rev() {
        value = step(coeffs[k], value, j);
    }
    value
}

impl Poly {
    /// The polynomial of these coefficients, that of the power 0 first. `None` where there are none or
    /// more than six, or where the sum of their magnitudes is 2^58 or more.
    pub fn new(coeffs: &[i64]) -> Option<Self>
        ensures some { IsSome result ↔ IsPoly coeffs.now }
        ensures value { IfSome result (λ p. p ≡ coeffs.now) }
    {
        if coeffs.is_empty() || coeffs.len() > 6 || sum_of_magnitudes(coeffs) >= 1 << 58 {
            return None;
        }
        let mut all = [0; 6];
        all[..coeffs.len()].copy_from_slice(coeffs);
        Some(Poly {
            coeffs: all,
            len: coeffs.len(),
        })
    }

    /// The value at knot `j`, in units of 2^-32 sample: each power's part is rounded down.
    pub fn at(&self, j: u32) -> i64
        requires { j ≤ 2 ^ 24 }
        ensures value { result ≡ nested self.now j }
        ensures small { unsigned_abs result < 2 ^ 58 }
    {
        nest(&self.coeffs[..self.len], j)
    }
}
