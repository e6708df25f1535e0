//! The sums of cells.
ghost use Rattle.std.specs.Prelude.{◌≡◌, sum_by};
ghost use Rattle.std.specs.List.{All};
ghost use Rattle.corr_model.specs.Records.{IsCell};
ghost use Rattle.gen_summary.specs.Totals.{total};

use corr_model::Cell;

// What some cells add up to: the number of pairs, and the sums of the real and of the imaginary parts.
#[derive(Clone, Copy, Debug)]
pub(crate) struct Totals {
    pub pairs: u128,
    pub re: i128,
    pub im: i128,
}

// What the cells add up to.
pub(crate) fn totals_of(cells: &[Cell]) -> Totals
    requires { All IsCell cells.now }
    ensures pairs { result.pairs ≡ sum_by (λ c. c.count) cells.now }
    ensures re { result.re ≡ total (λ c. c.re) cells.now }
    ensures im { result.im ≡ total (λ c. c.im) cells.now }
{
    let mut totals = Totals {
        pairs: 0,
        re: 0,
        im: 0,
    };
    for cell in cells {
        totals.pairs += u128::from(cell.count);
        totals.re += i128::from(cell.re);
        totals.im += i128::from(cell.im);
    }
    totals
}
