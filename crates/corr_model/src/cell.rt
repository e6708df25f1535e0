//! Cells and pairs.
ghost use Rattle.std.specs.Prelude.{◌≡◌, ◌≤◌, ◌<◌, ◌^◌, ℕ, ℤ, FitsSigned};
ghost use Rattle.std.specs.Int.{w64};
ghost use Rattle.corr_model.specs.{Cell.{cell_in, cell_plus, Samples}, declared.cell.Pair.{Pair}};

use crate::Values;

/// What the pairs of values at one lag add up to: the sums of the products' real and imaginary parts,
/// and the number of pairs that are there.
#[derive(Clone, Copy, Debug, PartialEq, Eq)]
pub struct Cell {
    pub re: i64,
    pub im: i64,
    pub count: u64,
}

/// Channel `x` of station `a` and channel `y` of station `b`, by their numbers.
#[derive(Clone, Copy, Debug, PartialEq, Eq)]
pub struct Pair {
    pub a: u32,
    pub x: u32,
    pub b: u32,
    pub y: u32,
}

impl Cell {
    /// The cell of no pair at all.
    pub const ZERO: Cell = Cell {
        re: 0,
        im: 0,
        count: 0,
    };

    /// The sum of two cells; the cell of a range is the sum of the cells of its two parts.
    pub fn plus(self, other: Cell) -> Cell
        requires re { FitsSigned w64 (cell_plus self other).re }
        requires im { FitsSigned w64 (cell_plus self other).im }
        requires count { (cell_plus self other).count < 2 ^ 64 }
        ensures sum { result ≡ cell_plus self other }
        ensures joins { (z : Samples) (pair : Pair) (samples : ℕ) (lag : ℤ) (from middle to : ℕ)
            → from ≤ middle → middle ≤ to
            → self ≡ cell_in z pair samples lag from middle
            → other ≡ cell_in z pair samples lag middle to
            → result ≡ cell_in z pair samples lag from to }
    {
        Cell {
            re: self.re + other.re,
            im: self.im + other.im,
            count: self.count + other.count,
        }
    }
}
