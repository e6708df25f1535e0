//! The sums of a closed board, and the cells of an epoch.
ghost use Rattle.std.specs.Prelude.{◌≡◌, ℕ, ◌*◌, ◌%◌, ◌<◌, ◌^◌, All, length, slice_index_or, pos, ◌-ℤ◌};
ghost use Rattle.corr_model.specs.declared.cell.Cell.{Cell};
ghost use Rattle.atomic_sums.specs.Sums.{unbiased};

use corr_model::Cell;
use std::marker::Model;

/// The totals of a board's sums, by group and then by a piece's amounts, and its number of pieces.
/// Only a board that is closed gives one.
#[derive(Drop)]
pub struct Sums {
    totals: Vec<u64>,
    pieces: u64,
}

impl Model for Sums {
    ghost use Rattle.atomic_sums.specs.Sums.{Totals};

    ghost Value = { Totals };

    ghost view = { λ s. record { totals = s.totals.items; pieces = s.pieces } };
}

impl Sums {
    pub(crate) fn of(totals: Vec<u64>, pieces: u64) -> Self
        ensures { result ≡ record { totals = totals.items; pieces = pieces } }
    {
        Sums { totals, pieces }
    }

    // The totals, for tests to compare.
    #[cfg(test)]
    pub(crate) fn totals(&self) -> &[u64]
        ensures { result.now ≡ self.now.totals }
    {
        &self.totals
    }

    /// The cells of an epoch: of each three totals in a row the first two less the bias, and the third,
    /// the count, as it is.
    pub fn unbias(self, bias: u64) -> EpochSums
        requires thirds { length self.totals % 3 ≡ 0 }
        requires small { All (λ t. t < 2 ^ 62) self.totals }
        requires bias { bias < 2 ^ 62 }
        ensures { result ≡ unbiased bias self }
    {
        EpochSums {
            totals: self.totals,
            bias,
            pieces: self.pieces,
        }
    }
}

/// The cells of an epoch, by group and then by lag, and the number of pieces that they were summed in.
/// Only sums whose bias is taken off give one.
#[derive(Drop)]
pub struct EpochSums {
    totals: Vec<u64>,
    bias: u64,
    pieces: u64,
}

impl Model for EpochSums {
    ghost use Rattle.atomic_sums.specs.Sums.{EpochCells};

    ghost Value = { EpochCells };

    ghost use Rattle.atomic_sums.specs.Fields.{cells_in, AreSmall};

    ghost view = { cells_in };

    ghost invariant = { AreSmall };
}

impl EpochSums {
    /// Cell `i`.
    pub fn cell(&self, i: u64) -> Cell
        requires { i < length self.now.cells }
        ensures { (d : Cell) → slice_index_or self.now.cells i d ≡ result }
    {
        let totals = &self.totals;
        let at = 3 * i as usize;
        Cell {
            re: less_bias(totals[at], self.bias),
            im: less_bias(totals[at + 1], self.bias),
            count: totals[at + 2],
        }
    }

    /// The number of pieces.
    pub fn pieces(&self) -> u64
        ensures { result ≡ self.now.pieces }
    {
        self.pieces
    }
}

fn less_bias(total: u64, bias: u64) -> i64
    requires total { total < 2 ^ 62 }
    requires bias { bias < 2 ^ 62 }
    ensures { result ≡ pos total -ℤ pos bias }
{
    total as i64 - bias as i64
}
