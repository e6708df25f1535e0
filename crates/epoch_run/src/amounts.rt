//! The amounts of cells.
ghost use Rattle.std.specs.Prelude.{◌≡◌, ◌+◌, ◌*◌, ◌≤◌, ◌≤ℤ◌, ◌+ℤ◌, ◌++◌, pos, neg_ℤ, unsigned_abs, length, take, flat_map};
ghost use Rattle.std.specs.List.{All};
ghost use Rattle.corr_model.proofs.CellLemmas.{IsGrown};
ghost use Rattle.epoch_run.specs.Amounts.{amounts_in, bias_of};

use corr_model::Cell;

/// Sets `amounts` to the three of each cell. At most `samples` pairs were added to a cell.
pub(crate) fn write_amounts(cells: &[Cell], samples: u64, amounts: &mut [u64])
    requires room { length amounts.old ≡ 3 * length cells.now }
    requires few { length cells.now ≤ 65536 }
    requires most { samples ≤ 4194304 }
    requires within { All (λ c. IsGrown c samples) cells.now }
    ensures { amounts.new ≡ flat_map (amounts_in (bias_of samples)) cells.now }
{
    for (i, cell) in cells.iter().enumerate() {
        write_cell(*cell, samples, 3 * i, amounts);
    }
}

// Writes a cell's amounts from the place `at` on.
fn write_cell(cell: Cell, samples: u64, at: usize, amounts: &mut [u64])
    requires room { at + 3 ≤ length amounts.old }
    requires most { samples ≤ 4194304 }
    requires within { IsGrown cell samples }
    ensures { take (at + 3) amounts.new ≡ take at amounts.old ++ amounts_in (bias_of samples) cell }
{
    let bias = 450 * samples;
    amounts[at] = biased(cell.re, bias);
    amounts[at + 1] = biased(cell.im, bias);
    amounts[at + 2] = cell.count;
}

// A sum with the bias.
fn biased(sum: i64, bias: u64) -> u64
    requires most { bias ≤ 1887436800 }
    requires low { neg_ℤ (pos bias) ≤ℤ sum }
    requires high { sum ≤ℤ pos bias }
    ensures { result ≡ unsigned_abs (sum +ℤ pos bias) }
{
    (sum + bias as i64) as u64
}
