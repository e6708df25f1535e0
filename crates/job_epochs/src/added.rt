//! Cells, added place by place.
ghost use Rattle.std.specs.Prelude.{◌≡◌};
ghost use Rattle.job_epochs.specs.Added.{add_cells, plus_wrapped};

use corr_model::Cell;

/// Adds cells place by place, as far as there are places for them, each number with wrap at 64 bits.
pub fn add_cells(sums: &mut [Cell], more: &[Cell])
    ensures { sums.new ≡ add_cells sums.old more.now }
{
    for i in 0..sums.len().min(more.len()) {
        sums[i] = plus_wrapped(sums[i], more[i]);
    }
}

// Two cells, each of whose numbers is added with wrap at 64 bits.
fn plus_wrapped(c: Cell, d: Cell) -> Cell
    ensures { result ≡ plus_wrapped c d }
{
    Cell {
        re: c.re.wrapping_add(d.re),
        im: c.im.wrapping_add(d.im),
        count: c.count.wrapping_add(d.count),
    }
}
