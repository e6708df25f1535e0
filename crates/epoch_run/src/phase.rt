//! The cells of a range of samples by the bins of a pulse.
ghost use Rattle.std.specs.Prelude.{◌≡◌, ◌≢◌, ◌+◌, ◌-◌, ◌*◌, ◌%◌, ◌<◌, ◌≤◌, ◌^◌, ℕ, length, slice_index_or};
ghost use Rattle.std.specs.List.{All};
ghost use Rattle.corr_model.specs.{declared.cell.Cell.{Cell}, Cell.{cell_plus, no_cell}};
ghost use Rattle.delay_track.specs.Track.{model_of};
ghost use Rattle.lag_kernel.specs.Planes.{plane_pair, plane_samples};
ghost use Rattle.pulsar_bins.specs.Bin.{bin_at};
ghost use Rattle.corr_model.proofs.CellLemmas.{IsGrown};
ghost use Rattle.epoch_run.specs.{Binned.{bin_cells}, Levelled.{AllLevelled}};

use bit_planes::Planes;
use corr_model::Cell;
use delay_track::Track;
use lag_kernel::plane_lags;
use pulsar_bins::bin_runs;

/// The phase of a pulse at each sample of a scan, and into how many bins a turn is cut.
#[derive(Clone, Copy)]
pub(crate) struct Phase<'a> {
    pub track: Track<'a>,
    pub count: u32,
}

/// Sets `cells` to those of each bin in order, by rising lag, over the samples from `from` up to, not including, `to`: each run
/// of one bin is summed by itself, in `stretch`, which has a place for each lag.
pub(crate) fn bin_lags(
    phase: &Phase<'_>,
    a: &Planes,
    b: &Planes,
    from: u64,
    to: u64,
    stretch: &mut [Cell],
    cells: &mut [Cell],
)
    requires bins { (2 ≤ phase.now.count) × (phase.now.count ≤ 64) }
    requires lags { (0 < length stretch.old) × (length stretch.old ≤ 1024) }
    requires even { length stretch.old % 2 ≡ 0 }
    requires cells { length cells.old ≡ phase.now.count * length stretch.old }
    requires order { from ≤ to }
    requires inside { to ≤ phase.now.track.samples }
    requires scan { phase.now.track.samples ≤ 2 ^ 40 }
    requires short { to - from ≤ 4194304 }
    requires levelled { AllLevelled (plane_samples a.now b.now) }
    ensures { cells.new ≡ bin_cells (bin_at phase.now.count (model_of phase.now.track)) phase.now.count (plane_samples a.now b.now)
        phase.now.track.samples (length stretch.old) from to plane_pair }
{
    clear(cells);
    let lags = stretch.len();
    let mut runs = bin_runs(&phase.track, phase.count, from, to);
    while let Some(run) = runs.next() {
        plane_lags(a, b, run.from, run.to, phase.track.samples, stretch);
        add_cells(stretch, run.bin as usize * lags, cells);
    }
}

// Sets each cell to that of no pair.
fn clear(cells: &mut [Cell])
    ensures { (k : ℕ) (d : Cell) → k < length cells.old → slice_index_or cells.new k d ≡ no_cell }
{
    for cell in cells.iter_mut() {
        *cell = Cell::ZERO;
    }
}

// Adds cells to those from the place `at` on.
fn add_cells(more: &[Cell], at: usize, cells: &mut [Cell])
    requires room { at + length more.now ≤ length cells.old }
    requires few { length cells.old ≤ 65536 }
    requires more { All (λ c. IsGrown c 4194304) more.now }
    requires cells { All (λ c. IsGrown c 4194304) cells.old }
    ensures before { (k : ℕ) (d : Cell) → k < at → slice_index_or cells.new k d ≡ slice_index_or cells.old k d }
    ensures here { (k : ℕ) (d : Cell) → k < length more.now
        → slice_index_or cells.new (at + k) d ≡ cell_plus (slice_index_or cells.old (at + k) d) (slice_index_or more.now k d) }
    ensures behind { (k : ℕ) (d : Cell) → at + length more.now ≤ k → slice_index_or cells.new k d ≡ slice_index_or cells.old k d }
{
    for (i, cell) in more.iter().enumerate() {
        add_cell(*cell, at + i, cells);
    }
}

// Adds a cell to that at a place.
fn add_cell(more: Cell, at: usize, cells: &mut [Cell])
    requires room { at < length cells.old }
    requires more { IsGrown more 4194304 }
    requires cell { (d : Cell) → IsGrown (slice_index_or cells.old at d) 4194304 }
    ensures here { (d : Cell) → slice_index_or cells.new at d ≡ cell_plus (slice_index_or cells.old at d) more }
    ensures beside { (k : ℕ) (d : Cell) → k ≢ at → slice_index_or cells.new k d ≡ slice_index_or cells.old k d }
{
    cells[at] = cells[at].plus(more);
}
