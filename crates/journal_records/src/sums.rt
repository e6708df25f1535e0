//! The sums of one integration, from the epochs that a journal keeps.
ghost use Rattle.std.specs.Prelude.{◌≡◌, ◌+◌, ◌≤◌, ◌<◌, ◌*◌, min, ℕ, List, Option, Some, length, replicate, slice_get, IfOk, IfSome, OnOk};
ghost use Rattle.dev_traits.specs.Fault.{Counts};
ghost use Rattle.corr_model.specs.Cell.{no_cell};
ghost use Rattle.job_plan.specs.{Ranges.{IsPlan, IsScanPlan}, Output.{integrations_of}};
ghost use Rattle.piece_plan.specs.{declared.job.ScanSize.{ScanSize}, Order.{Place}};
ghost use Rattle.job_epochs.specs.{Sizes.{size_of}, Added.{width_of}};
ghost use Rattle.journal_image.specs.Image.{KeptEpoch};
ghost use Rattle.checkpoint_journal.specs.Standing.{StandsOn};
ghost use Rattle.journal_records.specs.{Kept.{kept_cells}, Places.{IsIntegration, place_from, place_of_integration}, Reading.{AddsNext, IsAdded}, Store.{store, IsCut, IsRoom, Tells, Reaches, Rests}};

use checkpoint_journal::{Journal, ReadFault};
use corr_model::Cell;
use dev_traits::Disk;
use job_epochs::add_cells;
use job_plan::{Plan, ScanPlan};
use piece_plan::JobPlan;

// Sets `sums` to the cells of integration `m` of a scan: what those of its epochs add up to. The journal is read up to its first
// epoch, and then up to its end. `body` has room for the cells of any epoch, and then has any cells.
pub(crate) fn sum_integration<D: Disk>(
    plan: &Plan,
    epochs: &JobPlan,
    scan: &ScanPlan,
    m: u64,
    sums: &mut [Cell],
    body: &mut [Cell],
    journal: &mut Journal,
    disk: &mut D,
) -> Result<(), ReadFault>
    requires cut { IsCut plan.now epochs.now }
    requires scan { IsScanPlan plan.now scan.now }
    requires inside { m < integrations_of plan.now scan.now }
    requires room { length sums.old ≡ width_of plan.now scan.now }
    requires body { IsRoom epochs.now (length body.old) }
    requires stands { StandsOn epochs.now journal.old (D.seen disk.old) (D.may_leave disk.old (D.moment disk.old)) }
    ensures sums { OnOk result ((number : ℕ) → slice_get plan.now.scans number ≡ Some scan.now
        → (id : List ℕ) (kept : List KeptEpoch)
        → Tells D.seen D.moment D.may_leave epochs.now id kept
        (place_of_integration epochs.now number (size_of plan.now scan.now) m) (store journal.old disk.old)
        → sums.new ≡ kept_cells plan.now kept number m) }
    ensures reaches { OnOk result ((number : ℕ) → slice_get plan.now.scans number ≡ Some scan.now
        → Reaches D.seen D.moment D.may_leave epochs.now
        (place_of_integration epochs.now number (size_of plan.now scan.now) m)
        (place_of_integration epochs.now number (size_of plan.now scan.now) (m + 1))
        (store journal.old disk.old) (store journal.new disk.new)) }
    ensures stands { StandsOn epochs.now journal.new (D.seen disk.new) (D.may_leave disk.new (D.moment disk.new)) }
    ensures rests { Rests D.seen D.moment D.may_leave epochs.now (store journal.old disk.old) (store journal.new disk.new) }
    ensures counts { Counts (D.faults disk.old) (D.faults disk.new) result }
{
    let from = m * plan.integration;
    let to = (from + plan.integration).min(scan.samples);
    clear(sums);
    add_epochs(epochs, from, to, sums, body, journal, disk)
}

// The number of cells of each of a scan's integrations.
pub(crate) fn width_of(plan: &Plan, scan: &ScanPlan) -> usize
    requires plan { IsPlan plan.now }
    requires scan { IsScanPlan plan.now scan.now }
    ensures { result ≡ width_of plan.now scan.now }
{
    plan.products.items().len() * scan.baselines.items().len() * plan.lags as usize
}

// Adds the cells of the epochs of an integration, which goes from one sample to another. There is no next epoch before its end
// only where the disk does not tell its content.
fn add_epochs<D: Disk>(
    epochs: &JobPlan,
    from: u64,
    to: u64,
    sums: &mut [Cell],
    body: &mut [Cell],
    journal: &mut Journal,
    disk: &mut D,
) -> Result<(), ReadFault>
    requires body { IsRoom epochs.now (length body.old) }
    requires stands { StandsOn epochs.now journal.old (D.seen disk.old) (D.may_leave disk.old (D.moment disk.old)) }
    ensures added { OnOk result ((number m : ℕ) (size : ScanSize) → IsIntegration epochs.now number size m from to
        → (id : List ℕ) (kept : List KeptEpoch)
        → Tells D.seen D.moment D.may_leave epochs.now id kept (place_from epochs.now number size m from) (store journal.old disk.old)
        → IsAdded epochs.now number size m to kept sums.old sums.new journal.new) }
    ensures stands { StandsOn epochs.now journal.new (D.seen disk.new) (D.may_leave disk.new (D.moment disk.new)) }
    ensures rests { Rests D.seen D.moment D.may_leave epochs.now (store journal.old disk.old) (store journal.new disk.new) }
    ensures counts { Counts (D.faults disk.old) (D.faults disk.new) result }
{
    let mut at = from;
    while at < to {
        match add_next(epochs, sums, body, journal, disk)? {
            Some(end) => at = end,
            None => return Ok(()),
        }
    }
    Ok(())
}

// Adds the cells of the next epoch, where there is one, and answers the sample at its end.
fn add_next<D: Disk>(
    epochs: &JobPlan,
    sums: &mut [Cell],
    body: &mut [Cell],
    journal: &mut Journal,
    disk: &mut D,
) -> Result<Option<u64>, ReadFault>
    requires body { IsRoom epochs.now (length body.old) }
    requires stands { StandsOn epochs.now journal.old (D.seen disk.old) (D.may_leave disk.old (D.moment disk.old)) }
    ensures added { IfOk result (λ end. (id : List ℕ) (kept : List KeptEpoch) (due : Option Place)
        → Tells D.seen D.moment D.may_leave epochs.now id kept due (store journal.old disk.old)
        → AddsNext epochs.now kept journal.old journal.new sums.old sums.new end) }
    ensures count { IfOk result (λ end. IfSome end
        (λ _. (journal.old.here.kept < journal.old.end.kept) × (journal.new.here.kept ≡ journal.old.here.kept + 1))) }
    ensures stands { StandsOn epochs.now journal.new (D.seen disk.new) (D.may_leave disk.new (D.moment disk.new)) }
    ensures rests { Rests D.seen D.moment D.may_leave epochs.now (store journal.old disk.old) (store journal.new disk.new) }
    ensures counts { Counts (D.faults disk.old) (D.faults disk.new) result }
{
    match journal.read_next(disk, epochs, body)? {
        Some(e) => {
            add_cells(sums, &body[..e.cells() as usize]);
            Ok(Some(e.to))
        }
        None => Ok(None),
    }
}

// Sets each cell to none.
fn clear(cells: &mut [Cell])
    ensures { cells.new ≡ replicate (length cells.old) no_cell }
{
    cells.fill(Cell::ZERO);
}
