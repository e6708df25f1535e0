//! The cells of an integration.
ghost use Rattle.std.specs.Prelude.{◌≡◌, ◌≤◌, ◌<◌, ◌-◌, ◌*◌, length, replicate, OnOk};
ghost use Rattle.dev_traits.specs.Told.{WhereTold};
ghost use Rattle.corr_model.specs.Cell.{no_cell};
ghost use Rattle.job_plan.specs.{Ranges.{IsPlan, IsScanPlan}, Values.{rotated}, Output.{integrations_of, integration_cells}};
ghost use Rattle.job_epochs.specs.{Sums.{range_cells}, Added.{add_cells, width_of}};
ghost use Rattle.station_stream.specs.{Faults.{CountsReads}, Recorded.{AreNamed, AreRecorded}};

use crate::records::add_range;
use crate::values::ScanValues;
use corr_model::Cell;
use dev_traits::Shelf;
use job_plan::{Plan, ScanPlan};
use station_stream::{Recording, StreamFault};
use std::alloc::Global;

// The most samples whose values are in memory at a time, beside those that their lags reach.
const PART: u64 = 262_144;

/// Sets `cells` to those of integration `m` of a scan: by product, then by baseline, then by rising lag. The values are read
/// one part after another, each with the samples that its lags reach: an epoch, or 262,144 samples where an epoch has more.
pub fn sum_integration<F: Shelf>(
    alloc: Global,
    shelf: &mut F,
    plan: &Plan,
    scan: &ScanPlan,
    recordings: &[Recording],
    m: u64,
    cells: &mut [Cell],
) -> Result<(), StreamFault>
    requires plan { IsPlan plan.now }
    requires scan { IsScanPlan plan.now scan.now }
    requires named { AreNamed plan.now.stations recordings.now }
    requires recorded { WhereTold (F.told shelf.old) (λ files. AreRecorded files plan.now.stations recordings.now) }
    requires inside { m < integrations_of plan.now scan.now }
    requires room { length cells.old ≡ length plan.now.products * length scan.now.baselines * plan.now.lags }
    ensures same { F.told shelf.new ≡ F.told shelf.old }
    ensures cells { OnOk result (WhereTold (F.told shelf.old) (λ files. cells.new ≡ integration_cells plan.now (rotated plan.now files scan.now) scan.now m)) }
    ensures counts { CountsReads (F.faults shelf.old) (F.faults shelf.new) result }
{
    let mut lags = vec![in alloc; Cell::ZERO; plan.lags as usize]?;
    start(cells);
    let from = m * plan.integration;
    let to = (from + plan.integration).min(scan.samples);
    let size = plan.epoch.min(PART);
    let mut at = from;
    while at < to {
        let end = (at + size).min(to);
        add_part(
            alloc, shelf, plan, scan, recordings, at, end, &mut lags, cells,
        )?;
        at = end;
    }
    Ok(())
}

// No pair is in any cell.
fn start(cells: &mut [Cell])
    ensures { cells.new ≡ replicate (length cells.old) no_cell }
{
    cells.fill(Cell::ZERO);
}

// Adds the cells of a part, the samples from `from` up to, not including, `to`. `lags` has room for the cells of a record.
fn add_part<F: Shelf>(
    alloc: Global,
    shelf: &mut F,
    plan: &Plan,
    scan: &ScanPlan,
    recordings: &[Recording],
    from: u64,
    to: u64,
    lags: &mut [Cell],
    cells: &mut [Cell],
) -> Result<(), StreamFault>
    requires plan { IsPlan plan.now }
    requires scan { IsScanPlan plan.now scan.now }
    requires named { AreNamed plan.now.stations recordings.now }
    requires recorded { WhereTold (F.told shelf.old) (λ files. AreRecorded files plan.now.stations recordings.now) }
    requires order { from ≤ to }
    requires inside { to ≤ scan.now.samples }
    requires range { to - from ≤ plan.now.epoch }
    requires lags { length lags.old ≡ plan.now.lags }
    requires room { length cells.old ≡ width_of plan.now scan.now }
    ensures same { F.told shelf.new ≡ F.told shelf.old }
    ensures added { OnOk result (WhereTold (F.told shelf.old)
        (λ files. cells.new ≡ add_cells cells.old (range_cells plan.now (rotated plan.now files scan.now) scan.now from to))) }
    ensures counts { CountsReads (F.faults shelf.old) (F.faults shelf.new) result }
{
    let most = u64::from(plan.lags / 2);
    let first = from.saturating_sub(most);
    let end = (to + most - 1).min(scan.samples);
    let values = ScanValues::load(alloc, shelf, plan, scan, recordings, first, end)?;
    add_range(plan, scan, &values, from, to, lags, cells);
    Ok(())
}
