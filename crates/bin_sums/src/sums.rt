//! The cells of an integration by bins.
ghost use Rattle.std.specs.Prelude.{◌≡◌, ◌<◌, ◌≤◌, None, Some, OnOk, length, replicate, slice_get};
ghost use Rattle.dev_traits.specs.Told.{WhereTold};
ghost use Rattle.corr_model.specs.Cell.{no_cell};
ghost use Rattle.job_plan.specs.{Values.{rotated}, Output.{integrations_of}};
ghost use Rattle.station_stream.specs.{Faults.{CountsReads}, Recorded.{AreRecorded}};
ghost use Rattle.pulsar_bins.specs.Scans.{no_phase};
ghost use Rattle.bin_sums.specs.{Ahead.{IsAheadOf}, Binned.{bin_width, integration_bin_cells}};

use crate::ahead::BinsAhead;
use crate::epoch::add_epoch;
use crate::epochs::epoch_at;
use corr_model::Cell;
use dev_traits::{Gate, Shelf};
use job_plan::ScanPlan;
use pulsar_bins::Bins;
use ready_job::Ready;
use station_stream::StreamFault;
use std::alloc::Global;
use std::thread::Threads;

/// Sets `cells` to those of integration `m` of a scan, whose number this is, by the bins of a pulse: by product, then by baseline,
/// then by bin, then by rising lag. It is summed epoch by epoch by `workers` threads, 1 to 64, in pieces of at most `piece` samples, 64
/// to 4,194,304; while one epoch is summed, the frames of the next one of the job are read into `ahead`. With a fault `cells` have any
/// values.
pub fn sum_integration<R: Threads + Sync, F: Shelf + Send, G: Gate + Sync>(
    rt: &R,
    alloc: Global,
    ready: &Ready,
    bins: &Bins,
    shelf: &mut F,
    ahead: &mut BinsAhead,
    number: u32,
    scan: &ScanPlan,
    m: u64,
    workers: u32,
    piece: u64,
    gate: &G,
    cells: &mut [Cell],
) -> Result<(), StreamFault>
    requires recorded { WhereTold (F.told shelf.old) (λ files. AreRecorded files ready.now.plan.stations ready.now.recordings.items) }
    requires ahead { IsAheadOf (F.told shelf.old) ready.now ahead.old }
    requires covered { no_phase bins.now ready.now.plan ≡ None }
    requires scan { slice_get ready.now.plan.scans number ≡ Some scan.now }
    requires inside { m < integrations_of ready.now.plan scan.now }
    requires room { length cells.old ≡ bin_width ready.now.plan bins.now scan.now }
    requires few { bin_width ready.now.plan bins.now scan.now ≤ 4194304 }
    requires workers { (1 ≤ workers) × (workers ≤ 64) }
    requires piece { (64 ≤ piece) × (piece ≤ 4194304) }
    ensures same { F.told shelf.new ≡ F.told shelf.old }
    ensures ahead { IsAheadOf (F.told shelf.old) ready.now ahead.new }
    ensures cells { OnOk result (WhereTold (F.told shelf.old) (λ files. cells.new
        ≡ integration_bin_cells ready.now.plan bins.now (rotated ready.now.plan files scan.now) scan.now m)) }
    ensures room { length cells.new ≡ length cells.old }
    ensures counts { CountsReads (F.faults shelf.old) (F.faults shelf.new) result }
{
    start(cells);
    let plan = ready.plan.plan();
    let from = m * plan.integration;
    let to = (from + plan.integration).min(scan.samples);
    let mut at = from;
    while at < to {
        let e = epoch_at(plan, number, scan, m, at);
        add_epoch(
            rt, alloc, ready, bins, shelf, ahead, scan, &e, workers, piece, gate, cells,
        )?;
        at = e.to;
    }
    Ok(())
}

// No pair is in any cell.
fn start(cells: &mut [Cell])
    ensures { cells.new ≡ replicate (length cells.old) no_cell }
{
    cells.fill(Cell::ZERO);
}
