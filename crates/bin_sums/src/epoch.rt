//! One epoch, summed while the next one is read.
ghost use Rattle.std.specs.Prelude.{◌≡◌, ◌≤◌, ◌<◌, true, None, Option, IfOk, IfSome, OnOk, length};
ghost use Rattle.dev_traits.specs.Told.{WhereTold};
ghost use Rattle.corr_model.specs.Files.{Files};
ghost use Rattle.job_plan.specs.Values.{rotated};
ghost use Rattle.job_epochs.specs.Added.{add_cells, plus_wrapped};
ghost use Rattle.station_stream.specs.{Faults.{CountsReads}, Recorded.{AreRecorded}};
ghost use Rattle.pulsar_bins.specs.Scans.{has_phase};
ghost use Rattle.run_sums.specs.{Pairs.{pairs_in}, Reach.{HoldsEpoch}};
ghost use Rattle.bin_sums.specs.{Ahead.{IsAheadOf, IsHeld, IsOfJob, IsOfScan}, Binned.{bin_width}, Range.{range_bin_cells}};

use crate::ahead::{BinsAhead, Held, read_held, take_values};
use crate::epochs::epoch_behind;
use atomic_sums::EpochSums;
use corr_model::Cell;
use dev_traits::{Gate, Shelf};
use epoch_run::sum_bins;
use job_plan::ScanPlan;
use piece_plan::EpochPlan;
use pulsar_bins::{Bins, phase_in};
use ready_job::Ready;
use run_sums::{EpochValues, Spare};
use station_stream::StreamFault;
use std::alloc::{AllocError, Global};
use std::thread::{Threads, join_mut};

// The sums of an epoch, and what of the job is read behind it.
#[derive(Drop)]
struct Summed {
    sums: EpochSums,
    held: Option<Held>,
}

/// Adds the sums of an epoch of a scan to `cells`, and reads the frames of the next epoch of the job at the same time. `workers` and
/// `piece` are as for `sum_integration`. A read fault is answered before want of memory for the sums; with a fault nothing is ahead.
pub(crate) fn add_epoch<R: Threads + Sync, F: Shelf + Send, G: Gate + Sync>(
    rt: &R,
    alloc: Global,
    ready: &Ready,
    bins: &Bins,
    shelf: &mut F,
    ahead: &mut BinsAhead,
    scan: &ScanPlan,
    e: &EpochPlan,
    workers: u32,
    piece: u64,
    gate: &G,
    cells: &mut [Cell],
) -> Result<(), StreamFault>
    requires recorded { WhereTold (F.told shelf.old) (λ files. AreRecorded files ready.now.plan.stations ready.now.recordings.items) }
    requires ahead { IsAheadOf (F.told shelf.old) ready.now ahead.old }
    requires covered { has_phase ready.now.plan bins.now scan.now ≡ true }
    requires epoch { IsOfScan ready.now.plan scan.now e.now }
    requires room { length cells.old ≡ bin_width ready.now.plan bins.now scan.now }
    requires few { bin_width ready.now.plan bins.now scan.now ≤ 4194304 }
    requires workers { (1 ≤ workers) × (workers ≤ 64) }
    requires piece { (64 ≤ piece) × (piece ≤ 4194304) }
    ensures same { F.told shelf.new ≡ F.told shelf.old }
    ensures ahead { IsAheadOf (F.told shelf.old) ready.now ahead.new }
    ensures added { OnOk result (WhereTold (F.told shelf.old) (λ files. cells.new
        ≡ add_cells cells.old (range_bin_cells ready.now.plan bins.now (rotated ready.now.plan files scan.now) scan.now e.now.from e.now.to))) }
    ensures counts { CountsReads (F.faults shelf.old) (F.faults shelf.new) result }
{
    let plan = ready.plan.plan();
    let values = take_values(rt, alloc, ready, shelf, ahead, scan, e, workers)?;
    let next = epoch_behind(plan, scan, e);
    let spare = &mut ahead.spare;
    let summed = sum_and_read(
        rt, alloc, ready, bins, shelf, spare, scan, e, &values, next, workers, piece, gate,
    )?;
    add_sums(cells, &summed.sums);
    ahead.spare.keep(Some(values));
    ahead.held = summed.held;
    Ok(())
}

// Sums an epoch, and reads the frames of the epoch `next` at the same time, in room of `spare`.
fn sum_and_read<R: Threads + Sync, F: Shelf + Send, G: Gate + Sync>(
    rt: &R,
    alloc: Global,
    ready: &Ready,
    bins: &Bins,
    shelf: &mut F,
    spare: &mut Spare,
    scan: &ScanPlan,
    e: &EpochPlan,
    values: &EpochValues,
    next: Option<EpochPlan>,
    workers: u32,
    piece: u64,
    gate: &G,
) -> Result<Summed, StreamFault>
    requires recorded { WhereTold (F.told shelf.old) (λ files. AreRecorded files ready.now.plan.stations ready.now.recordings.items) }
    requires covered { has_phase ready.now.plan bins.now scan.now ≡ true }
    requires epoch { IsOfScan ready.now.plan scan.now e.now }
    requires pairs { values.now.pairs.items ≡ pairs_in ready.now.plan scan.now }
    requires next { IfSome next (IsOfJob ready.now.plan) }
    requires few { bin_width ready.now.plan bins.now scan.now ≤ 4194304 }
    requires workers { (1 ≤ workers) × (workers ≤ 64) }
    requires piece { (64 ≤ piece) × (piece ≤ 4194304) }
    ensures same { F.told shelf.new ≡ F.told shelf.old }
    ensures held { IfOk result (λ summed. IfSome summed.held (IsHeld (F.told shelf.old) ready.now)) }
    ensures sums { IfOk result (λ summed. (told : Option Files) → HoldsEpoch told ready.now.plan scan.now e.now values.now
        → WhereTold told (λ files. summed.sums.cells
        ≡ range_bin_cells ready.now.plan bins.now (rotated ready.now.plan files scan.now) scan.now e.now.from e.now.to)) }
    ensures count { IfOk result (λ summed. length summed.sums.cells ≡ bin_width ready.now.plan bins.now scan.now) }
    ensures counts { CountsReads (F.faults shelf.old) (F.faults shelf.new) result }
{
    let (read, summed) = join_mut(
        rt,
        &mut ||
            requires recorded { WhereTold (F.told shelf.now) (λ files. AreRecorded files ready.now.plan.stations ready.now.recordings.items) }
            requires next { IfSome next (IsOfJob ready.now.plan) }
        { read_held(alloc, spare, ready, shelf, next) },
        &mut ||
            requires covered { has_phase ready.now.plan bins.now scan.now ≡ true }
            requires epoch { IsOfScan ready.now.plan scan.now e.now }
            requires pairs { values.now.pairs.items ≡ pairs_in ready.now.plan scan.now }
            requires few { bin_width ready.now.plan bins.now scan.now ≤ 4194304 }
            requires workers { (1 ≤ workers) × (workers ≤ 64) }
            requires piece { (64 ≤ piece) × (piece ≤ 4194304) }
        {
            sum_epoch(
                rt, alloc, ready, bins, scan, e, values, workers, piece, gate,
            )
        },
    );
    let held = read?;
    let sums = summed?;
    Ok(Summed { sums, held })
}

// The sums of an epoch by bins, from values that the epoch's lags reach.
fn sum_epoch<R: Threads + Sync, G: Gate + Sync>(
    rt: &R,
    alloc: Global,
    ready: &Ready,
    bins: &Bins,
    scan: &ScanPlan,
    e: &EpochPlan,
    values: &EpochValues,
    workers: u32,
    piece: u64,
    gate: &G,
) -> Result<EpochSums, AllocError>
    requires covered { has_phase ready.now.plan bins.now scan.now ≡ true }
    requires epoch { IsOfScan ready.now.plan scan.now e.now }
    requires pairs { values.now.pairs.items ≡ pairs_in ready.now.plan scan.now }
    requires few { bin_width ready.now.plan bins.now scan.now ≤ 4194304 }
    requires workers { (1 ≤ workers) × (workers ≤ 64) }
    requires piece { (64 ≤ piece) × (piece ≤ 4194304) }
    ensures sums { IfOk result (λ sums. (told : Option Files) → HoldsEpoch told ready.now.plan scan.now e.now values.now
        → WhereTold told (λ files. sums.cells
        ≡ range_bin_cells ready.now.plan bins.now (rotated ready.now.plan files scan.now) scan.now e.now.from e.now.to)) }
    ensures count { IfOk result (λ sums. length sums.cells ≡ bin_width ready.now.plan bins.now scan.now) }
{
    let plan = ready.plan.plan();
    let track = phase_in(bins, plan, scan);
    let sums = sum_bins(
        rt,
        alloc,
        &values.planes,
        &values.pairs,
        scan.samples,
        e,
        &track,
        bins.count,
        piece,
        workers,
        gate,
    )?;
    Ok(sums)
}

// Adds the cells of an epoch.
fn add_sums(cells: &mut [Cell], sums: &EpochSums)
    requires { length cells.old ≡ length sums.now.cells }
    ensures { cells.new ≡ add_cells cells.old sums.now.cells }
{
    for (i, cell) in cells.iter_mut().enumerate() {
        *cell = plus(cell, &sums.cell(i as u64));
    }
}

// The sum of two cells. No number of a scan's cells reaches 64 bits, so none wraps.
fn plus(cell: &Cell, more: &Cell) -> Cell
    ensures { result ≡ plus_wrapped cell.now more.now }
{
    let re = cell.re.wrapping_add(more.re);
    let im = cell.im.wrapping_add(more.im);
    let count = cell.count.wrapping_add(more.count);
    Cell { re, im, count }
}
