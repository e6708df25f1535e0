//! The text of a job's bins: each integration is summed, and its records are appended before the next one is summed.
ghost use Rattle.std.specs.Prelude.{◌≡◌, ◌≤◌, ◌<◌, ◌*◌, ◌%◌, ◌^◌, Some, IfOk, flat_map, length, slice_get};
ghost use Rattle.std.specs.List.{All, enumerate_from, range_with_len};
ghost use Rattle.dev_traits.specs.Told.{WhereTold};
ghost use Rattle.corr_model.specs.Records.{places_of};
ghost use Rattle.sink_text.specs.Appends.{Appends};
ghost use Rattle.job_plan.specs.{Output.{head_of, integrations_of}, Values.{rotated}};
ghost use Rattle.station_stream.specs.Recorded.{AreRecorded};
ghost use Rattle.bin_sums.specs.Binned.{bin_width};
ghost use Rattle.run_bins.specs.{Jobs.{plan_of}, Rows.{sums_text}, Texts.{bin_output, scan_text, integration_text}, Writes.{WritesText, IsReady, of_sink, of_stream, scan_text_at}};

use crate::job::BinJob;
use crate::limit::{widest, width_of};
use crate::records::{Sizes, write_products};
use bin_records::{write_bin_end, write_bin_head};
use bin_sums::{BinsAhead, sum_integration};
use corr_model::Cell;
use dev_traits::{Gate, Shelf, Sink};
use job_plan::ScanPlan;
use pulsar_bins::Bins;
use run_notes::Refusal;
use station_stream::StreamFault;
use std::alloc::{AllocError, Global};
use std::thread::Threads;
use vis_records::{SinkFault, VisHead};
use vis_writer::{head_of_plan, record_count};

// Appends the text of a job's bins. All memory but that of an integration's values and sums is taken before the first byte.
pub(crate) fn write_job<R: Threads + Sync, F: Shelf + Send, S: Sink, G: Gate + Sync>(
    rt: &R,
    alloc: Global,
    job: &BinJob,
    workers: u32,
    piece: u64,
    shelf: &mut F,
    out: &mut S,
    gate: &G,
) -> Result<(), Refusal>
    requires recorded { WhereTold (F.told shelf.old) (λ files. AreRecorded files job.now.ready.plan.stations job.now.ready.recordings.items) }
    requires workers { (1 ≤ workers) × (workers ≤ 64) }
    requires piece { (64 ≤ piece) × (piece ≤ 4194304) }
    ensures { WritesText (F.told shelf.old) (F.told shelf.new) (F.faults shelf.old) (F.faults shelf.new) (bin_output (plan_of job.now))
        (S.told out.old) (S.told out.new) (S.faults out.old) (S.faults out.new) result }
{
    let Rooms { head, mut cells } = make_room(alloc, job)?;
    let mut ahead = BinsAhead::none(alloc);
    write_text(
        rt, alloc, job, &head, workers, piece, shelf, &mut ahead, &mut cells, out, gate,
    )
}

// What is taken before the first byte: the head, and room for the cells of an integration of any scan.
#[derive(Drop)]
struct Rooms {
    head: VisHead,
    cells: Vec<Cell>,
}

// The head of a job's bins, and the room.
fn make_room(alloc: Global, job: &BinJob) -> Result<Rooms, AllocError>
    ensures head { IfOk result (λ rooms. rooms.head ≡ head_of job.now.ready.plan) }
    ensures room { IfOk result (λ rooms. All (λ scan. bin_width job.now.ready.plan job.now.bins scan ≤ length rooms.cells.items) job.now.ready.plan.scans) }
{
    let plan = job.ready.plan.plan();
    let most = widest(plan, &job.bins, plan.scans.items());
    let head = head_of_plan(alloc, &job.ready.plan)?;
    let cells = vec![in alloc; Cell::ZERO; most]?;
    Ok(Rooms { head, cells })
}

// Appends the text of a job's bins, of which this is the head.
fn write_text<R: Threads + Sync, F: Shelf + Send, S: Sink, G: Gate + Sync>(
    rt: &R,
    alloc: Global,
    job: &BinJob,
    head: &VisHead,
    workers: u32,
    piece: u64,
    shelf: &mut F,
    ahead: &mut BinsAhead,
    cells: &mut [Cell],
    out: &mut S,
    gate: &G,
) -> Result<(), Refusal>
    requires head { head.now ≡ head_of job.now.ready.plan }
    requires ready { IsReady (F.told shelf.old) job.now ahead.old }
    requires room { All (λ scan. bin_width job.now.ready.plan job.now.bins scan ≤ length cells.old) job.now.ready.plan.scans }
    requires workers { (1 ≤ workers) × (workers ≤ 64) }
    requires piece { (64 ≤ piece) × (piece ≤ 4194304) }
    ensures { WritesText (F.told shelf.old) (F.told shelf.new) (F.faults shelf.old) (F.faults shelf.new) (bin_output (plan_of job.now))
        (S.told out.old) (S.told out.new) (S.faults out.old) (S.faults out.new) result }
{
    let bins = bin_count(&job.bins);
    sunk(write_bin_head(bins, head, out))?;
    write_scans(
        rt, alloc, job, workers, piece, shelf, ahead, cells, out, gate,
    )?;
    sunk(write_bin_end(record_total(head, bins), out))
}

// How many bins a turn of the pulse has.
fn bin_count(bins: &Bins) -> u32
    ensures { result ≡ bins.now.count }
{
    bins.count
}

// The lowest 64 bits of the number of records, where each of a head's has one for each bin.
fn record_total(head: &VisHead, bins: u32) -> u64
    ensures { result ≡ (length (places_of head.now) * bins) % 2 ^ 64 }
{
    record_count(head).wrapping_mul(u64::from(bins))
}

// The sink's answer as that of the command.
fn sunk(written: Result<(), SinkFault>) -> Result<(), Refusal>
    ensures { result ≡ of_sink written }
{
    match written {
        Ok(()) => Ok(()),
        Err(SinkFault::Sink) => Err(Refusal::Write),
    }
}

// The refusal of a fault of a stream.
fn unread(fault: StreamFault) -> Refusal
    ensures { result ≡ of_stream fault }
{
    match fault {
        StreamFault::Read => Refusal::Read,
        StreamFault::Memory => Refusal::Memory,
    }
}

// Appends the records of all scans.
fn write_scans<R: Threads + Sync, F: Shelf + Send, S: Sink, G: Gate + Sync>(
    rt: &R,
    alloc: Global,
    job: &BinJob,
    workers: u32,
    piece: u64,
    shelf: &mut F,
    ahead: &mut BinsAhead,
    cells: &mut [Cell],
    out: &mut S,
    gate: &G,
) -> Result<(), Refusal>
    requires ready { IsReady (F.told shelf.old) job.now ahead.old }
    requires room { All (λ scan. bin_width job.now.ready.plan job.now.bins scan ≤ length cells.old) job.now.ready.plan.scans }
    requires workers { (1 ≤ workers) × (workers ≤ 64) }
    requires piece { (64 ≤ piece) × (piece ≤ 4194304) }
    ensures { WritesText (F.told shelf.old) (F.told shelf.new) (F.faults shelf.old) (F.faults shelf.new)
        (λ files. flat_map (scan_text (plan_of job.now) files) (enumerate_from 0 job.now.ready.plan.scans))
        (S.told out.old) (S.told out.new) (S.faults out.old) (S.faults out.new) result }
{
    for number in 0..job.ready.plan.plan().scans.items().len() {
        write_scan(
            rt,
            alloc,
            job,
            number as u32,
            workers,
            piece,
            shelf,
            ahead,
            cells,
            out,
            gate,
        )?;
    }
    Ok(())
}

// Appends the records of the scan with this number.
fn write_scan<R: Threads + Sync, F: Shelf + Send, S: Sink, G: Gate + Sync>(
    rt: &R,
    alloc: Global,
    job: &BinJob,
    number: u32,
    workers: u32,
    piece: u64,
    shelf: &mut F,
    ahead: &mut BinsAhead,
    cells: &mut [Cell],
    out: &mut S,
    gate: &G,
) -> Result<(), Refusal>
    requires inside { number < length job.now.ready.plan.scans }
    requires ready { IsReady (F.told shelf.old) job.now ahead.old }
    requires room { All (λ scan. bin_width job.now.ready.plan job.now.bins scan ≤ length cells.old) job.now.ready.plan.scans }
    requires workers { (1 ≤ workers) × (workers ≤ 64) }
    requires piece { (64 ≤ piece) × (piece ≤ 4194304) }
    ensures written { WritesText (F.told shelf.old) (F.told shelf.new) (F.faults shelf.old) (F.faults shelf.new) (scan_text_at (plan_of job.now) number)
        (S.told out.old) (S.told out.new) (S.faults out.old) (S.faults out.new) result }
    ensures ready { IsReady (F.told shelf.new) job.now ahead.new }
{
    let plan = job.ready.plan.plan();
    let scan = &plan.scans.items()[number as usize];
    write_integrations(
        rt, alloc, job, number, scan, workers, piece, shelf, ahead, cells, out, gate,
    )
}

// Appends the records of each integration of a scan, whose number this is.
fn write_integrations<R: Threads + Sync, F: Shelf + Send, S: Sink, G: Gate + Sync>(
    rt: &R,
    alloc: Global,
    job: &BinJob,
    number: u32,
    scan: &ScanPlan,
    workers: u32,
    piece: u64,
    shelf: &mut F,
    ahead: &mut BinsAhead,
    cells: &mut [Cell],
    out: &mut S,
    gate: &G,
) -> Result<(), Refusal>
    requires scan { slice_get job.now.ready.plan.scans number ≡ Some scan.now }
    requires ready { IsReady (F.told shelf.old) job.now ahead.old }
    requires room { bin_width job.now.ready.plan job.now.bins scan.now ≤ length cells.old }
    requires workers { (1 ≤ workers) × (workers ≤ 64) }
    requires piece { (64 ≤ piece) × (piece ≤ 4194304) }
    ensures written { WritesText (F.told shelf.old) (F.told shelf.new) (F.faults shelf.old) (F.faults shelf.new) (λ files. scan_text (plan_of job.now) files (number, scan.now))
        (S.told out.old) (S.told out.new) (S.faults out.old) (S.faults out.new) result }
    ensures ready { IsReady (F.told shelf.new) job.now ahead.new }
{
    for m in 0..scan.samples.div_ceil(job.ready.plan.plan().integration) {
        write_integration(
            rt, alloc, job, number, scan, m, workers, piece, shelf, ahead, cells, out, gate,
        )?;
    }
    Ok(())
}

// Sums integration `m` of a scan, and appends its records.
fn write_integration<R: Threads + Sync, F: Shelf + Send, S: Sink, G: Gate + Sync>(
    rt: &R,
    alloc: Global,
    job: &BinJob,
    number: u32,
    scan: &ScanPlan,
    m: u64,
    workers: u32,
    piece: u64,
    shelf: &mut F,
    ahead: &mut BinsAhead,
    cells: &mut [Cell],
    out: &mut S,
    gate: &G,
) -> Result<(), Refusal>
    requires scan { slice_get job.now.ready.plan.scans number ≡ Some scan.now }
    requires inside { m < integrations_of job.now.ready.plan scan.now }
    requires ready { IsReady (F.told shelf.old) job.now ahead.old }
    requires room { bin_width job.now.ready.plan job.now.bins scan.now ≤ length cells.old }
    requires workers { (1 ≤ workers) × (workers ≤ 64) }
    requires piece { (64 ≤ piece) × (piece ≤ 4194304) }
    ensures written { WritesText (F.told shelf.old) (F.told shelf.new) (F.faults shelf.old) (F.faults shelf.new)
        (λ files. integration_text (plan_of job.now) (rotated job.now.ready.plan files scan.now) number scan.now m)
        (S.told out.old) (S.told out.new) (S.faults out.old) (S.faults out.new) result }
    ensures ready { IsReady (F.told shelf.new) job.now ahead.new }
{
    let plan = job.ready.plan.plan();
    let sums = &mut cells[..width_of(plan, &job.bins, scan)];
    match sum_integration(
        rt, alloc, &job.ready, &job.bins, shelf, ahead, number, scan, m, workers, piece, gate, sums,
    ) {
        Ok(()) => sunk(write_sums(job, number, scan, m, sums, out)),
        Err(fault) => Err(unread(fault)),
    }
}

// Appends the records of integration `m` of a scan with these sums.
fn write_sums<S: Sink>(
    job: &BinJob,
    number: u32,
    scan: &ScanPlan,
    m: u64,
    sums: &[Cell],
    out: &mut S,
) -> Result<(), SinkFault>
    requires scan { slice_get job.now.ready.plan.scans number ≡ Some scan.now }
    requires room { length sums.now ≡ bin_width job.now.ready.plan job.now.bins scan.now }
    ensures { Appends (S.told out.old) (S.told out.new) (sums_text (plan_of job.now) number scan.now m sums.now) (S.faults out.old) (S.faults out.new) result }
{
    let plan = job.ready.plan.plan();
    let sizes = Sizes {
        products: plan.products.items().len(),
        baselines: scan.baselines.items().len(),
        bins: job.bins.count,
        lags: plan.lags as usize,
    };
    write_products(number, m, &sizes, sums, out)
}
