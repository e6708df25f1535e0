//! The record file of a plan, on one thread: each integration is summed epoch by epoch, and its records are written before the
//! next one is read.
ghost use Rattle.std.specs.Prelude.{◌≡◌, ◌≤◌, ◌<◌, Some, flat_map, length, slice_get, IfErr, IfSome, option_copied, None};
ghost use Rattle.std.specs.{List.{range_with_len}, Str.{IsUtf8}};
ghost use Rattle.dev_traits.specs.Told.{WhereTold};
ghost use Rattle.corr_model.specs.Records.{vis_text};
ghost use Rattle.job_plan.specs.{Output.{head_of, integrations_of, output}, Ranges.{IsPlan, IsScanPlan}};
ghost use Rattle.job_epochs.specs.Added.{width_of};
ghost use Rattle.run_ready.specs.Outcome.{PlanOf};
ghost use Rattle.run_notes.specs.{Commands.{Tells, IsOfFilesOrOutput, IsOfOutput}, Counted.{CountsReads, CountsWrites}};
ghost use Rattle.station_stream.specs.Recorded.{AreNamed, AreRecorded};
ghost use Rattle.vis_writer.specs.{Cells.{all_cells, widest}, Texts.{integration_at, text_at, scans_text}, Writes.{Writes, Appended}};
ghost use Rattle.vlbi_core.specs.{Shelf.{ShelfState, state, head_at, cells_at, stays, fails}, Faults.{answer_with}, Steps.{MatchDue}};

use corr_model::Cell;
use dev_traits::{Shelf, Sink};
use job_plan::{Plan, ScanPlan};
use num_time::Name;
use plain_sums::sum_integration;
use ready_job::Ready;
use run_notes::Refusal;
use run_ready::prepare;
use station_stream::{Recording, StreamFault};
use std::alloc::Global;
use vis_records::{VisHead, write_end, write_head};
use vis_writer::{WriteFault, head_of_plan, record_count, sunk, widest, write_integration_at};

/// Correlates a job, and keeps nothing of it but the output.
pub fn plain_job<F: Shelf, S: Sink>(
    alloc: Global,
    job: &Name,
    vex: Option<&Name>,
    shelf: &mut F,
    out: &mut S,
) -> Result<(), Refusal>
    requires job_text { IsUtf8 job.now }
    requires vex_text { IfSome vex (λ name. IsUtf8 name.now) }
    ensures same { F.told shelf.new ≡ F.told shelf.old }
    ensures tells { WhereTold (F.told shelf.old) (λ files. Tells (PlanOf files job.now (option_copied vex.entry) None) (λ plan. output plan files) (S.told out.old) (S.told out.new) result) }
    ensures nothing { IfErr result (λ r. MatchDue r (S.told out.new ≡ S.told out.old)) }
    ensures stage { IfErr result IsOfFilesOrOutput }
    ensures reads { CountsReads (F.faults shelf.old) (F.faults shelf.new) result }
    ensures writes { CountsWrites (S.faults out.old) (S.faults out.new) result }
{
    let ready = prepare(alloc, job, vex, None, shelf)?;
    write_plan(alloc, &ready, shelf, out)
}

// Appends the record file of a plan. All memory but that of an integration's values and sums is taken before the first byte.
fn write_plan<F: Shelf, S: Sink>(
    alloc: Global,
    ready: &Ready,
    shelf: &mut F,
    out: &mut S,
) -> Result<(), Refusal>
    requires recorded { WhereTold (F.told shelf.old) (λ files. AreRecorded files ready.now.plan.stations ready.now.recordings.items) }
    ensures same { F.told shelf.new ≡ F.told shelf.old }
    ensures written { WhereTold (F.told shelf.old) (λ files. Appended (S.told out.old) (output ready.now.plan files) (S.told out.new) result) }
    ensures stage { IfErr result IsOfOutput }
    ensures reads { CountsReads (F.faults shelf.old) (F.faults shelf.new) result }
    ensures writes { CountsWrites (S.faults out.old) (S.faults out.new) result }
{
    let head = head_of_plan(alloc, &ready.plan)?;
    let mut buffer = vec![in alloc; Cell::ZERO; widest(&head)]?;
    answer(write_file(alloc, ready, &head, &mut buffer, shelf, out))
}

// The answer of a call that wrote a file.
fn answer(written: Result<(), WriteFault<StreamFault>>) -> Result<(), Refusal>
    ensures { result ≡ answer_with written }
{
    match written {
        Ok(()) => Ok(()),
        Err(WriteFault::Source(StreamFault::Read)) => Err(Refusal::Read),
        Err(WriteFault::Source(StreamFault::Memory)) => Err(Refusal::Memory),
        Err(WriteFault::Sink) => Err(Refusal::Write),
    }
}

// Appends the record file of a plan with this head.
fn write_file<F: Shelf, S: Sink>(
    alloc: Global,
    ready: &Ready,
    head: &VisHead,
    buffer: &mut [Cell],
    shelf: &mut F,
    out: &mut S,
) -> Result<(), WriteFault<StreamFault>>
    requires head { head.now ≡ head_of ready.now.plan }
    requires room { widest head.now ≤ length buffer.old }
    requires recorded { WhereTold (F.told shelf.old) (λ files. AreRecorded files ready.now.plan.stations ready.now.recordings.items) }
    ensures { Writes (head_at ready.now.plan) (cells_at ready.now.plan) stays fails (λ of. vis_text head.now (all_cells head.now of))
        (state (F.told shelf.old) (F.faults shelf.old)) (state (F.told shelf.new) (F.faults shelf.new))
        (S.told out.old) (S.told out.new) (S.faults out.old) (S.faults out.new) result }
{
    sunk(write_head(head, out))?;
    write_scans(alloc, ready, head, buffer, shelf, out)?;
    sunk(write_end(record_count(head), out))
}

// Appends the records of all scans.
fn write_scans<F: Shelf, S: Sink>(
    alloc: Global,
    ready: &Ready,
    head: &VisHead,
    buffer: &mut [Cell],
    shelf: &mut F,
    out: &mut S,
) -> Result<(), WriteFault<StreamFault>>
    requires head { head.now ≡ head_of ready.now.plan }
    requires room { widest head.now ≤ length buffer.old }
    requires recorded { WhereTold (F.told shelf.old) (λ files. AreRecorded files ready.now.plan.stations ready.now.recordings.items) }
    ensures { Writes (head_at ready.now.plan) (cells_at ready.now.plan) stays fails (λ of. scans_text head.now of)
        (state (F.told shelf.old) (F.faults shelf.old)) (state (F.told shelf.new) (F.faults shelf.new))
        (S.told out.old) (S.told out.new) (S.faults out.old) (S.faults out.new) result }
{
    for number in 0..ready.plan.plan().scans.items().len() {
        write_scan(alloc, ready, head, number as u32, buffer, shelf, out)?;
    }
    Ok(())
}

// Appends the records of a scan, by its number.
fn write_scan<F: Shelf, S: Sink>(
    alloc: Global,
    ready: &Ready,
    head: &VisHead,
    number: u32,
    buffer: &mut [Cell],
    shelf: &mut F,
    out: &mut S,
) -> Result<(), WriteFault<StreamFault>>
    requires head { head.now ≡ head_of ready.now.plan }
    requires inside { number < length ready.now.plan.scans }
    requires room { widest head.now ≤ length buffer.old }
    requires recorded { WhereTold (F.told shelf.old) (λ files. AreRecorded files ready.now.plan.stations ready.now.recordings.items) }
    ensures { Writes (head_at ready.now.plan) (cells_at ready.now.plan) stays fails (λ of. text_at head.now of number)
        (state (F.told shelf.old) (F.faults shelf.old)) (state (F.told shelf.new) (F.faults shelf.new))
        (S.told out.old) (S.told out.new) (S.faults out.old) (S.faults out.new) result }
{
    let plan = ready.plan.plan();
    let scan = &plan.scans.items()[number as usize];
    write_integrations(
        alloc,
        plan,
        scan,
        &ready.recordings,
        head,
        number,
        buffer,
        shelf,
        out,
    )
}

// Appends the records of each integration of a scan, whose number this is.
fn write_integrations<F: Shelf, S: Sink>(
    alloc: Global,
    plan: &Plan,
    scan: &ScanPlan,
    recordings: &[Recording],
    head: &VisHead,
    number: u32,
    buffer: &mut [Cell],
    shelf: &mut F,
    out: &mut S,
) -> Result<(), WriteFault<StreamFault>>
    requires plan { IsPlan plan.now }
    requires scan { slice_get plan.now.scans number ≡ Some scan.now }
    requires named { AreNamed plan.now.stations recordings.now }
    requires recorded { WhereTold (F.told shelf.old) (λ files. AreRecorded files plan.now.stations recordings.now) }
    requires head { head.now ≡ head_of plan.now }
    requires room { widest head.now ≤ length buffer.old }
    ensures { Writes (head_at plan.now) (cells_at plan.now) stays fails (λ of. flat_map (λ m. integration_at head.now number m (of number m)) (range_with_len 0 (integrations_of plan.now scan.now)))
        (state (F.told shelf.old) (F.faults shelf.old)) (state (F.told shelf.new) (F.faults shelf.new))
        (S.told out.old) (S.told out.new) (S.faults out.old) (S.faults out.new) result }
{
    for m in 0..scan.samples.div_ceil(plan.integration) {
        write_integration(
            alloc, plan, scan, recordings, head, number, m, buffer, shelf, out,
        )?;
    }
    Ok(())
}

// Sums integration `m` of a scan, and appends its records.
fn write_integration<F: Shelf, S: Sink>(
    alloc: Global,
    plan: &Plan,
    scan: &ScanPlan,
    recordings: &[Recording],
    head: &VisHead,
    number: u32,
    m: u64,
    buffer: &mut [Cell],
    shelf: &mut F,
    out: &mut S,
) -> Result<(), WriteFault<StreamFault>>
    requires plan { IsPlan plan.now }
    requires scan { slice_get plan.now.scans number ≡ Some scan.now }
    requires inside { m < integrations_of plan.now scan.now }
    requires named { AreNamed plan.now.stations recordings.now }
    requires recorded { WhereTold (F.told shelf.old) (λ files. AreRecorded files plan.now.stations recordings.now) }
    requires head { head.now ≡ head_of plan.now }
    requires room { widest head.now ≤ length buffer.old }
    ensures { Writes (head_at plan.now) (cells_at plan.now) stays fails (λ of. integration_at head.now number m (of number m))
        (state (F.told shelf.old) (F.faults shelf.old)) (state (F.told shelf.new) (F.faults shelf.new))
        (S.told out.old) (S.told out.new) (S.faults out.old) (S.faults out.new) result }
{
    let count = cell_count(plan, scan);
    let cells = &mut buffer[..count];
    match sum_integration(alloc, shelf, plan, scan, recordings, m, cells) {
        Ok(()) => sunk(write_integration_at(head, number, m, cells, out)),
        Err(fault) => Err(WriteFault::Source(fault)),
    }
}

// How many cells an integration of a scan has.
fn cell_count(plan: &Plan, scan: &ScanPlan) -> usize
    requires plan { IsPlan plan.now }
    requires scan { IsScanPlan plan.now scan.now }
    ensures { result ≡ width_of plan.now scan.now }
{
    let records = plan.products.items().len() * scan.baselines.items().len();
    records * plan.lags as usize
}
