//! The records of a journal.
ghost use Rattle.std.specs.Prelude.{◌≡◌, ◌+◌, ◌≤◌, ◌<◌, List, ℕ, None, Some, IfErr, OnOk, flat_map, length, slice_get};
ghost use Rattle.std.specs.List.{range_with_len};
ghost use Rattle.dev_traits.specs.Told.{WhereTold};
ghost use Rattle.corr_model.specs.Records.{vis_text};
ghost use Rattle.job_plan.specs.Output.{head_of, integrations_of};
ghost use Rattle.job_epochs.specs.{Sizes.{size_of}, Added.{width_of}};
ghost use Rattle.checkpoint_journal.specs.{Runs.{Looks}, Standing.{Stands, StandsOn}};
ghost use Rattle.vis_writer.specs.{Cells.{all_cells, widest}, Texts.{integration_at, scans_text, text_at}};
ghost use Rattle.journal_records.specs.{Answer.{answer_with, fault_of}, Counted.{CountsJournal, CountsWrites}, Kept.{Grows, WritesKept}, Places.{place_of_integration, place_of_scan}};
ghost use Rattle.journal_records.specs.{Refused.{IsOfRecords}, Store.{store, IsCut, IsRoom, Reaches, WritesCells}};

use crate::EmitFault;
use crate::sums::{sum_integration, width_of};
use checkpoint_journal::{Journal, ReadFault};
use corr_model::Cell;
use dev_traits::{Disk, Sink};
use job_plan::{Plan, ScanPlan};
use piece_plan::JobPlan;
use ready_job::Ready;
use std::alloc::Global;
use vis_records::{VisHead, write_end, write_head};
use vis_writer::{WriteFault, head_of_plan, record_count, sunk, widest, write_integration_at};

/// Appends the record file of a job that the journal's epochs cover: its head, the records of each integration, whose cells are
/// what those of its epochs add up to, and its end. All memory is taken before the first byte.
pub fn emit<D: Disk, S: Sink>(
    alloc: Global,
    ready: &Ready,
    journal: &mut Journal,
    disk: &mut D,
    out: &mut S,
) -> Result<(), EmitFault>
    requires stands { StandsOn ready.now.epochs journal.old (D.seen disk.old) (D.may_leave disk.old (D.moment disk.old)) }
    requires covers { journal.old.end.next ≡ None }
    ensures written { (id : List ℕ) → Stands id ready.now.epochs journal.old (D.seen disk.old) (D.may_leave disk.old (D.moment disk.old))
        → WhereTold (D.seen disk.old) (λ image. WritesKept id ready.now.plan image (S.told out.old) (S.told out.new) result) }
    ensures grows { Grows (S.told out.old) (S.told out.new) result }
    ensures stands { (id : List ℕ) → Stands id ready.now.epochs journal.old (D.seen disk.old) (D.may_leave disk.old (D.moment disk.old))
        → Stands id ready.now.epochs journal.new (D.seen disk.new) (D.may_leave disk.new (D.moment disk.new)) }
    ensures looks { Looks D.seen D.moment D.may_leave disk.old disk.new }
    ensures refused { IfErr result (IsOfRecords journal.old.end.kept (S.told out.old) (S.told out.new)) }
    ensures journal { CountsJournal (D.faults disk.old) (D.faults disk.new) result }
    ensures writes { CountsWrites (S.faults out.old) (S.faults out.new) result }
{
    let head = head_of_plan(alloc, &ready.plan)?;
    let mut cells = vec![in alloc; Cell::ZERO; widest(&head)]?;
    let mut body = vec![in alloc; Cell::ZERO; widest(&head)]?;
    let plan = ready.plan.plan();
    let kept = journal.kept();
    journal.rewind();
    let written = write_file(
        plan,
        &ready.epochs,
        &head,
        &mut cells,
        &mut body,
        journal,
        disk,
        out,
    );
    answer(kept, written)
}

// The answer of a call that wrote a file from a journal of so many epochs.
fn answer(kept: u64, written: Result<(), WriteFault<ReadFault>>) -> Result<(), EmitFault>
    ensures { result ≡ answer_with kept written }
{
    match written {
        Ok(()) => Ok(()),
        Err(fault) => Err(fault_of(kept, fault)),
    }
}

// Why the writing ended, by the fault of such a call.
fn fault_of(kept: u64, fault: WriteFault<ReadFault>) -> EmitFault
    ensures { result ≡ fault_of kept fault }
{
    match fault {
        WriteFault::Source(ReadFault::Disk) => EmitFault::Journal(kept),
        WriteFault::Sink => EmitFault::Write,
    }
}

// Appends the record file with this head, from a journal that is read from its first epoch on.
fn write_file<D: Disk, S: Sink>(
    plan: &Plan,
    epochs: &JobPlan,
    head: &VisHead,
    cells: &mut [Cell],
    body: &mut [Cell],
    journal: &mut Journal,
    disk: &mut D,
    out: &mut S,
) -> Result<(), WriteFault<ReadFault>>
    requires cut { IsCut plan.now epochs.now }
    requires head { head.now ≡ head_of plan.now }
    requires room { widest head.now ≤ length cells.old }
    requires body { IsRoom epochs.now (length body.old) }
    requires stands { StandsOn epochs.now journal.old (D.seen disk.old) (D.may_leave disk.old (D.moment disk.old)) }
    ensures { WritesCells D.seen D.moment D.may_leave D.faults plan.now epochs.now (place_of_scan epochs.now 0)
        (λ of. vis_text head.now (all_cells head.now of))
        (store journal.old disk.old) (store journal.new disk.new)
        (S.told out.old) (S.told out.new) (S.faults out.old) (S.faults out.new) result }
{
    sunk(write_head(head, out))?;
    write_scans(plan, epochs, head, cells, body, journal, disk, out)?;
    sunk(write_end(record_count(head), out))
}

// Appends the records of each scan.
fn write_scans<D: Disk, S: Sink>(
    plan: &Plan,
    epochs: &JobPlan,
    head: &VisHead,
    cells: &mut [Cell],
    body: &mut [Cell],
    journal: &mut Journal,
    disk: &mut D,
    out: &mut S,
) -> Result<(), WriteFault<ReadFault>>
    requires cut { IsCut plan.now epochs.now }
    requires head { head.now ≡ head_of plan.now }
    requires room { widest head.now ≤ length cells.old }
    requires body { IsRoom epochs.now (length body.old) }
    requires stands { StandsOn epochs.now journal.old (D.seen disk.old) (D.may_leave disk.old (D.moment disk.old)) }
    ensures { WritesCells D.seen D.moment D.may_leave D.faults plan.now epochs.now (place_of_scan epochs.now 0)
        (λ of. scans_text head.now of)
        (store journal.old disk.old) (store journal.new disk.new)
        (S.told out.old) (S.told out.new) (S.faults out.old) (S.faults out.new) result }
{
    for number in 0..plan.scans.items().len() {
        write_scan(
            plan,
            epochs,
            head,
            number as u32,
            cells,
            body,
            journal,
            disk,
            out,
        )?;
    }
    Ok(())
}

// Appends the records of a scan, by its number. The journal is read up to its first epoch, and then up to its end.
fn write_scan<D: Disk, S: Sink>(
    plan: &Plan,
    epochs: &JobPlan,
    head: &VisHead,
    number: u32,
    cells: &mut [Cell],
    body: &mut [Cell],
    journal: &mut Journal,
    disk: &mut D,
    out: &mut S,
) -> Result<(), WriteFault<ReadFault>>
    requires cut { IsCut plan.now epochs.now }
    requires head { head.now ≡ head_of plan.now }
    requires inside { number < length plan.now.scans }
    requires room { widest head.now ≤ length cells.old }
    requires body { IsRoom epochs.now (length body.old) }
    requires stands { StandsOn epochs.now journal.old (D.seen disk.old) (D.may_leave disk.old (D.moment disk.old)) }
    ensures written { WritesCells D.seen D.moment D.may_leave D.faults plan.now epochs.now (place_of_scan epochs.now number)
        (λ of. text_at head.now of number)
        (store journal.old disk.old) (store journal.new disk.new)
        (S.told out.old) (S.told out.new) (S.faults out.old) (S.faults out.new) result }
    ensures reaches { OnOk result (Reaches D.seen D.moment D.may_leave epochs.now
        (place_of_scan epochs.now number) (place_of_scan epochs.now (number + 1))
        (store journal.old disk.old) (store journal.new disk.new)) }
    ensures stands { StandsOn epochs.now journal.new (D.seen disk.new) (D.may_leave disk.new (D.moment disk.new)) }
{
    let scan = &plan.scans.items()[number as usize];
    write_integrations(
        plan, epochs, head, number, scan, cells, body, journal, disk, out,
    )
}

// Appends the records of each integration of a scan.
fn write_integrations<D: Disk, S: Sink>(
    plan: &Plan,
    epochs: &JobPlan,
    head: &VisHead,
    number: u32,
    scan: &ScanPlan,
    cells: &mut [Cell],
    body: &mut [Cell],
    journal: &mut Journal,
    disk: &mut D,
    out: &mut S,
) -> Result<(), WriteFault<ReadFault>>
    requires cut { IsCut plan.now epochs.now }
    requires head { head.now ≡ head_of plan.now }
    requires scan { slice_get plan.now.scans number ≡ Some scan.now }
    requires room { width_of plan.now scan.now ≤ length cells.old }
    requires body { IsRoom epochs.now (length body.old) }
    requires stands { StandsOn epochs.now journal.old (D.seen disk.old) (D.may_leave disk.old (D.moment disk.old)) }
    ensures written { WritesCells D.seen D.moment D.may_leave D.faults plan.now epochs.now
        (place_of_integration epochs.now number (size_of plan.now scan.now) 0)
        (λ of. flat_map (λ m. integration_at head.now number m (of number m)) (range_with_len 0 (integrations_of plan.now scan.now)))
        (store journal.old disk.old) (store journal.new disk.new)
        (S.told out.old) (S.told out.new) (S.faults out.old) (S.faults out.new) result }
    ensures reaches { OnOk result (Reaches D.seen D.moment D.may_leave epochs.now
        (place_of_integration epochs.now number (size_of plan.now scan.now) 0)
        (place_of_integration epochs.now number (size_of plan.now scan.now) (integrations_of plan.now scan.now))
        (store journal.old disk.old) (store journal.new disk.new)) }
    ensures stands { StandsOn epochs.now journal.new (D.seen disk.new) (D.may_leave disk.new (D.moment disk.new)) }
{
    for m in 0..scan.samples.div_ceil(plan.integration) {
        write_integration(
            plan, epochs, head, number, scan, m, cells, body, journal, disk, out,
        )?;
    }
    Ok(())
}

// Appends the records of integration `m` of a scan.
fn write_integration<D: Disk, S: Sink>(
    plan: &Plan,
    epochs: &JobPlan,
    head: &VisHead,
    number: u32,
    scan: &ScanPlan,
    m: u64,
    cells: &mut [Cell],
    body: &mut [Cell],
    journal: &mut Journal,
    disk: &mut D,
    out: &mut S,
) -> Result<(), WriteFault<ReadFault>>
    requires cut { IsCut plan.now epochs.now }
    requires head { head.now ≡ head_of plan.now }
    requires scan { slice_get plan.now.scans number ≡ Some scan.now }
    requires inside { m < integrations_of plan.now scan.now }
    requires room { width_of plan.now scan.now ≤ length cells.old }
    requires body { IsRoom epochs.now (length body.old) }
    requires stands { StandsOn epochs.now journal.old (D.seen disk.old) (D.may_leave disk.old (D.moment disk.old)) }
    ensures written { WritesCells D.seen D.moment D.may_leave D.faults plan.now epochs.now
        (place_of_integration epochs.now number (size_of plan.now scan.now) m)
        (λ of. integration_at head.now number m (of number m))
        (store journal.old disk.old) (store journal.new disk.new)
        (S.told out.old) (S.told out.new) (S.faults out.old) (S.faults out.new) result }
    ensures reaches { OnOk result (Reaches D.seen D.moment D.may_leave epochs.now
        (place_of_integration epochs.now number (size_of plan.now scan.now) m)
        (place_of_integration epochs.now number (size_of plan.now scan.now) (m + 1))
        (store journal.old disk.old) (store journal.new disk.new)) }
    ensures stands { StandsOn epochs.now journal.new (D.seen disk.new) (D.may_leave disk.new (D.moment disk.new)) }
{
    let width = width_of(plan, scan);
    let sums = &mut cells[..width];
    match sum_integration(plan, epochs, scan, m, sums, body, journal, disk) {
        Ok(()) => sunk(write_integration_at(head, number, m, sums, out)),
        Err(fault) => Err(WriteFault::Source(fault)),
    }
}
