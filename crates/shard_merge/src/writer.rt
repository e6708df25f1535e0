//! The record file of shards.
ghost use Rattle.std.specs.Prelude.{◌≡◌, ◌≤◌, ◌<◌, ℕ, List, Some, length, flat_map, slice_get, IfErr, IfOk, IfSome, OnOk, option_copied};
ghost use Rattle.std.specs.List.{All, range_with_len};
ghost use Rattle.dev_traits.specs.{Fault.{Counts}, Told.{WhereTold}};
ghost use Rattle.corr_model.specs.{Files.{Files}, Records.{IsHead, vis_text}};
ghost use Rattle.job_plan.specs.Output.{head_of};
ghost use Rattle.job_epochs.specs.Sizes.{sizes_of};
ghost use Rattle.journal_image.specs.Image.{KeptEpoch};
ghost use Rattle.vis_records.specs.Heads.{scan_of};
ghost use Rattle.vis_writer.specs.{Cells.{all_cells, cells_of, integrations_of, widest}, Texts.{integration_at, scans_text, text_at}, Writes.{Appended}};
ghost use Rattle.shard_merge.specs.{Covers.{covering, width_at}, Merged.{merged, merged_cells}, Reading.{IsListed, AreReadFrom}, Output.{IsUnwritten, CountsOutputReads, CountsOutputWrites}};
ghost use Rattle.shard_merge.specs.Writing.{IsFirst, IsHeadOf, WritesMerged, answer_of, fault_of};

use crate::cells::sum_cells;
use crate::coverage::covers;
use crate::fault::OutputFault;
use crate::shard::Shard;
use corr_model::Cell;
use dev_traits::{Failed, Shelf, Sink};
use job_plan::Plan0;
use piece_plan::JobPlan;
use std::alloc::{AllocError, Global};
use vis_records::{VisHead, VisScan, write_end, write_head};
use vis_writer::{WriteFault, head_of_plan, record_count, sunk, widest, write_integration_at};

/// Appends the record file of a job, the cells of each integration being those of the first shard that covers it, and none where none
/// does. All memory is taken before the first byte.
pub fn write_merged<F: Shelf, S: Sink>(
    alloc: Global,
    shelf: &mut F,
    shards: &[Shard],
    plan: &Plan0,
    epochs: &JobPlan,
    out: &mut S,
) -> Result<(), OutputFault>
    requires cut { epochs.now ≡ sizes_of plan.now }
    requires few { length plan.now.scans ≤ 8388608 }
    requires listed { All (IsListed epochs.now) shards.now }
    ensures same { F.told shelf.new ≡ F.told shelf.old }
    ensures written { WhereTold (F.told shelf.old) (λ files. (id : List ℕ) (keeps : List (List KeptEpoch))
        → AreReadFrom files id epochs.now shards.now keeps → Appended (S.told out.old) (merged plan.now keeps) (S.told out.new) result) }
    ensures unwritten { IfErr result (IsUnwritten (S.told out.old) (S.told out.new)) }
    ensures reads { CountsOutputReads (F.faults shelf.old) (F.faults shelf.new) result }
    ensures writes { CountsOutputWrites (S.faults out.old) (S.faults out.new) result }
{
    let Ok(mut rooms) = make_room(alloc, plan) else {
        return Err(OutputFault::Memory);
    };
    answer(write_file(
        shelf,
        shards,
        epochs,
        &rooms.head,
        &mut rooms.cells,
        &mut rooms.part,
        &mut rooms.buffer,
        out,
    ))
}

// What is taken before the first byte: the head, and room for the cells of any integration, for those that are read at a time, and for
// their bytes.
#[derive(Drop)]
struct Rooms {
    head: VisHead,
    cells: Vec<Cell>,
    part: Vec<Cell>,
    buffer: Vec<u8>,
}

// The head of a plan's record file, and the room.
fn make_room(alloc: Global, plan: &Plan0) -> Result<Rooms, AllocError>
    requires { length plan.now.scans ≤ 8388608 }
    ensures head { IfOk result (λ rooms. rooms.head ≡ head_of plan.now) }
    ensures room { IfOk result (λ rooms. widest rooms.head ≤ length rooms.cells.items) }
    ensures part { IfOk result (λ rooms. length rooms.part.items ≡ 40000) }
    ensures buffer { IfOk result (λ rooms. length rooms.buffer.items ≡ 960000) }
{
    let head = head_of_plan(alloc, plan)?;
    let cells = vec![in alloc; Cell::ZERO; widest(&head)]?;
    let part = vec![in alloc; Cell::ZERO; 40_000]?;
    let buffer = vec![in alloc; 0u8; 960_000]?;
    Ok(Rooms {
        head,
        cells,
        part,
        buffer,
    })
}

// The answer of a call that wrote the file.
fn answer(written: Result<(), WriteFault<Failed>>) -> Result<(), OutputFault>
    ensures { result ≡ answer_of written }
{
    match written {
        Ok(()) => Ok(()),
        Err(fault) => Err(fault_of(fault)),
    }
}

// Why the writing ended, by the fault of such a call.
fn fault_of(fault: WriteFault<Failed>) -> OutputFault
    ensures { result ≡ fault_of fault }
{
    match fault {
        WriteFault::Source(_) => OutputFault::Read,
        WriteFault::Sink => OutputFault::Write,
    }
}

// Appends the record file with this head. `cells` has room for those of any integration.
fn write_file<F: Shelf, S: Sink>(
    shelf: &mut F,
    shards: &[Shard],
    epochs: &JobPlan,
    head: &VisHead,
    cells: &mut [Cell],
    part: &mut [Cell],
    buffer: &mut [u8],
    out: &mut S,
) -> Result<(), WriteFault<Failed>>
    requires listed { All (IsListed epochs.now) shards.now }
    requires head { IsHeadOf epochs.now head.now }
    requires room { widest head.now ≤ length cells.old }
    requires part { length part.old ≡ 40000 }
    requires buffer { length buffer.old ≡ 960000 }
    ensures { WritesMerged F.told F.faults head.now epochs.now shards.now (λ of. vis_text head.now (all_cells head.now of))
        shelf.old shelf.new (S.told out.old) (S.told out.new) (S.faults out.old) (S.faults out.new) result }
{
    sunk(write_head(head, out))?;
    write_scans(shelf, shards, epochs, head, cells, part, buffer, out)?;
    sunk(write_end(record_count(head), out))
}

// Appends the records of all scans.
fn write_scans<F: Shelf, S: Sink>(
    shelf: &mut F,
    shards: &[Shard],
    epochs: &JobPlan,
    head: &VisHead,
    cells: &mut [Cell],
    part: &mut [Cell],
    buffer: &mut [u8],
    out: &mut S,
) -> Result<(), WriteFault<Failed>>
    requires listed { All (IsListed epochs.now) shards.now }
    requires head { IsHeadOf epochs.now head.now }
    requires room { widest head.now ≤ length cells.old }
    requires part { length part.old ≡ 40000 }
    requires buffer { length buffer.old ≡ 960000 }
    ensures { WritesMerged F.told F.faults head.now epochs.now shards.now (λ of. scans_text head.now of)
        shelf.old shelf.new (S.told out.old) (S.told out.new) (S.faults out.old) (S.faults out.new) result }
{
    for number in 0..head.scans().len() {
        write_scan(
            shelf,
            shards,
            epochs,
            head,
            number as u32,
            cells,
            part,
            buffer,
            out,
        )?;
    }
    Ok(())
}

// Appends the records of a scan, by its number.
fn write_scan<F: Shelf, S: Sink>(
    shelf: &mut F,
    shards: &[Shard],
    epochs: &JobPlan,
    head: &VisHead,
    number: u32,
    cells: &mut [Cell],
    part: &mut [Cell],
    buffer: &mut [u8],
    out: &mut S,
) -> Result<(), WriteFault<Failed>>
    requires listed { All (IsListed epochs.now) shards.now }
    requires head { IsHeadOf epochs.now head.now }
    requires inside { number < length head.now.scans }
    requires room { widest head.now ≤ length cells.old }
    requires part { length part.old ≡ 40000 }
    requires buffer { length buffer.old ≡ 960000 }
    ensures { WritesMerged F.told F.faults head.now epochs.now shards.now (λ of. text_at head.now of number)
        shelf.old shelf.new (S.told out.old) (S.told out.new) (S.faults out.old) (S.faults out.new) result }
{
    let scan = &head.scans()[number as usize];
    write_integrations(
        shelf, shards, epochs, head, number, scan, cells, part, buffer, out,
    )
}

// Appends the records of each integration of a scan.
fn write_integrations<F: Shelf, S: Sink>(
    shelf: &mut F,
    shards: &[Shard],
    epochs: &JobPlan,
    head: &VisHead,
    number: u32,
    scan: &VisScan,
    cells: &mut [Cell],
    part: &mut [Cell],
    buffer: &mut [u8],
    out: &mut S,
) -> Result<(), WriteFault<Failed>>
    requires listed { All (IsListed epochs.now) shards.now }
    requires head { IsHeadOf epochs.now head.now }
    requires ranges { IsHead head.now }
    requires scan { slice_get head.now.scans number ≡ Some (scan_of scan.now) }
    requires room { cells_of head.now (scan_of scan.now) ≤ length cells.old }
    requires part { length part.old ≡ 40000 }
    requires buffer { length buffer.old ≡ 960000 }
    ensures { WritesMerged F.told F.faults head.now epochs.now shards.now
        (λ of. flat_map (λ m. integration_at head.now number m (of number m)) (range_with_len 0 (integrations_of head.now (scan_of scan.now))))
        shelf.old shelf.new (S.told out.old) (S.told out.new) (S.faults out.old) (S.faults out.new) result }
{
    for m in 0..scan.samples.div_ceil(head.integration()) {
        write_integration(
            shelf, shards, epochs, head, number, scan, m, cells, part, buffer, out,
        )?;
    }
    Ok(())
}

// Appends the records of integration `m` of a scan.
fn write_integration<F: Shelf, S: Sink>(
    shelf: &mut F,
    shards: &[Shard],
    epochs: &JobPlan,
    head: &VisHead,
    number: u32,
    scan: &VisScan,
    m: u64,
    cells: &mut [Cell],
    part: &mut [Cell],
    buffer: &mut [u8],
    out: &mut S,
) -> Result<(), WriteFault<Failed>>
    requires listed { All (IsListed epochs.now) shards.now }
    requires head { IsHeadOf epochs.now head.now }
    requires scan { slice_get head.now.scans number ≡ Some (scan_of scan.now) }
    requires room { cells_of head.now (scan_of scan.now) ≤ length cells.old }
    requires part { length part.old ≡ 40000 }
    requires buffer { length buffer.old ≡ 960000 }
    ensures { WritesMerged F.told F.faults head.now epochs.now shards.now (λ of. integration_at head.now number m (of number m))
        shelf.old shelf.new (S.told out.old) (S.told out.new) (S.faults out.old) (S.faults out.new) result }
{
    let width = head.products().len() * scan.baselines.items().len() * head.lags() as usize;
    let sums = &mut cells[..width];
    match sum_first(shelf, shards, epochs, number, m, sums, part, buffer) {
        Ok(()) => sunk(write_integration_at(head, number, m, sums, out)),
        Err(fault) => Err(WriteFault::Source(fault)),
    }
}

// Sets `sums` to the cells of integration `m` of the scan of a number: those of the first shard that covers it, and zero where none does.
fn sum_first<F: Shelf>(
    shelf: &mut F,
    shards: &[Shard],
    plan: &JobPlan,
    number: u32,
    m: u64,
    sums: &mut [Cell],
    part: &mut [Cell],
    buffer: &mut [u8],
) -> Result<(), Failed>
    requires listed { All (IsListed plan.now) shards.now }
    requires scan { number < length plan.now.scans }
    requires room { length sums.old ≡ width_at plan.now number }
    requires part { length part.old ≡ 40000 }
    requires buffer { length buffer.old ≡ 960000 }
    ensures same { F.told shelf.new ≡ F.told shelf.old }
    ensures sums { OnOk result (WhereTold (F.told shelf.old) (λ files. (id : List ℕ) (keeps : List (List KeptEpoch))
        → AreReadFrom files id plan.now shards.now keeps → sums.new ≡ merged_cells plan.now keeps number m)) }
    ensures counts { Counts (F.faults shelf.old) (F.faults shelf.new) result }
{
    match first_covering(plan, shards, number, m) {
        Some(shard) => sum_cells(shelf, plan, shard, number, m, sums, part, buffer),
        None => {
            sums.fill(Cell::ZERO);
            Ok(())
        }
    }
}

// The first shard that covers integration `m` of the scan of a number.
fn first_covering<'a>(plan: &JobPlan, shards: &'a [Shard], number: u32, m: u64) -> Option<&'a Shard>
    requires scan { number < length plan.now.scans }
    requires listed { All (IsListed plan.now) shards.now }
    ensures listed { IfSome result (λ shard. IsListed plan.now shard.now) }
    ensures first { (files : Files) (id : List ℕ) (keeps : List (List KeptEpoch)) → AreReadFrom files id plan.now shards.entry.now keeps
        → IsFirst files id plan.now (covering plan.now number m keeps) (option_copied result) }
{
    for shard in shards {
        if covers(plan, shard, number, m) {
            return Some(shard);
        }
    }
    None
}
