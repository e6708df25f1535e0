//! The parts of a call that work on a job which is ready, with the refusals of a call: an epoch is summed, the journal is brought to
//! the job's end, and its records are written.
ghost use Rattle.std.specs.Prelude.{◌≡◌, ◌<◌, ◌≤◌, ◌^◌, ℕ, List, length, None, Ok, IfOk, IfErr, IfSome, IsSome, unwrap_or};
ghost use Rattle.dev_traits.specs.Told.{WhereTold};
ghost use Rattle.piece_plan.specs.{Epochs.{IsEpoch}, Limited.{IsPart}};
ghost use Rattle.station_stream.specs.Recorded.{AreRecorded};
ghost use Rattle.epoch_run.specs.Sums.{pieces_in_epoch};
ghost use Rattle.checkpoint_journal.specs.{Standing.{Stands, StandsOn}, Runs.{Changes, Looks, Spares}};
ghost use Rattle.run_words.specs.Orders.{IsOrder};
ghost use Rattle.run_notes.specs.{Refusals.{IsCause}, Counted.{CountsReads, CountsReadsBeside, CountsJournal, CountsWrites}};
ghost use Rattle.run_ready.specs.{Outcome.{PlanOf}, Identities.{identity_under}, Stage.{IsOfFiles}};
ghost use Rattle.run_sums.specs.Sums.{AreSums};
ghost use Rattle.journal_rounds.specs.{Extended.{IsSummed, Extends}, Room.{HasNoPlace}};
ghost use Rattle.journal_records.specs.Kept.{Grows, WritesKept};
ghost use Rattle.vlbi_core.specs.Engine.{job_names, epoch_asked, sums_answer, IsOfSums, opening_refusal, resume_answer, emit_answer, IsRefusedFor, KeepsNamed, IsOfRecords};
ghost use Rattle.vlbi_core.specs.Steps.{CountsJournalOr};

use crate::order::{epoch_of, job_of, vex_of};
use atomic_sums::EpochSums;
use checkpoint_journal::{Identity, Journal, OpenFault};
use dev_traits::{Disk, Gate, Shelf, Sink};
use journal_records::EmitFault;
use journal_rounds::ResumeFault;
use piece_plan::{EpochPlan, JobPlan};
use ready_job::Ready;
use run_notes::Refusal;
use run_words::Order;
use station_stream::StreamFault;
use std::alloc::Global;
use std::thread::Threads;

/// What the job of an order comes to: its plan, the samples of an epoch, the recordings of the plan's stations, and the job's identity.
pub fn prepare<F: Shelf>(alloc: Global, order: &Order, shelf: &mut F) -> Result<Ready, Refusal>
    requires job { IsSome (job_names order.now) }
    requires is_order { IsOrder order.now }
    ensures same { F.told shelf.new ≡ F.told shelf.old }
    ensures plan { IfSome (job_names order.now) (λ names. IfOk result (λ ready. WhereTold (F.told shelf.old) (λ files. PlanOf files names.0 names.1 (epoch_asked order.now) (Ok ready.plan)))) }
    ensures epoch { IfOk result (λ ready. ready.epoch ≡ unwrap_or (epoch_asked order.now) ready.plan.epoch) }
    ensures recorded { IfOk result (λ ready. WhereTold (F.told shelf.old) (λ files. AreRecorded files ready.plan.stations ready.recordings.items)) }
    ensures identity { IfSome (job_names order.now) (λ names. IfOk result (λ ready. WhereTold (F.told shelf.old) (λ files. ready.identity ≡ identity_under files names.0 names.1 ready.plan))) }
    ensures cause { IfSome (job_names order.now) (λ names. IfErr result (λ r. WhereTold (F.told shelf.old) (λ files. IsCause r (PlanOf files names.0 names.1 (epoch_asked order.now))))) }
    ensures stage { IfErr result IsOfFiles }
    ensures counts { CountsReads (F.faults shelf.old) (F.faults shelf.new) result }
{
    run_ready::prepare(alloc, job_of(order), vex_of(order), epoch_of(order), shelf)
}

/// The sums of an epoch of a job, wherever it begins and however long it is, by `workers` threads, 1 to 64, in pieces of at most `piece`
/// samples, 64 to 4,194,304: those of the definition, whatever these two are.
pub fn correlate<R: Threads + Sync, F: Shelf, G: Gate + Sync>(
    rt: &R,
    alloc: Global,
    ready: &Ready,
    shelf: &mut F,
    e: &EpochPlan,
    workers: u32,
    piece: u64,
    gate: &G,
) -> Result<EpochSums, Refusal>
    requires recorded { WhereTold (F.told shelf.old) (λ files. AreRecorded files ready.now.plan.stations ready.now.recordings.items) }
    requires epoch { IsEpoch ready.now.epochs e.now }
    requires workers { (1 ≤ workers) × (workers ≤ 64) }
    requires piece { (64 ≤ piece) × (piece ≤ 4194304) }
    ensures same { F.told shelf.new ≡ F.told shelf.old }
    ensures sums { IfOk result (AreSums (F.told shelf.old) ready.now.plan e.now) }
    ensures pieces { IfOk result (λ sums. sums.pieces ≡ pieces_in_epoch e.now piece) }
    ensures stage { IfErr result IsOfSums }
    ensures counts { CountsReads (F.faults shelf.old) (F.faults shelf.new) result }
{
    summed(run_sums::correlate(rt, alloc, ready, shelf, e, workers, piece, gate))
}

/// Opens the journal of a job, and from the place on where it ends sums and appends epochs of the length in force, in their order, up to
/// the end of the job.
pub fn resume<R: Threads + Sync, F: Shelf + Send, D: Disk + Send, G: Gate + Sync>(
    rt: &R,
    alloc: Global,
    ready: &Ready,
    shelf: &mut F,
    disk: &mut D,
    workers: u32,
    piece: u64,
    gate: &G,
) -> Result<Journal, Refusal>
    requires recorded { WhereTold (F.told shelf.old) (λ files. AreRecorded files ready.now.plan.stations ready.now.recordings.items) }
    requires workers { (1 ≤ workers) × (workers ≤ 64) }
    requires piece { (64 ≤ piece) × (piece ≤ 4194304) }
    ensures same { F.told shelf.new ≡ F.told shelf.old }
    ensures stands { IfOk result (λ journal. Stands ready.now.identity ready.now.epochs journal (D.seen disk.new) (D.may_leave disk.new (D.moment disk.new))) }
    ensures covers { IfOk result (λ journal. journal.end.next ≡ None) }
    ensures changes { Changes D.seen D.moment D.may_leave
        (Extends (IsSummed (F.told shelf.old) ready.now.plan ready.now.epochs ready.now.epoch) ready.now.identity ready.now.epochs) disk.old disk.new }
    ensures spares { Spares D.seen D.moment D.may_leave ready.now.identity ready.now.epochs disk.old disk.new }
    ensures refused { IfErr result (IsRefusedFor ready.now.identity ready.now.epochs (D.seen disk.old) (D.seen disk.new)) }
    ensures named { IfErr result (KeepsNamed ready.now.identity ready.now.epochs (D.may_leave disk.new (D.moment disk.new))) }
    ensures reads { CountsReadsBeside (F.faults shelf.old) (F.faults shelf.new) result }
    ensures journal { CountsJournalOr (HasNoPlace ready.now.identity ready.now.epochs ready.now.epoch (D.seen disk.old) (D.seen disk.new))
        (D.faults disk.old) (D.faults disk.new) result }
{
    resume_part(
        rt,
        alloc,
        ready,
        &ready.epochs,
        &ready.identity,
        shelf,
        disk,
        workers,
        piece,
        gate,
    )
}

/// Appends the record file of a job that the epochs of its journal cover.
pub fn emit<D: Disk, S: Sink>(
    alloc: Global,
    ready: &Ready,
    journal: &mut Journal,
    disk: &mut D,
    out: &mut S,
) -> Result<(), Refusal>
    requires stands { StandsOn ready.now.epochs journal.old (D.seen disk.old) (D.may_leave disk.old (D.moment disk.old)) }
    requires covers { journal.old.end.next ≡ None }
    ensures written { (id : List ℕ) → Stands id ready.now.epochs journal.old (D.seen disk.old) (D.may_leave disk.old (D.moment disk.old))
        → WhereTold (D.seen disk.old) (λ image. WritesKept id ready.now.plan image (S.told out.old) (S.told out.new) result) }
    ensures grows { Grows (S.told out.old) (S.told out.new) result }
    ensures stands { (id : List ℕ) → Stands id ready.now.epochs journal.old (D.seen disk.old) (D.may_leave disk.old (D.moment disk.old))
        → Stands id ready.now.epochs journal.new (D.seen disk.new) (D.may_leave disk.new (D.moment disk.new)) }
    ensures looks { Looks D.seen D.moment D.may_leave disk.old disk.new }
    ensures refused { IfErr result (IsOfRecords journal.old.end.kept (S.told out.old) (S.told out.new)) }
    ensures journal { CountsJournal (D.faults disk.old) (D.faults disk.new) result }
    ensures writes { CountsWrites (S.faults out.old) (S.faults out.new) result }
{
    emitted(journal_records::emit(alloc, ready, journal, disk, out))
}

/// Brings the journal of a part of a job to its end, as `resume` does that of a whole one. These are the plan of the part and its
/// identity.
pub(crate) fn resume_part<R: Threads + Sync, F: Shelf + Send, D: Disk + Send, G: Gate + Sync>(
    rt: &R,
    alloc: Global,
    ready: &Ready,
    part: &JobPlan,
    id: &Identity,
    shelf: &mut F,
    disk: &mut D,
    workers: u32,
    piece: u64,
    gate: &G,
) -> Result<Journal, Refusal>
    requires part { IsPart ready.now.epochs part.now }
    requires recorded { WhereTold (F.told shelf.old) (λ files. AreRecorded files ready.now.plan.stations ready.now.recordings.items) }
    requires short { length id.now < 2 ^ 62 }
    requires workers { (1 ≤ workers) × (workers ≤ 64) }
    requires piece { (64 ≤ piece) × (piece ≤ 4194304) }
    ensures same { F.told shelf.new ≡ F.told shelf.old }
    ensures stands { IfOk result (λ journal. Stands id.now part.now journal (D.seen disk.new) (D.may_leave disk.new (D.moment disk.new))) }
    ensures covers { IfOk result (λ journal. journal.end.next ≡ None) }
    ensures changes { Changes D.seen D.moment D.may_leave
        (Extends (IsSummed (F.told shelf.old) ready.now.plan part.now ready.now.epoch) id.now part.now) disk.old disk.new }
    ensures spares { Spares D.seen D.moment D.may_leave id.now part.now disk.old disk.new }
    ensures refused { IfErr result (IsRefusedFor id.now part.now (D.seen disk.old) (D.seen disk.new)) }
    ensures named { IfErr result (KeepsNamed id.now part.now (D.may_leave disk.new (D.moment disk.new))) }
    ensures reads { CountsReadsBeside (F.faults shelf.old) (F.faults shelf.new) result }
    ensures journal { CountsJournalOr (HasNoPlace id.now part.now ready.now.epoch (D.seen disk.old) (D.seen disk.new))
        (D.faults disk.old) (D.faults disk.new) result }
{
    resumed(journal_rounds::resume(
        rt,
        alloc,
        ready,
        part,
        id,
        shelf,
        disk,
        ready.epoch,
        workers,
        piece,
        gate,
    ))
}

// The answer of a call that summed an epoch.
fn summed(sums: Result<EpochSums, StreamFault>) -> Result<EpochSums, Refusal>
    ensures { result ≡ sums_answer sums }
{
    match sums {
        Ok(sums) => Ok(sums),
        Err(StreamFault::Read) => Err(Refusal::Read),
        Err(StreamFault::Memory) => Err(Refusal::Memory),
    }
}

/// The refusal of a journal that is not opened.
pub(crate) fn opening_refusal(fault: OpenFault) -> Refusal
    ensures { result ≡ opening_refusal fault }
{
    match fault {
        OpenFault::Disk => Refusal::Journal(None),
        OpenFault::Other(differs) => Refusal::Other(differs),
        OpenFault::Memory => Refusal::Memory,
    }
}

// The answer of a call that brought a journal to its end.
fn resumed(brought: Result<Journal, ResumeFault>) -> Result<Journal, Refusal>
    ensures { result ≡ resume_answer brought }
{
    match brought {
        Ok(journal) => Ok(journal),
        Err(ResumeFault::Memory) => Err(Refusal::Memory),
        Err(ResumeFault::Other(differs)) => Err(Refusal::Other(differs)),
        Err(ResumeFault::Read) => Err(Refusal::Read),
        Err(ResumeFault::Journal(kept)) => Err(Refusal::Journal(kept)),
    }
}

// The answer of a call that wrote records.
fn emitted(written: Result<(), EmitFault>) -> Result<(), Refusal>
    ensures { result ≡ emit_answer written }
{
    match written {
        Ok(()) => Ok(()),
        Err(EmitFault::Memory) => Err(Refusal::Memory),
        Err(EmitFault::Journal(kept)) => Err(Refusal::Journal(Some(kept))),
        Err(EmitFault::Write) => Err(Refusal::Write),
    }
}
