//! The rounds by which a journal is brought on.
ghost use Rattle.std.specs.Prelude.{◌≡◌, ◌+◌, ◌<◌, ◌≤◌, Option, None, Some, IfOk, IfErr, IfSome, OnOk, is_some, option_map, true};
ghost use Rattle.corr_model.specs.Files.{Files};
ghost use Rattle.piece_plan.specs.Order.{place_of, place_after};
ghost use Rattle.plan_places.specs.Places.{place_at, IsPlace};
ghost use Rattle.checkpoint_journal.specs.{Runs.{Changes}, Standing.{Stands}};
ghost use Rattle.journal_rounds.specs.{Counted.{CountsReadsBeside, CountsJournal}, Extended.{IsSummed, Extends}, Refused.{KeepsNamed}, Epochs.{behind}};
ghost use Rattle.journal_rounds.specs.{Ahead.{AreSumsOf, IsCut, IsHeld, IsAhead, IsWalk, epoch_summed, steps_done, steps_kept, kept_with}, Steps.{IsOfAppend, IsOfEpoch, StaysFull}};

use crate::ahead::{Ahead, advance};
use crate::fault::ResumeFault;
use crate::spread::join_spread;
use crate::sums::Summed;
use checkpoint_journal::{AppendFault, Identity, Journal};
use dev_traits::{Disk, Gate, Shelf};
use piece_plan::JobPlan;
use ready_job::Ready;
use run_sums::Spare;
use station_stream::StreamFault;
use std::alloc::Global;
use std::thread::Threads;

/// Appends the epoch that is summed, if one is, while the one behind it is summed and the next one read, in room of `spare`. A
/// fault of the journal is answered before one of the shelf. What is summed in a round that fails is not kept.
pub(crate) fn round<R: Threads + Sync, F: Shelf + Send, D: Disk + Send, G: Gate + Sync>(
    rt: &R,
    alloc: Global,
    ready: &Ready,
    part: &JobPlan,
    id: &Identity,
    shelf: &mut F,
    disk: &mut D,
    journal: &mut Journal,
    epoch: u64,
    ahead: &Ahead,
    spare: &mut Spare,
    workers: u32,
    piece: u64,
    gate: &G,
) -> Result<Ahead, ResumeFault>
    requires walk { IsWalk (F.told shelf.old) ready.now part.now epoch }
    requires stands { Stands id.now part.now journal.old (D.seen disk.old) (D.may_leave disk.old (D.moment disk.old)) }
    requires more { is_some journal.old.end.next ≡ true }
    requires ahead { IsAhead (F.told shelf.old) ready.now part.now epoch (option_map place_at journal.old.end.next) ahead.now }
    requires workers { (1 ≤ workers) × (workers ≤ 64) }
    requires piece { (64 ≤ piece) × (piece ≤ 4194304) }
    ensures same { F.told shelf.new ≡ F.told shelf.old }
    ensures stands { OnOk result (Stands id.now part.now journal.new (D.seen disk.new) (D.may_leave disk.new (D.moment disk.new))) }
    ensures kept { OnOk result (journal.new.end.kept ≡ kept_with ahead.now.summed journal.old.end.kept) }
    ensures place { OnOk result (option_map place_at journal.new.end.next
        ≡ behind part.now (epoch_summed ahead.now.summed) (option_map place_at journal.old.end.next)) }
    ensures ahead { IfOk result (λ next. IsAhead (F.told shelf.old) ready.now part.now epoch (option_map place_at journal.new.end.next) next) }
    ensures steps { IfOk result (λ next. steps_done ahead.now.summed ahead.now.held
        < steps_done next.summed next.held + steps_kept ahead.now.summed) }
    ensures changes { Changes D.seen D.moment D.may_leave
        (Extends (IsSummed (F.told shelf.old) ready.now.plan part.now epoch) id.now part.now) disk.old disk.new }
    ensures stage { IfErr result IsOfEpoch }
    ensures named { IfErr result (KeepsNamed id.now part.now (D.may_leave disk.new (D.moment disk.new))) }
    ensures reads { CountsReadsBeside (F.faults shelf.old) (F.faults shelf.new) result }
    ensures journal { CountsJournal (StaysFull id.now part.now (D.seen disk.old) (D.seen disk.new))
        (D.faults disk.old) (D.faults disk.new) result }
{
    is_due(shelf, ready, part, journal, epoch, ahead);
    let (appended, advanced) = join_spread(
        rt,
        workers > 1,
        &mut || append_summed(ready, part, id, disk, journal, epoch, &ahead.summed),
        &mut ||
            requires walk { IsWalk (F.told shelf.now) ready.now part.now epoch }
            requires values { IfSome ahead.now.held (IsHeld (F.told shelf.now) ready.now) }
            requires place { IfSome ahead.now.next (λ p. IsPlace part.now (place_at p)) }
            requires workers { (1 ≤ workers) × (workers ≤ 64) }
            requires piece { (64 ≤ piece) × (piece ≤ 4194304) }
        {
            advance(
                rt, alloc, spare, ready, part, shelf, epoch, ahead, workers, piece, gate,
            )
        },
    );
    appended?;
    match advanced {
        Ok(next) => Ok(next),
        Err(StreamFault::Read) => Err(ResumeFault::Read),
        Err(StreamFault::Memory) => Err(ResumeFault::Memory),
    }
}

// What is summed is the epoch that is due, also where the files are not told. The call does nothing: it brings this law.
fn is_due<F: Shelf>(
    _shelf: &F,
    _ready: &Ready,
    _part: &JobPlan,
    _journal: &Journal,
    _epoch: u64,
    _ahead: &Ahead,
)
    requires { IsAhead (F.told _shelf.now) _ready.now _part.now _epoch (option_map place_at _journal.now.end.next) _ahead.now }
    ensures begins { IfSome _ahead.now.summed (λ s. option_map place_at _journal.now.end.next ≡ Some (place_of s.epoch)) }
    ensures sums { IfSome _ahead.now.summed (AreSumsOf None _ready.now) }
    ensures cut { IfSome _ahead.now.summed (IsCut _part.now _epoch) }
{}

// Appends the sums of the epoch that is due, where they are there.
fn append_summed<D: Disk>(
    ready: &Ready,
    part: &JobPlan,
    id: &Identity,
    disk: &mut D,
    journal: &mut Journal,
    epoch: u64,
    summed: &Option<Summed>,
) -> Result<(), ResumeFault>
    requires stands { Stands id.now part.now journal.old (D.seen disk.old) (D.may_leave disk.old (D.moment disk.old)) }
    requires begins { IfSome summed.now (λ s. option_map place_at journal.old.end.next ≡ Some (place_of s.epoch)) }
    requires sums { IfSome summed.now (AreSumsOf None ready.now) }
    requires cut { IfSome summed.now (IsCut part.now epoch) }
    ensures kept { OnOk result (journal.new.end.kept ≡ kept_with summed.now journal.old.end.kept) }
    ensures place { OnOk result (option_map place_at journal.new.end.next
        ≡ behind part.now (epoch_summed summed.now) (option_map place_at journal.old.end.next)) }
    ensures stands { OnOk result (Stands id.now part.now journal.new (D.seen disk.new) (D.may_leave disk.new (D.moment disk.new))) }
    ensures changes { (told : Option Files) → IfSome summed.now (AreSumsOf told ready.now) → Changes D.seen D.moment D.may_leave
        (Extends (IsSummed told ready.now.plan part.now epoch) id.now part.now) disk.old disk.new }
    ensures stage { IfErr result IsOfAppend }
    ensures named { IfErr result (KeepsNamed id.now part.now (D.may_leave disk.new (D.moment disk.new))) }
    ensures counts { CountsJournal (StaysFull id.now part.now (D.seen disk.old) (D.seen disk.new))
        (D.faults disk.old) (D.faults disk.new) result }
{
    match summed {
        Some(summed) => append(ready, part, id, disk, journal, epoch, summed),
        None => Ok(()),
    }
}

// Appends the sums of the epoch that is due.
fn append<D: Disk>(
    _ready: &Ready,
    part: &JobPlan,
    _id: &Identity,
    disk: &mut D,
    journal: &mut Journal,
    _epoch: u64,
    summed: &Summed,
) -> Result<(), ResumeFault>
    requires stands { Stands _id.now part.now journal.old (D.seen disk.old) (D.may_leave disk.old (D.moment disk.old)) }
    requires begins { option_map place_at journal.old.end.next ≡ Some (place_of summed.now.epoch) }
    requires sums { AreSumsOf None _ready.now summed.now }
    requires cut { IsCut part.now _epoch summed.now }
    ensures kept { OnOk result (journal.new.end.kept ≡ journal.old.end.kept + 1) }
    ensures place { OnOk result (option_map place_at journal.new.end.next ≡ place_after part.now summed.now.epoch) }
    ensures stands { OnOk result (Stands _id.now part.now journal.new (D.seen disk.new) (D.may_leave disk.new (D.moment disk.new))) }
    ensures changes { (told : Option Files) → AreSumsOf told _ready.now summed.now → Changes D.seen D.moment D.may_leave
        (Extends (IsSummed told _ready.now.plan part.now _epoch) _id.now part.now) disk.old disk.new }
    ensures stage { IfErr result IsOfAppend }
    ensures named { IfErr result (KeepsNamed _id.now part.now (D.may_leave disk.new (D.moment disk.new))) }
    ensures counts { CountsJournal (StaysFull _id.now part.now (D.seen disk.old) (D.seen disk.new))
        (D.faults disk.old) (D.faults disk.new) result }
{
    let kept = journal.kept();
    match journal.append(disk, part, &summed.epoch, &summed.sums) {
        Ok(()) => Ok(()),
        Err(AppendFault::Disk) => Err(ResumeFault::Journal(Some(kept))),
    }
}
