//! The journal brought to the end of its part of the job.
ghost use Rattle.std.specs.Prelude.{◌≡◌, ◌≤◌, ◌<◌, ◌^◌, ◌+◌, ◌-◌, IfOk, IfErr, IfSome, OnOk, None, length, option_map};
ghost use Rattle.dev_traits.specs.Told.{WhereTold};
ghost use Rattle.piece_plan.specs.Limited.{IsPart};
ghost use Rattle.plan_places.specs.{Places.{place_at, IsPlace}, Walk.{AreLeft}};
ghost use Rattle.station_stream.specs.Recorded.{AreRecorded};
ghost use Rattle.checkpoint_journal.specs.{Runs.{Changes, Spares, KeepsEpochs, IsOurs}, Standing.{Stands}};
ghost use Rattle.journal_rounds.specs.{Counted.{CountsReadsBeside, CountsJournal}, Extended.{IsSummed, Extends}, Refused.{IsRefusedFor, KeepsNamed}, Room.{HasNoPlace}, Ahead.{IsAhead, kept_with}};
ghost use Rattle.journal_rounds.specs.Steps.{IsOfOpening, IsLongOpened};

use crate::ahead::Ahead;
use crate::fault::{ResumeFault, opening_fault};
use crate::rounds::round;
use crate::sums::Summed;
use crate::values::Held;
use checkpoint_journal::{Identity, Journal};
use dev_traits::{Disk, Gate, Shelf};
use piece_plan::JobPlan;
use plan_places::left;
use ready_job::Ready;
use run_sums::Spare;
use std::alloc::Global;
use std::thread::Threads;

/// Opens the journal of a part of the job, which may be all of it, and from the place on where it ends cuts the part into epochs of
/// `epoch` samples, 1 to 4,194,304, or those up to the end of an integration, and reads, sums and appends them in their order, with
/// `workers` threads for the sums and as many for the planes, 1 to 64, and pieces of at most `piece` samples, 64 to 4,194,304. While an
/// epoch is summed, the frames of the next one are read and its planes made, and the one before it is appended. What the journal kept
/// is neither summed nor written again. Where the journal and the shelf fail at the same time, the fault is the journal's.
/// In memory are at most the planes of two epochs, the frames of one, and the room that epochs before them have left.
pub fn resume<R: Threads + Sync, F: Shelf + Send, D: Disk + Send, G: Gate + Sync>(
    rt: &R,
    alloc: Global,
    ready: &Ready,
    part: &JobPlan,
    id: &Identity,
    shelf: &mut F,
    disk: &mut D,
    epoch: u64,
    workers: u32,
    piece: u64,
    gate: &G,
) -> Result<Journal, ResumeFault>
    requires part { IsPart ready.now.epochs part.now }
    requires recorded { WhereTold (F.told shelf.old) (λ files. AreRecorded files ready.now.plan.stations ready.now.recordings.items) }
    requires short { length id.now < 2 ^ 62 }
    requires epoch { (1 ≤ epoch) × (epoch ≤ 4194304) }
    requires workers { (1 ≤ workers) × (workers ≤ 64) }
    requires piece { (64 ≤ piece) × (piece ≤ 4194304) }
    ensures same { F.told shelf.new ≡ F.told shelf.old }
    ensures stands { IfOk result (λ journal. Stands id.now part.now journal (D.seen disk.new) (D.may_leave disk.new (D.moment disk.new))) }
    ensures covers { IfOk result (λ journal. journal.end.next ≡ None) }
    ensures changes { Changes D.seen D.moment D.may_leave
        (Extends (IsSummed (F.told shelf.old) ready.now.plan part.now epoch) id.now part.now) disk.old disk.new }
    ensures spares { Spares D.seen D.moment D.may_leave id.now part.now disk.old disk.new }
    ensures refused { IfErr result (IsRefusedFor id.now part.now (D.seen disk.old) (D.seen disk.new)) }
    ensures named { IfErr result (KeepsNamed id.now part.now (D.may_leave disk.new (D.moment disk.new))) }
    ensures reads { CountsReadsBeside (F.faults shelf.old) (F.faults shelf.new) result }
    ensures journal { CountsJournal (HasNoPlace id.now part.now epoch (D.seen disk.old) (D.seen disk.new))
        (D.faults disk.old) (D.faults disk.new) result }
{
    let mut journal = open(alloc, part, id, disk)?;
    let first = journal.next_place();
    let mut due = left(part, first, epoch);
    let mut ahead = Ahead {
        summed: None,
        held: None,
        next: first,
    };
    let mut spare = Spare::none(alloc);
    'epochs: while due > 0 {
        let next = round(
            rt,
            alloc,
            ready,
            part,
            id,
            shelf,
            disk,
            &mut journal,
            epoch,
            &ahead,
            &mut spare,
            workers,
            piece,
            gate,
        )?;
        due = left_behind(&ahead.summed, due);
        leave(ahead.held, &mut spare);
        ahead = next;
    }
    Ok(journal)
}

// Opens the journal of a part of the job.
fn open<D: Disk>(
    alloc: Global,
    part: &JobPlan,
    id: &Identity,
    disk: &mut D,
) -> Result<Journal, ResumeFault>
    requires short { length id.now < 2 ^ 62 }
    ensures stands { IfOk result (λ journal. Stands id.now part.now journal (D.seen disk.new) (D.may_leave disk.new (D.moment disk.new))) }
    ensures place { IfOk result (λ journal. IfSome journal.end.next (λ p. IsPlace part.now (place_at p))) }
    ensures ours { OnOk result (WhereTold (D.seen disk.old) (IsOurs id.now part.now)) }
    ensures changes { Changes D.seen D.moment D.may_leave (KeepsEpochs id.now part.now) disk.old disk.new }
    ensures spares { Spares D.seen D.moment D.may_leave id.now part.now disk.old disk.new }
    ensures refused { IfErr result (IsRefusedFor id.now part.now (D.seen disk.old) (D.seen disk.new)) }
    ensures stage { IfErr result IsOfOpening }
    ensures counts { CountsJournal (IsLongOpened id.now part.now (D.seen disk.old) (D.seen disk.new))
        (D.faults disk.old) (D.faults disk.new) result }
{
    match Journal::open_on(alloc, disk, id, part) {
        Ok(journal) => Ok(journal),
        Err(fault) => Err(opening_fault(fault)),
    }
}

// How many epochs are left behind a round, in which the sums that are there are appended.
fn left_behind(summed: &Option<Summed>, due: u64) -> u64
    requires { 0 < due }
    ensures { kept_with summed.now result ≡ due }
{
    match summed {
        Some(_) => due - 1,
        None => due,
    }
}

// Keeps the room of an epoch that is summed.
fn leave(held: Option<Held>, spare: &mut Spare) {
    if let Some(held) = held {
        spare.keep(Some(held.values));
    }
}
