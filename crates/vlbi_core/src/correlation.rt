//! A job that is summed into its journal, and its records.
ghost use Rattle.std.specs.Prelude.{◌≡◌, IfErr, IfSome, Ok, OnOk, option_copied};
ghost use Rattle.std.specs.Str.{IsUtf8};
ghost use Rattle.dev_traits.specs.Told.{WhereTold};
ghost use Rattle.run_notes.specs.Counted.{CountsReadsBeside, CountsWrites};
ghost use Rattle.run_ready.specs.Outcome.{PlanOf};
ghost use Rattle.run_words.specs.{declared.order.Order.TheVariants.{Run}, Orders.{IsCut, IsWork}};
ghost use Rattle.vlbi_core.specs.Steps.{OutcomeFrom, IsBehindWords, IsPlanned, IsFullFor, CountsJournalOr, GoesRanged, Does, Leaves};

use crate::engine::{emit, resume};
use dev_traits::{Disk, Gate, Shelf, Sink};
use journal_records::laws::sums_make_the_output;
use num_time::Name;
use plan_places::laws::{no_more_are_left_than_all, walks_end};
use run_notes::Refusal;
use run_ready::prepare;
use std::alloc::Global;
use std::thread::Threads;

/// Sums what the journal of a job does not keep yet, in epochs of `epoch` samples or those of the job's own line, with `workers` threads
/// and pieces of at most `piece` samples, and appends the record file of all that it keeps then. No record is appended before all is
/// summed.
pub fn correlate_job<R: Threads + Sync, F: Shelf + Send, D: Disk + Send, S: Sink, G: Gate + Sync>(
    rt: &R,
    alloc: Global,
    job: &Name,
    vex: Option<&Name>,
    epoch: Option<u64>,
    workers: u32,
    piece: u64,
    shelf: &mut F,
    journal: &mut D,
    out: &mut S,
    gate: &G,
) -> Result<(), Refusal>
    requires job_text { IsUtf8 job.now }
    requires vex_text { IfSome vex (λ name. IsUtf8 name.now) }
    requires cut { IsCut epoch }
    requires work { IsWork workers piece }
    ensures same { F.told shelf.new ≡ F.told shelf.old }
    ensures does { WhereTold (F.told shelf.old) (λ files. Does (Ok (Run job.now (option_copied vex.entry) epoch workers piece)) files D.seen D.moment D.may_leave journal.old journal.new (S.told out.old) (S.told out.new) result) }
    ensures planned { OnOk result (WhereTold (F.told shelf.old) (λ files. IsPlanned (PlanOf files job.now (option_copied vex.entry) epoch))) }
    ensures ranged { WhereTold (F.told shelf.old) (λ files. GoesRanged (OutcomeFrom (Ok (Run job.now (option_copied vex.entry) epoch workers piece)) files) D.seen D.moment D.may_leave journal.old journal.new) }
    ensures leaves { Leaves (Ok (Run job.now (option_copied vex.entry) epoch workers piece)) D.seen D.moment D.may_leave journal.old journal.new (S.told out.old) (S.told out.new) result }
    ensures stage { IfErr result IsBehindWords }
    ensures reads { CountsReadsBeside (F.faults shelf.old) (F.faults shelf.new) result }
    ensures journal { CountsJournalOr (WhereTold (F.told shelf.old) (λ files. IsFullFor
        (OutcomeFrom (Ok (Run job.now (option_copied vex.entry) epoch workers piece)) files) files (D.seen journal.old) (D.seen journal.new)))
        (D.faults journal.old) (D.faults journal.new) result }
    ensures writes { CountsWrites (S.faults out.old) (S.faults out.new) result }
{
    sums_make_the_output();
    walks_end();
    no_more_are_left_than_all();
    let ready = prepare(alloc, job, vex, epoch, shelf)?;
    let mut kept = resume(rt, alloc, &ready, shelf, journal, workers, piece, gate)?;
    emit(alloc, &ready, &mut kept, journal, out)
}
