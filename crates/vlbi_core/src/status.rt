//! How far the journal of a job is.
ghost use Rattle.std.specs.Prelude.{◌≡◌, ◌<◌, ◌^◌, IfOk, IfErr, IfSome, Ok, option_copied};
ghost use Rattle.std.specs.Str.{IsUtf8};
ghost use Rattle.dev_traits.specs.Told.{WhereTold};
ghost use Rattle.plan_places.specs.Places.{place_at, IsPlace};
ghost use Rattle.checkpoint_journal.specs.{Kept.{Sees}, Runs.{Looks}};
ghost use Rattle.run_words.specs.{declared.order.Order.TheVariants.{Status}, Orders.{IsCut}};
ghost use Rattle.run_notes.specs.Counted.{CountsReads, CountsJournal, CountsWrites};
ghost use Rattle.vlbi_core.specs.Steps.{IsLookedFor, IsBehindWords, IsUnnumbered, Does, Leaves};

use crate::check::written;
use crate::engine::opening_refusal;
use checkpoint_journal::{Journal, Seen};
use dev_traits::{Disk, Shelf, Sink};
use num_time::Name;
use plan_places::laws::no_more_are_left_than_all;
use plan_places::left;
use run_notes::Refusal;
use run_ready::{Survey, survey};
use run_summary::write_kept;
use std::alloc::Global;

/// Appends how many epochs of a job its journal keeps, and of how many: those, and those of `epoch` samples, or of the job's own line,
/// that are left behind them. It writes nothing to the journal.
pub fn journal_status<F: Shelf, D: Disk, S: Sink>(
    alloc: Global,
    job: &Name,
    vex: Option<&Name>,
    epoch: Option<u64>,
    shelf: &mut F,
    journal: &mut D,
    out: &mut S,
) -> Result<(), Refusal>
    requires job_text { IsUtf8 job.now }
    requires vex_text { IfSome vex (λ name. IsUtf8 name.now) }
    requires cut { IsCut epoch }
    ensures same { F.told shelf.new ≡ F.told shelf.old }
    ensures does { WhereTold (F.told shelf.old) (λ files. Does (Ok (Status job.now (option_copied vex.entry) epoch)) files D.seen D.moment D.may_leave journal.old journal.new (S.told out.old) (S.told out.new) result) }
    ensures leaves { Leaves (Ok (Status job.now (option_copied vex.entry) epoch)) D.seen D.moment D.may_leave journal.old journal.new (S.told out.old) (S.told out.new) result }
    ensures stage { IfErr result IsBehindWords }
    ensures unnumbered { IfErr result IsUnnumbered }
    ensures reads { CountsReads (F.faults shelf.old) (F.faults shelf.new) result }
    ensures journal { CountsJournal (D.faults journal.old) (D.faults journal.new) result }
    ensures writes { CountsWrites (S.faults out.old) (S.faults out.new) result }
{
    no_more_are_left_than_all();
    let survey = survey(alloc, job, vex, epoch, shelf)?;
    let seen = look(alloc, &survey, journal)?;
    let left = left(&survey.epochs, seen.next, survey.epoch);
    written(write_kept(seen.kept, seen.kept + left, out))
}

// What the journal keeps.
fn look<D: Disk>(alloc: Global, survey: &Survey, journal: &mut D) -> Result<Seen, Refusal>
    ensures sees { IfOk result (λ seen. WhereTold (D.seen journal.old) (λ image. Sees survey.now.identity survey.now.epochs image seen)) }
    ensures many { IfOk result (λ seen. seen.kept < 2 ^ 63) }
    ensures place { IfOk result (λ seen. IfSome seen.next (λ p. IsPlace survey.now.epochs (place_at p))) }
    ensures refused { IfErr result (IsLookedFor survey.now.identity survey.now.epochs (D.seen journal.old)) }
    ensures looks { Looks D.seen D.moment D.may_leave journal.old journal.new }
    ensures counts { CountsJournal (D.faults journal.old) (D.faults journal.new) result }
{
    match Journal::look(alloc, journal, &survey.identity, &survey.epochs) {
        Ok(seen) => Ok(seen),
        Err(fault) => Err(opening_refusal(fault)),
    }
}
