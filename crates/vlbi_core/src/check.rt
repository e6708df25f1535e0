//! What a job and its recordings hold, without a sum.
ghost use Rattle.std.specs.Prelude.{◌≡◌, IfErr, IfSome, unwrap_or, option_copied};
ghost use Rattle.std.specs.Str.{IsUtf8};
ghost use Rattle.dev_traits.specs.Told.{WhereTold};
ghost use Rattle.run_notes.specs.{Commands.{Tells, IsOfFilesOrOutput}, Counted.{CountsReads, CountsWrites}};
ghost use Rattle.run_ready.specs.Outcome.{PlanOf};
ghost use Rattle.run_words.specs.Orders.{IsCut};
ghost use Rattle.run_summary.specs.Summaries.{check_text};
ghost use Rattle.vlbi_core.specs.{Faults.{written_with}, Steps.{MatchDue}};

use dev_traits::{Failed, Shelf, Sink};
use num_time::Name;
use run_notes::Refusal;
use run_ready::prepare;
use run_summary::write_check;
use std::alloc::Global;

/// Appends the summary of a job, with epochs of `epoch` samples or those of the job's own line.
pub fn check_job<F: Shelf, S: Sink>(
    alloc: Global,
    job: &Name,
    vex: Option<&Name>,
    epoch: Option<u64>,
    shelf: &mut F,
    out: &mut S,
) -> Result<(), Refusal>
    requires job_text { IsUtf8 job.now }
    requires vex_text { IfSome vex (λ name. IsUtf8 name.now) }
    requires cut { IsCut epoch }
    ensures same { F.told shelf.new ≡ F.told shelf.old }
    ensures tells { WhereTold (F.told shelf.old) (λ files. Tells (PlanOf files job.now (option_copied vex.entry) epoch) (λ plan. check_text plan (unwrap_or epoch plan.epoch) files) (S.told out.old) (S.told out.new) result) }
    ensures nothing { IfErr result (λ r. MatchDue r (S.told out.new ≡ S.told out.old)) }
    ensures stage { IfErr result IsOfFilesOrOutput }
    ensures reads { CountsReads (F.faults shelf.old) (F.faults shelf.new) result }
    ensures writes { CountsWrites (S.faults out.old) (S.faults out.new) result }
{
    let ready = prepare(alloc, job, vex, epoch, shelf)?;
    written(write_check(&ready, out))
}

/// The answer of a call that wrote to the output.
pub fn written(appended: Result<(), Failed>) -> Result<(), Refusal>
    ensures { result ≡ written_with appended }
{
    match appended {
        Ok(()) => Ok(()),
        Err(_) => Err(Refusal::Write),
    }
}
