//! A job and the bins of a pulse, read.
ghost use Rattle.std.specs.Prelude.{◌≡◌, Ok, IfOk, IfErr, IfSome, option_copied};
ghost use Rattle.std.specs.Str.{IsUtf8};
ghost use Rattle.dev_traits.specs.Told.{WhereTold};
ghost use Rattle.station_stream.specs.Recorded.{AreRecorded};
ghost use Rattle.run_notes.specs.{Refusals.{IsCause}, Counted.{CountsReads}};
ghost use Rattle.run_ready.specs.Stage.{IsOfFiles};
ghost use Rattle.run_bins.specs.{Jobs.{plan_of}, Outcome.{BinsOf}};

use crate::job::BinJob;
use crate::limit::check_cells;
use crate::phase::load_bins;
use dev_traits::Shelf;
use num_time::Name;
use run_notes::Refusal;
use run_ready::{join, load_recordings};
use std::alloc::Global;

// Reads a job with its schedule, then the text of phases, and then indexes the recordings.
pub(crate) fn load_job<F: Shelf>(
    alloc: Global,
    job: &Name,
    vex: Option<&Name>,
    phase: &Name,
    shelf: &mut F,
) -> Result<BinJob, Refusal>
    requires job_text { IsUtf8 job.now }
    requires vex_text { IfSome vex (λ name. IsUtf8 name.now) }
    requires phase_text { IsUtf8 phase.now }
    ensures same { F.told shelf.new ≡ F.told shelf.old }
    ensures plan { IfOk result (λ b. WhereTold (F.told shelf.old) (λ files. BinsOf files job.now (option_copied vex.entry) phase.now (Ok (plan_of b)))) }
    ensures recorded { IfOk result (λ b. WhereTold (F.told shelf.old) (λ files. AreRecorded files b.ready.plan.stations b.ready.recordings.items)) }
    ensures cause { IfErr result (λ r. WhereTold (F.told shelf.old) (λ files. IsCause r (BinsOf files job.now (option_copied vex.entry) phase.now))) }
    ensures stage { IfErr result IsOfFiles }
    ensures counts { CountsReads (F.faults shelf.old) (F.faults shelf.new) result }
{
    let joined = join(alloc, job, vex, None, shelf)?;
    let bins = load_bins(alloc, phase, &joined.plan, shelf)?;
    check_cells(&bins, &joined.plan)?;
    let ready = load_recordings(alloc, joined, shelf)?;
    Ok(BinJob { ready, bins })
}
