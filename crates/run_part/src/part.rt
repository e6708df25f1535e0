//! Parts of jobs.
ghost use Rattle.std.specs.Prelude.{◌≡◌, ◌≤◌, ◌<◌, ◌^◌, IfOk, IfErr, IfSome, Ok, OnOk, None, length, unwrap_or, option_copied};
ghost use Rattle.std.specs.Str.{IsUtf8};
ghost use Rattle.dev_traits.specs.Told.{WhereTold};
ghost use Rattle.piece_plan.specs.Limited.{limited, IsPart};
ghost use Rattle.plan_places.specs.Walk.{epochs_by};
ghost use Rattle.station_stream.specs.Recorded.{AreRecorded};
ghost use Rattle.checkpoint_journal.specs.Identity.{shard_of};
ghost use Rattle.run_notes.specs.{Counted.{CountsReads}, Refusals.{IsCause}};
ghost use Rattle.run_ready.specs.{Identities.{identity_under}, Stage.{IsOfFiles, IsOfTexts}, Steps.{Is, unless}};
ghost use Rattle.run_part.specs.Outcome.{past_end, PartOf};

use checkpoint_journal::{Identity, shard_identity};
use dev_traits::Shelf;
use job_epochs::plan_epochs;
use job_plan::Plan0;
use num_time::Name;
use piece_plan::JobPlan;
use piece_plan::laws::epochs_of_limited;
use plan_places::laws::limited_jobs_have_fewer_epochs;
use ready_job::Ready;
use run_notes::{Due, Measure, Refusal};
use run_ready::{join, load_recordings};
use std::alloc::Global;

/// A job that is ready, the plan of a part of it, and the part's identity in a journal.
#[derive(Drop)]
pub struct ReadyPart {
    pub ready: Ready,
    pub plan: JobPlan,
    pub identity: Identity,
}

/// Reads a job, joins and indexes it, as `run_ready::prepare` does, and makes the plan and the identity of a part: of the integrations
/// with a number from `from` up to, not including, `to`. The job has so many, or the call is refused before any recording is looked at.
pub fn prepare_part<F: Shelf>(
    alloc: Global,
    job: &Name,
    vex: Option<&Name>,
    epoch: Option<u64>,
    from: u64,
    to: u64,
    shelf: &mut F,
) -> Result<ReadyPart, Refusal>
    requires job_text { IsUtf8 job.now }
    requires vex_text { IfSome vex (λ name. IsUtf8 name.now) }
    requires epoch { IfSome epoch (λ e. (1 ≤ e) × (e ≤ 4194304)) }
    ensures same { F.told shelf.new ≡ F.told shelf.old }
    ensures plan { IfOk result (λ p. WhereTold (F.told shelf.old) (λ files. PartOf files job.now (option_copied vex.entry) epoch to (Ok p.ready.plan))) }
    ensures epoch { IfOk result (λ p. p.ready.epoch ≡ unwrap_or epoch p.ready.plan.epoch) }
    ensures recorded { IfOk result (λ p. WhereTold (F.told shelf.old) (λ files. AreRecorded files p.ready.plan.stations p.ready.recordings.items)) }
    ensures limited { IfOk result (λ p. p.plan ≡ limited p.ready.epochs from to) }
    ensures part { IfOk result (λ p. IsPart p.ready.epochs p.plan) }
    ensures few { IfOk result (λ p. length (epochs_by p.plan p.ready.epoch) ≤ 4294967296) }
    ensures identity { IfOk result (λ p. WhereTold (F.told shelf.old)
        (λ files. p.identity ≡ shard_of (identity_under files job.now (option_copied vex.entry) p.ready.plan) from to)) }
    ensures short { IfOk result (λ p. length p.identity < 2 ^ 62) }
    ensures cause { IfErr result (λ r. WhereTold (F.told shelf.old) (λ files. IsCause r (PartOf files job.now (option_copied vex.entry) epoch to))) }
    ensures stage { IfErr result IsOfFiles }
    ensures counts { CountsReads (F.faults shelf.old) (F.faults shelf.new) result }
{
    epochs_of_limited();
    limited_jobs_have_fewer_epochs();
    let joined = join(alloc, job, vex, epoch, shelf)?;
    within_job(alloc, &joined.plan, to)?;
    let ready = load_recordings(alloc, joined, shelf)?;
    let _epochs = ready.epochs.epochs();
    let plan = ready.epochs.limited(alloc, from, to)?;
    let identity = shard_identity(alloc, &ready.identity, from, to)?;
    Ok(ReadyPart {
        ready,
        plan,
        identity,
    })
}

// Looks whether a plan has so many integrations.
fn within_job(alloc: Global, plan: &Plan0, to: u64) -> Result<(), Refusal>
    requires few { length plan.now.scans ≤ 8388608 }
    ensures within { OnOk result (past_end plan.now to ≡ None) }
    ensures cause { IfErr result (λ r. IsCause r (Is (unless (past_end plan.now to) plan.now))) }
    ensures stage { IfErr result IsOfTexts }
{
    let epochs = plan_epochs(alloc, plan)?;
    if epochs.integrations() < to {
        return Err(Refusal::Due(Due::Limit(Measure::Shard, u128::from(to))));
    }
    Ok(())
}
