//! What a command knows of its job before the recordings are looked into.
ghost use Rattle.std.specs.Prelude.{◌≡◌, ◌≤◌, ◌<◌, ◌^◌, IfOk, IfErr, OnOk, None, length};
ghost use Rattle.std.specs.List.{All, AllZip};
ghost use Rattle.dev_traits.specs.Told.{WhereTold};
ghost use Rattle.plan_places.specs.Walk.{epochs_by};
ghost use Rattle.job_epochs.specs.Sizes.{sizes_of};
ghost use Rattle.checkpoint_journal.specs.Identity.{identity_of};
ghost use Rattle.run_notes.specs.{Refusals.{IsCause}, Counted.{CountsReads}};
ghost use Rattle.run_ready.specs.{Steps.{Is, unless}, Due.{IsDue}, Recordings.{files_answer}, Identities.{lengths_of}, Sizes.{IsSizedBy, AreShelved, HasFewEpochs, sizes_in}, Props.{AreSized-prop}};
ghost use Rattle.run_ready.specs.Stage.{IsOfFiles};

use crate::identity::identity_of;
use crate::job::Joined;
use crate::recordings::{StationFiles, files_of};
use checkpoint_journal::Identity;
use dev_traits::Shelf;
use job_epochs::plan_epochs;
use job_plan::Plan0;
use piece_plan::JobPlan;
use run_notes::Refusal;
use std::alloc::{AllocError, Global};

/// A plan, what it is cut by, the samples of an epoch in force, the files of the plan's stations with their sizes, in the stations'
/// order, and the identity of its job.
#[derive(Drop)]
pub struct Survey {
    pub plan: Plan0,
    pub epochs: JobPlan,
    pub epoch: u64,
    pub files: Vec<StationFiles>,
    pub identity: Identity,
    pub ghost sized: { AllZip IsSizedBy plan.stations files.items } by { AreSized-prop plan.stations files.items },
    pub ghost slots: { All (λ z. z.slots ≤ 2 ^ 26) files.items },
    pub ghost few: { length plan.scans ≤ 8388608 },
    pub ghost cut: { epochs ≡ sizes_of plan },
    pub ghost some_epoch: { 1 ≤ epoch },
    pub ghost short_epoch: { epoch ≤ 4194304 },
    pub ghost few_epochs: { length (epochs_by epochs epoch) ≤ 4294967296 },
    pub ghost short: { length identity < 2 ^ 61 },
}

// The survey of a plan whose stations have these files, of a job with these texts.
fn survey_of(
    alloc: Global,
    schedule: &[u8],
    job: &[u8],
    plan: Plan0,
    epoch: u64,
    files: Vec<StationFiles>,
) -> Result<Survey, AllocError>
    requires short_schedule { length schedule.now ≤ 8388608 }
    requires short_job { length job.now ≤ 4194304 }
    requires few_scans { length plan.scans ≤ 8388608 }
    requires some_epoch { 1 ≤ epoch }
    requires short_epoch { epoch ≤ 4194304 }
    requires few_epochs { HasFewEpochs plan epoch }
    requires few_stations { length plan.stations ≤ 32 }
    requires sized { AllZip IsSizedBy plan.stations files.items }
    requires slots { All (λ z. z.slots ≤ 2 ^ 26) files.items }
    ensures plan { IfOk result (λ s. s.plan ≡ plan) }
    ensures epoch { IfOk result (λ s. s.epoch ≡ epoch) }
    ensures files { IfOk result (λ s. s.files ≡ files) }
    ensures identity { IfOk result (λ s. s.identity ≡ identity_of schedule.now job.now (sizes_in files.items)) }
{
    let epochs = plan_epochs(alloc, &plan)?;
    let identity = identity_of(alloc, schedule, job, &files)?;
    Ok(Survey {
        plan,
        epochs,
        epoch,
        files,
        identity,
    })
}

/// Looks at the files of a job that is joined: the sizes of all recordings, station by station and file by file, and then the
/// number of their slots.
pub fn survey_joined<F: Shelf>(
    alloc: Global,
    joined: Joined,
    shelf: &mut F,
) -> Result<Survey, Refusal>
    ensures same { F.told shelf.new ≡ F.told shelf.old }
    ensures plan { IfOk result (λ s. s.plan ≡ joined.plan) }
    ensures epoch { IfOk result (λ s. s.epoch ≡ joined.epoch) }
    ensures shelved { IfOk result (λ s. WhereTold (F.told shelf.old) (AreShelved s.files.items)) }
    ensures identity { IfOk result (λ s. WhereTold (F.told shelf.old) (λ files. s.identity ≡ identity_of joined.schedule.items joined.text.items (lengths_of files s.plan.stations))) }
    ensures fit { OnOk result (WhereTold (F.told shelf.old) (λ files. files_answer files joined.plan.stations ≡ None)) }
    ensures due { IfErr result (λ r. WhereTold (F.told shelf.old) (λ files. IsDue r (files_answer files joined.plan.stations))) }
    ensures cause { IfErr result (λ r. WhereTold (F.told shelf.old) (λ files. IsCause r (Is (unless (files_answer files joined.plan.stations) joined.plan)))) }
    ensures stage { IfErr result IsOfFiles }
    ensures counts { CountsReads (F.faults shelf.old) (F.faults shelf.new) result }
{
    let Joined {
        plan,
        epoch,
        schedule,
        text,
    } = joined;
    let files = files_of(alloc, shelf, plan.plan().stations.items())?;
    Ok(survey_of(alloc, &schedule, &text, plan, epoch, files)?)
}
