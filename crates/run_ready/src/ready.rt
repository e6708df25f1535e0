//! What a command has before its output.
ghost use Rattle.std.specs.Prelude.{◌≡◌, ◌≤◌, IfOk, IfErr, IfSome, OnOk, Ok, None, unwrap_or, option_copied};
ghost use Rattle.std.specs.Str.{IsUtf8};
ghost use Rattle.dev_traits.specs.Told.{WhereTold};
ghost use Rattle.checkpoint_journal.specs.Identity.{identity_of};
ghost use Rattle.run_notes.specs.{Refusals.{IsCause}, Counted.{CountsReads}};
ghost use Rattle.run_ready.specs.{Outcome.{SurveyOf, PlanOf}, Due.{IsDue}, Recordings.{first_foreign, recordings_answer}, Sizes.{AreShelved}, Identities.{identity_under, lengths_of}};
ghost use Rattle.run_ready.specs.Stage.{IsOfFiles};
ghost use Rattle.station_stream.specs.Recorded.{AreRecorded};

use crate::indexes::index_all;
use crate::job::{Joined, join};
use crate::surveys::{Survey, survey_joined};
use dev_traits::Shelf;
use num_time::Name;
use ready_job::Ready;
use run_notes::Refusal;
use std::alloc::Global;

/// Reads a job beside its schedule or, where there is none, by itself, and joins them: the schedule comes first, then the job, then
/// both together, then the sizes of all recordings, station by station and file by file, and the number of their slots. Epochs have
/// `epoch` samples, 1 to 4,194,304, or those of the job's own line.
pub fn survey<F: Shelf>(
    alloc: Global,
    job: &Name,
    vex: Option<&Name>,
    epoch: Option<u64>,
    shelf: &mut F,
) -> Result<Survey, Refusal>
    requires job_text { IsUtf8 job.now }
    requires vex_text { IfSome vex (λ name. IsUtf8 name.now) }
    requires epoch { IfSome epoch (λ e. (1 ≤ e) × (e ≤ 4194304)) }
    ensures same { F.told shelf.new ≡ F.told shelf.old }
    ensures plan { IfOk result (λ s. WhereTold (F.told shelf.old) (λ files. SurveyOf files job.now (option_copied vex.entry) epoch (Ok s.plan))) }
    ensures epoch { IfOk result (λ s. s.epoch ≡ unwrap_or epoch s.plan.epoch) }
    ensures shelved { IfOk result (λ s. WhereTold (F.told shelf.old) (AreShelved s.files.items)) }
    ensures identity { IfOk result (λ s. WhereTold (F.told shelf.old) (λ files. s.identity ≡ identity_under files job.now (option_copied vex.entry) s.plan)) }
    ensures cause { IfErr result (λ r. WhereTold (F.told shelf.old) (λ files. IsCause r (SurveyOf files job.now (option_copied vex.entry) epoch))) }
    ensures stage { IfErr result IsOfFiles }
    ensures counts { CountsReads (F.faults shelf.old) (F.faults shelf.new) result }
{
    let joined = join(alloc, job, vex, epoch, shelf)?;
    survey_joined(alloc, joined, shelf)
}

/// Indexes each station's recording, in the stations' order, of a job that was surveyed.
pub fn index_survey<F: Shelf>(
    alloc: Global,
    survey: Survey,
    shelf: &mut F,
) -> Result<Ready, Refusal>
    requires { WhereTold (F.told shelf.old) (AreShelved survey.files.items) }
    ensures same { F.told shelf.new ≡ F.told shelf.old }
    ensures plan { IfOk result (λ ready. ready.plan ≡ survey.plan) }
    ensures epoch { IfOk result (λ ready. ready.epoch ≡ survey.epoch) }
    ensures identity { IfOk result (λ ready. ready.identity ≡ survey.identity) }
    ensures recorded { IfOk result (λ ready. WhereTold (F.told shelf.old) (λ files. AreRecorded files ready.plan.stations ready.recordings.items)) }
    ensures agrees { OnOk result (WhereTold (F.told shelf.old) (λ files. first_foreign files survey.plan.stations ≡ None)) }
    ensures due { IfErr result (λ r. WhereTold (F.told shelf.old) (λ files. IsDue r (first_foreign files survey.plan.stations))) }
    ensures stage { IfErr result IsOfFiles }
    ensures counts { CountsReads (F.faults shelf.old) (F.faults shelf.new) result }
{
    let Survey {
        plan,
        epochs,
        epoch,
        files,
        identity,
    } = survey;
    let recordings = index_all(alloc, shelf, plan.plan().stations.items(), files)?;
    Ok(Ready {
        plan,
        epochs,
        epoch,
        recordings,
        identity,
    })
}

/// Takes the recordings of a job that is joined: their sizes and the number of their slots, and then each station's index.
pub fn load_recordings<F: Shelf>(
    alloc: Global,
    joined: Joined,
    shelf: &mut F,
) -> Result<Ready, Refusal>
    ensures same { F.told shelf.new ≡ F.told shelf.old }
    ensures plan { IfOk result (λ ready. ready.plan ≡ joined.plan) }
    ensures epoch { IfOk result (λ ready. ready.epoch ≡ joined.epoch) }
    ensures recorded { IfOk result (λ ready. WhereTold (F.told shelf.old) (λ files. AreRecorded files ready.plan.stations ready.recordings.items)) }
    ensures identity { IfOk result (λ ready. WhereTold (F.told shelf.old) (λ files. ready.identity ≡ identity_of joined.schedule.items joined.text.items (lengths_of files ready.plan.stations))) }
    ensures fit { OnOk result (WhereTold (F.told shelf.old) (λ files. recordings_answer files joined.plan.stations ≡ None)) }
    ensures due { IfErr result (λ r. WhereTold (F.told shelf.old) (λ files. IsDue r (recordings_answer files joined.plan.stations))) }
    ensures stage { IfErr result IsOfFiles }
    ensures counts { CountsReads (F.faults shelf.old) (F.faults shelf.new) result }
{
    let survey = survey_joined(alloc, joined, shelf)?;
    index_survey(alloc, survey, shelf)
}

/// Reads a job, joins and indexes it: what `survey` does, and then each station's index.
pub fn prepare<F: Shelf>(
    alloc: Global,
    job: &Name,
    vex: Option<&Name>,
    epoch: Option<u64>,
    shelf: &mut F,
) -> Result<Ready, Refusal>
    requires job_text { IsUtf8 job.now }
    requires vex_text { IfSome vex (λ name. IsUtf8 name.now) }
    requires epoch { IfSome epoch (λ e. (1 ≤ e) × (e ≤ 4194304)) }
    ensures same { F.told shelf.new ≡ F.told shelf.old }
    ensures plan { IfOk result (λ ready. WhereTold (F.told shelf.old) (λ files. PlanOf files job.now (option_copied vex.entry) epoch (Ok ready.plan))) }
    ensures epoch { IfOk result (λ ready. ready.epoch ≡ unwrap_or epoch ready.plan.epoch) }
    ensures recorded { IfOk result (λ ready. WhereTold (F.told shelf.old) (λ files. AreRecorded files ready.plan.stations ready.recordings.items)) }
    ensures identity { IfOk result (λ ready. WhereTold (F.told shelf.old) (λ files. ready.identity ≡ identity_under files job.now (option_copied vex.entry) ready.plan)) }
    ensures cause { IfErr result (λ r. WhereTold (F.told shelf.old) (λ files. IsCause r (PlanOf files job.now (option_copied vex.entry) epoch))) }
    ensures stage { IfErr result IsOfFiles }
    ensures counts { CountsReads (F.faults shelf.old) (F.faults shelf.new) result }
{
    let survey = survey(alloc, job, vex, epoch, shelf)?;
    index_survey(alloc, survey, shelf)
}
