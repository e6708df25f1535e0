//! A job joined with its schedule, before its recordings are looked at.
ghost use Rattle.std.specs.Prelude.{◌≡◌, ◌≤◌, ◌<◌, ◌^◌, IfOk, IfErr, IfSome, Ok, None, Some, length, unwrap_or, option_copied};
ghost use Rattle.std.specs.{List.{All}, Str.{IsUtf8}};
ghost use Rattle.dev_traits.specs.Told.{WhereTold};
ghost use Rattle.corr_model.specs.Files.{bytes_under};
ghost use Rattle.run_notes.specs.{Refusals.{IsCause}, Counted.{CountsReads}};
ghost use Rattle.run_ready.specs.{Outcome.{Joins, JoinOf}, Identities.{schedule_text}, Sizes.{HasFewFiles, HasFewEpochs}, Stage.{IsOfFiles, IsOfTexts}};

use crate::scans::{JobRead, ScheduleRead, load_job, load_schedule, plan_of};
use dev_traits::Shelf;
use job_plan::Plan0;
use job_text::inline_schedule;
use num_time::Name;
use run_notes::Refusal;
use std::alloc::Global;

/// The plan of a job, the samples of an epoch in force, the text of the job's schedule, empty where there is none, and that of the
/// job.
#[derive(Drop)]
pub struct Joined {
    pub plan: Plan0,
    pub epoch: u64,
    pub schedule: Vec<u8>,
    pub text: Vec<u8>,
    pub ghost short_schedule: { length schedule.items ≤ 8388608 },
    pub ghost short_text: { length text.items ≤ 4194304 },
    pub ghost few: { All (λ s. length s.files < 2 ^ 32) plan.stations },
    pub ghost few_scans: { length plan.scans ≤ 8388608 },
    pub ghost some_epoch: { 1 ≤ epoch },
    pub ghost short_epoch: { epoch ≤ 4194304 },
    pub ghost few_epochs: { HasFewEpochs plan epoch },
}

// The samples of an epoch in force: what is asked for, or else what the plan has.
fn in_force(asked: Option<u64>, plan: &Plan0) -> u64
    requires { IfSome asked (λ e. (1 ≤ e) × (e ≤ 4194304)) }
    ensures value { result ≡ unwrap_or asked plan.now.epoch }
    ensures some { 1 ≤ result }
    ensures short { result ≤ 4194304 }
{
    match asked {
        Some(epoch) => epoch,
        None => plan.plan().epoch,
    }
}

// A job and a schedule that are read, joined.
fn joins(
    alloc: Global,
    schedule: ScheduleRead,
    read: JobRead,
    epoch: Option<u64>,
) -> Result<Joined, Refusal>
    requires short_schedule { length schedule.text.items ≤ 8388608 }
    requires short_text { length read.text.items ≤ 4194304 }
    requires few { All HasFewFiles read.job.stations }
    requires few_scans { length schedule.list.scans ≤ 8388608 }
    requires epoch { IfSome epoch (λ e. (1 ≤ e) × (e ≤ 4194304)) }
    ensures plan { IfOk result (λ j. Joins (λ stations. None) read.job epoch schedule.list.scans (Ok j.plan)) }
    ensures epoch { IfOk result (λ j. j.epoch ≡ unwrap_or epoch j.plan.epoch) }
    ensures schedule { IfOk result (λ j. j.schedule.items ≡ schedule.text.items) }
    ensures text { IfOk result (λ j. j.text.items ≡ read.text.items) }
    ensures cause { IfErr result (λ r. IsCause r (Joins (λ stations. None) read.job epoch schedule.list.scans)) }
    ensures stage { IfErr result IsOfTexts }
{
    let plan = plan_of(alloc, &read.job, &schedule.list, epoch)?;
    let epoch = in_force(epoch, &plan);
    Ok(Joined {
        plan,
        epoch,
        schedule: schedule.into_text(),
        text: read.into_text(),
    })
}

// A job that states its scans itself, joined.
fn join_inline<F: Shelf>(
    alloc: Global,
    shelf: &mut F,
    job: &Name,
    epoch: Option<u64>,
) -> Result<Joined, Refusal>
    requires text { IsUtf8 job.now }
    requires epoch { IfSome epoch (λ e. (1 ≤ e) × (e ≤ 4194304)) }
    ensures same { F.told shelf.new ≡ F.told shelf.old }
    ensures plan { IfOk result (λ j. WhereTold (F.told shelf.old) (λ files. JoinOf files job.now None epoch (Ok j.plan))) }
    ensures epoch { IfOk result (λ j. j.epoch ≡ unwrap_or epoch j.plan.epoch) }
    ensures schedule { IfOk result (λ j. WhereTold (F.told shelf.old) (λ files. j.schedule.items ≡ schedule_text files None)) }
    ensures text { IfOk result (λ j. WhereTold (F.told shelf.old) (λ files. j.text.items ≡ bytes_under files job.now)) }
    ensures cause { IfErr result (λ r. WhereTold (F.told shelf.old) (λ files. IsCause r (JoinOf files job.now None epoch))) }
    ensures stage { IfErr result IsOfFiles }
    ensures counts { CountsReads (F.faults shelf.old) (F.faults shelf.new) result }
{
    let read = load_job(alloc, shelf, job, true)?;
    let list = inline_schedule(alloc, &read.job)?;
    let text = Vec::new(alloc);
    joins(alloc, ScheduleRead { text, list }, read, epoch)
}

// A job beside a schedule, which is read first, joined.
fn join_beside<F: Shelf>(
    alloc: Global,
    shelf: &mut F,
    job: &Name,
    vex: &Name,
    epoch: Option<u64>,
) -> Result<Joined, Refusal>
    requires job_text { IsUtf8 job.now }
    requires vex_text { IsUtf8 vex.now }
    requires epoch { IfSome epoch (λ e. (1 ≤ e) × (e ≤ 4194304)) }
    ensures same { F.told shelf.new ≡ F.told shelf.old }
    ensures plan { IfOk result (λ j. WhereTold (F.told shelf.old) (λ files. JoinOf files job.now (Some vex.now) epoch (Ok j.plan))) }
    ensures epoch { IfOk result (λ j. j.epoch ≡ unwrap_or epoch j.plan.epoch) }
    ensures schedule { IfOk result (λ j. WhereTold (F.told shelf.old) (λ files. j.schedule.items ≡ schedule_text files (Some vex.now))) }
    ensures text { IfOk result (λ j. WhereTold (F.told shelf.old) (λ files. j.text.items ≡ bytes_under files job.now)) }
    ensures cause { IfErr result (λ r. WhereTold (F.told shelf.old) (λ files. IsCause r (JoinOf files job.now (Some vex.now) epoch))) }
    ensures stage { IfErr result IsOfFiles }
    ensures counts { CountsReads (F.faults shelf.old) (F.faults shelf.new) result }
{
    let schedule = load_schedule(alloc, shelf, vex)?;
    let read = load_job(alloc, shelf, job, false)?;
    joins(alloc, schedule, read, epoch)
}

/// Reads a job beside its schedule or, where there is none, by itself, and joins them: the schedule comes first, then the job, then
/// both together. Epochs have `epoch` samples, 1 to 4,194,304, or those of the job's own line. Nothing of the recordings is looked at.
pub fn join<F: Shelf>(
    alloc: Global,
    job: &Name,
    vex: Option<&Name>,
    epoch: Option<u64>,
    shelf: &mut F,
) -> Result<Joined, Refusal>
    requires job_text { IsUtf8 job.now }
    requires vex_text { IfSome vex (λ name. IsUtf8 name.now) }
    requires epoch { IfSome epoch (λ e. (1 ≤ e) × (e ≤ 4194304)) }
    ensures same { F.told shelf.new ≡ F.told shelf.old }
    ensures plan { IfOk result (λ j. WhereTold (F.told shelf.old) (λ files. JoinOf files job.now (option_copied vex.entry) epoch (Ok j.plan))) }
    ensures epoch { IfOk result (λ j. j.epoch ≡ unwrap_or epoch j.plan.epoch) }
    ensures schedule { IfOk result (λ j. WhereTold (F.told shelf.old) (λ files. j.schedule.items ≡ schedule_text files (option_copied vex.entry))) }
    ensures text { IfOk result (λ j. WhereTold (F.told shelf.old) (λ files. j.text.items ≡ bytes_under files job.now)) }
    ensures cause { IfErr result (λ r. WhereTold (F.told shelf.old) (λ files. IsCause r (JoinOf files job.now (option_copied vex.entry) epoch))) }
    ensures stage { IfErr result IsOfFiles }
    ensures counts { CountsReads (F.faults shelf.old) (F.faults shelf.new) result }
{
    match vex {
        None => join_inline(alloc, shelf, job, epoch),
        Some(vex) => join_beside(alloc, shelf, job, vex, epoch),
    }
}
