//! A schedule, a job, and the plan that comes of both.
ghost use Rattle.std.specs.Prelude.{◌≡◌, ◌≤◌, ◌<◌, ◌^◌, length, IsTrue, IsSome, IfOk, IfErr, Ok, Some, IfSome, unwrap_or};
ghost use Rattle.std.specs.{List.{All}, Str.{IsUtf8}};
ghost use Rattle.dev_traits.specs.Told.{WhereTold};
ghost use Rattle.job_text.specs.Answer.{job_in};
ghost use Rattle.job_join.specs.Joined.{joined};
ghost use Rattle.run_notes.specs.{Answers.{job_answer}, Refusals.{IsCause}, Counted.{CountsReads}};
ghost use Rattle.run_ready.specs.{Steps.{Is, answered}, Outcome.{take_name, key_name, scan_name, cause_name, cause_answer, ScansOf, ScheduleOf, JobOf}, Sizes.{HasFewFiles, HasFewEpochs}};
ghost use Rattle.run_ready.specs.Stage.{IsOfFiles, IsOfTexts};

use crate::refusals::join_refusal;
use crate::texts::load_text;
use dev_traits::Shelf;
use job_join::{JoinFault, Quantity, join_job};
use job_plan::Plan0;
use job_text::{Job, JobKind, read_job};
use num_time::Name;
use run_notes::{Due, Measure, Refusal};
use scan_list::ScanList;
use std::alloc::Global;
use vex_reader::VexKind;
use vex_schedule::{SchedKind, schedule};

// The greatest lengths of a schedule and of a job's text, in bytes.
const MOST_SCHEDULE_BYTES: u64 = 8_388_608;

const MOST_JOB_BYTES: u64 = 4_194_304;

// The scans of a schedule's text.
fn scans_of(alloc: Global, text: &[u8]) -> Result<ScanList, Refusal>
    ensures scans { IfOk result (λ list. ScansOf text.now (Ok list.scans)) }
    ensures few { IfOk result (λ list. length list.scans ≤ length text.now) }
    ensures cause { IfErr result (λ r. IsCause r (ScansOf text.now)) }
    ensures stage { IfErr result IsOfTexts }
{
    let file = match vex_reader::read(alloc, text) {
        Ok(file) => file,
        Err(fault) => match fault.kind {
            VexKind::Memory => return Err(Refusal::Memory),
            _ => return Err(Refusal::Due(Due::Vex(fault))),
        },
    };
    match schedule(alloc, &file) {
        Ok(list) => Ok(list),
        Err(fault) => match fault.kind {
            SchedKind::Memory => Err(Refusal::Memory),
            _ => Err(Refusal::Due(Due::Schedule(fault))),
        },
    }
}

// The job of a text.
fn job_of(alloc: Global, text: &[u8], inline: bool) -> Result<Job, Refusal>
    requires { length text.now < 2 ^ 32 }
    ensures job { IfOk result (λ job. job_in inline text.now ≡ Ok job) }
    ensures cause { IfErr result (λ r. IsCause r (Is (answered job_answer (job_in inline text.now)))) }
    ensures stage { IfErr result IsOfTexts }
{
    match read_job(alloc, text, inline) {
        Ok(job) => Ok(job),
        Err(fault) => match fault.kind {
            JobKind::Memory => Err(Refusal::Memory),
            _ => Err(Refusal::Due(Due::Job(fault))),
        },
    }
}

/// A schedule, and its text.
#[derive(Drop)]
pub struct ScheduleRead {
    pub text: Vec<u8>,
    pub list: ScanList,
}

impl ScheduleRead {
    /// The text alone.
    pub fn into_text(self) -> Vec<u8>
        ensures { result ≡ self.text }
    {
        self.text
    }
}

/// A job, and its text.
#[derive(Drop)]
pub struct JobRead {
    pub text: Vec<u8>,
    pub job: Job,
}

impl JobRead {
    /// The text alone.
    pub fn into_text(self) -> Vec<u8>
        ensures { result ≡ self.text }
    {
        self.text
    }
}

/// The schedule under a name.
pub fn load_schedule<F: Shelf>(
    alloc: Global,
    shelf: &mut F,
    name: &Name,
) -> Result<ScheduleRead, Refusal>
    requires text { IsUtf8 name.now }
    ensures same { F.told shelf.new ≡ F.told shelf.old }
    ensures text { IfOk result (λ read. WhereTold (F.told shelf.old) (λ files. files name.now ≡ Some read.text.items)) }
    ensures short { IfOk result (λ read. length read.text.items ≤ 8388608) }
    ensures scans { IfOk result (λ read. WhereTold (F.told shelf.old) (λ files. ScheduleOf files name.now (Ok read.list.scans))) }
    ensures few { IfOk result (λ read. length read.list.scans ≤ 8388608) }
    ensures cause { IfErr result (λ r. WhereTold (F.told shelf.old) (λ files. IsCause r (ScheduleOf files name.now))) }
    ensures stage { IfErr result IsOfFiles }
    ensures counts { CountsReads (F.faults shelf.old) (F.faults shelf.new) result }
{
    let measure = Measure::Job(Quantity::Schedule);
    let text = load_text(alloc, shelf, name, measure, MOST_SCHEDULE_BYTES)?;
    let list = scans_of(alloc, &text)?;
    Ok(ScheduleRead { text, list })
}

/// The job under a name, read beside a schedule or, inline, without one.
pub fn load_job<F: Shelf>(
    alloc: Global,
    shelf: &mut F,
    name: &Name,
    inline: bool,
) -> Result<JobRead, Refusal>
    requires text { IsUtf8 name.now }
    ensures same { F.told shelf.new ≡ F.told shelf.old }
    ensures text { IfOk result (λ read. WhereTold (F.told shelf.old) (λ files. files name.now ≡ Some read.text.items)) }
    ensures short { IfOk result (λ read. length read.text.items ≤ 4194304) }
    ensures job { IfOk result (λ read. WhereTold (F.told shelf.old) (λ files. JobOf files name.now inline (Ok read.job))) }
    ensures rate { IfOk result (λ read. IsTrue inline → IsSome read.job.rate) }
    ensures few { IfOk result (λ read. All HasFewFiles read.job.stations) }
    ensures few_scans { IfOk result (λ read. length read.job.scans ≤ 8388608) }
    ensures cause { IfErr result (λ r. WhereTold (F.told shelf.old) (λ files. IsCause r (JobOf files name.now inline))) }
    ensures stage { IfErr result IsOfFiles }
    ensures counts { CountsReads (F.faults shelf.old) (F.faults shelf.new) result }
{
    let measure = Measure::Job(Quantity::Job);
    let text = load_text(alloc, shelf, name, measure, MOST_JOB_BYTES)?;
    let job = job_of(alloc, &text, inline)?;
    Ok(JobRead { text, job })
}

// The name of a take of a job.
fn take_name(job: &Job, number: usize) -> &[u8]
    ensures { result.now ≡ take_name job.now number }
{
    if number < job.takes.len() {
        let (name, _) = job.takes.at(number);
        name
    } else {
        &[]
    }
}

// The key of a station of a job.
fn key_name(job: &Job, number: usize) -> &[u8]
    ensures { result.now ≡ key_name job.now number }
{
    match job.stations.items().get(number) {
        Some(station) => station.key.bytes(),
        None => &[],
    }
}

// The name of a scan of a schedule.
fn scan_name(list: &ScanList, number: usize) -> &[u8]
    ensures { result.now ≡ scan_name list.now.scans number }
{
    match list.scans.items().get(number) {
        Some(scan) => scan.name.bytes(),
        None => &[],
    }
}

// The name of the take, the station or the scan that a cause speaks of, empty where it speaks of none.
fn cause_name<'a>(job: &'a Job, list: &'a ScanList, fault: JoinFault) -> &'a [u8]
    ensures { result.now ≡ cause_name job.now list.now.scans fault }
{
    match fault {
        JoinFault::UnknownScan(n) => take_name(job, n),
        JoinFault::UnknownStation(n) => key_name(job, n),
        JoinFault::RateDiffers(n) => scan_name(list, n),
        JoinFault::ChannelDiffers(n) => scan_name(list, n),
        JoinFault::ProductDiffers(n) => scan_name(list, n),
        JoinFault::FrameRate(n) => key_name(job, n),
        JoinFault::NoModel(n) => key_name(job, n),
        JoinFault::NoClock(n) => key_name(job, n),
        JoinFault::Limit(_, _) => &[],
        JoinFault::Memory => &[],
    }
}

/// The plan of a job and a schedule, whose epochs have `epoch` samples, 1 to 4,194,304, or those of the job's own line.
pub fn plan_of(
    alloc: Global,
    job: &Job,
    list: &ScanList,
    epoch: Option<u64>,
) -> Result<Plan0, Refusal>
    requires few { All HasFewFiles job.now.stations }
    requires few_scans { length list.now.scans ≤ 8388608 }
    requires epoch { IfSome epoch (λ e. (1 ≤ e) × (e ≤ 4194304)) }
    ensures plan { IfOk result (λ plan. Is (answered (cause_answer job.now list.now.scans) (joined job.now (unwrap_or epoch job.now.epoch) list.now.scans)) (Ok plan)) }
    ensures few { IfOk result (λ plan. All (λ s. length s.files < 2 ^ 32) plan.stations) }
    ensures few_scans { IfOk result (λ plan. length plan.scans ≤ 8388608) }
    ensures few_epochs { IfOk result (λ plan. HasFewEpochs plan (unwrap_or epoch plan.epoch)) }
    ensures cause { IfErr result (λ r. IsCause r (Is (answered (cause_answer job.now list.now.scans) (joined job.now (unwrap_or epoch job.now.epoch) list.now.scans)))) }
    ensures stage { IfErr result IsOfTexts }
{
    match join_job(alloc, job, list, epoch) {
        Ok(plan) => {
            let _ranges = plan.plan();
            Ok(plan)
        }
        Err(fault) => {
            let name = Name::new(alloc, cause_name(job, list, fault))?;
            Err(join_refusal(fault, name))
        }
    }
}
