//! What is read ahead.
ghost use Rattle.std.specs.Prelude.{◌≡◌, ◌≤◌, None, Option, Some, IfOk, IfSome, slice_get};
ghost use Rattle.dev_traits.specs.Told.{WhereTold};
ghost use Rattle.corr_model.specs.Files.{Files};
ghost use Rattle.station_stream.specs.{Faults.{CountsReads}, Recorded.{AreRecorded}};
ghost use Rattle.ready_job.specs.declared.ready.Ready.{Ready};
ghost use Rattle.run_sums.specs.{Frames.{HoldsFrames}, Reach.{HoldsEpoch}};
ghost use Rattle.bin_sums.specs.Ahead.{IsAheadOf, IsHeld, IsOfJob, IsOfScan};

use crate::epochs::scan_of;
use dev_traits::Shelf;
use job_plan::ScanPlan;
use piece_plan::EpochPlan;
use ready_job::Ready;
use run_sums::{EpochFrames, EpochValues, Spare, make_epoch, read_epoch};
use station_stream::StreamFault;
use std::alloc::Global;
use std::thread::Threads;

/// What of a job is read ahead of its sums by bins: the frames of an epoch, and room of epochs that are over.
#[derive(Drop)]
pub struct BinsAhead {
    pub(crate) held: Option<Held>,
    pub(crate) spare: Spare,
}

/// Frames that are read, and the epoch that they are of.
#[derive(Drop)]
pub struct Held {
    pub(crate) epoch: EpochPlan,
    pub(crate) frames: EpochFrames,
}

impl BinsAhead {
    /// Nothing is read yet.
    pub fn none(alloc: Global) -> BinsAhead
        ensures { (told : Option Files) (ready : Ready) → IsAheadOf told ready result }
    {
        BinsAhead {
            held: None,
            spare: Spare::none(alloc),
        }
    }
}

/// The values of an epoch of a scan, made by threads, of which about `workers` are at work: out of the frames that are read ahead where
/// these are of this epoch, and else out of others, which are read. What is read ahead is gone behind the call.
pub(crate) fn take_values<R: Threads + Sync, F: Shelf>(
    rt: &R,
    alloc: Global,
    ready: &Ready,
    shelf: &mut F,
    ahead: &mut BinsAhead,
    scan: &ScanPlan,
    e: &EpochPlan,
    workers: u32,
) -> Result<EpochValues, StreamFault>
    requires recorded { WhereTold (F.told shelf.old) (λ files. AreRecorded files ready.now.plan.stations ready.now.recordings.items) }
    requires ahead { IsAheadOf (F.told shelf.old) ready.now ahead.old }
    requires epoch { IsOfScan ready.now.plan scan.now e.now }
    requires workers { (1 ≤ workers) × (workers ≤ 64) }
    ensures same { F.told shelf.new ≡ F.told shelf.old }
    ensures none { ahead.new.held ≡ None }
    ensures values { IfOk result (λ v. HoldsEpoch (F.told shelf.old) ready.now.plan scan.now e.now v) }
    ensures counts { CountsReads (F.faults shelf.old) (F.faults shelf.new) result }
{
    let frames = frames_of(alloc, ready, shelf, ahead, scan, e)?;
    are_told(shelf, ready, scan, e, &frames);
    let spare = &mut ahead.spare;
    let values = make_epoch(rt, alloc, spare, ready, scan, e, frames, workers)?;
    Ok(values)
}

// The frames of an epoch of a scan: those that are read ahead where they are of this epoch, and else they are read.
fn frames_of<F: Shelf>(
    alloc: Global,
    ready: &Ready,
    shelf: &mut F,
    ahead: &mut BinsAhead,
    scan: &ScanPlan,
    e: &EpochPlan,
) -> Result<EpochFrames, StreamFault>
    requires recorded { WhereTold (F.told shelf.old) (λ files. AreRecorded files ready.now.plan.stations ready.now.recordings.items) }
    requires ahead { IsAheadOf (F.told shelf.old) ready.now ahead.old }
    requires epoch { IsOfScan ready.now.plan scan.now e.now }
    ensures same { F.told shelf.new ≡ F.told shelf.old }
    ensures none { ahead.new.held ≡ None }
    ensures frames { IfOk result (HoldsFrames (F.told shelf.old) ready.now.plan ready.now.recordings.items scan.now e.now) }
    ensures counts { CountsReads (F.faults shelf.old) (F.faults shelf.new) result }
{
    match take_frames(ahead, ready, shelf, scan, e) {
        Some(frames) => Ok(frames),
        None => read_epoch(alloc, &mut ahead.spare, ready, shelf, scan, e),
    }
}

// The frames that are read ahead, where they are of an epoch; what is read ahead is gone then.
fn take_frames<F: Shelf>(
    ahead: &mut BinsAhead,
    _ready: &Ready,
    _shelf: &F,
    _scan: &ScanPlan,
    e: &EpochPlan,
) -> Option<EpochFrames>
    requires ahead { IsAheadOf (F.told _shelf.now) _ready.now ahead.old }
    requires epoch { IsOfScan _ready.now.plan _scan.now e.now }
    ensures none { ahead.new.held ≡ None }
    ensures frames { IfSome result (HoldsFrames (F.told _shelf.now) _ready.now.plan _ready.now.recordings.items _scan.now e.now) }
{
    let held = ahead.held.take()?;
    if held.epoch == *e {
        return Some(held.frames);
    }
    None
}

// Frames are those of the epoch also where the files are not told. The call does nothing: it brings this law.
fn are_told<F: Shelf>(
    _shelf: &F,
    _ready: &Ready,
    _scan: &ScanPlan,
    _e: &EpochPlan,
    _frames: &EpochFrames,
)
    requires { HoldsFrames (F.told _shelf.now) _ready.now.plan _ready.now.recordings.items _scan.now _e.now _frames.now }
    ensures { HoldsFrames None _ready.now.plan _ready.now.recordings.items _scan.now _e.now _frames.now }
{}

/// Reads the frames of an epoch of the job, where there is one, in room of `spare`.
pub(crate) fn read_held<F: Shelf>(
    alloc: Global,
    spare: &mut Spare,
    ready: &Ready,
    shelf: &mut F,
    e: Option<EpochPlan>,
) -> Result<Option<Held>, StreamFault>
    requires recorded { WhereTold (F.told shelf.old) (λ files. AreRecorded files ready.now.plan.stations ready.now.recordings.items) }
    requires epoch { IfSome e (IsOfJob ready.now.plan) }
    ensures same { F.told shelf.new ≡ F.told shelf.old }
    ensures held { IfOk result (λ held. IfSome held (IsHeld (F.told shelf.old) ready.now)) }
    ensures counts { CountsReads (F.faults shelf.old) (F.faults shelf.new) result }
{
    match e {
        Some(epoch) => Ok(Some(read_one(alloc, spare, ready, shelf, epoch)?)),
        None => Ok(None),
    }
}

// Reads the frames of an epoch of the job, in room of `spare`.
fn read_one<F: Shelf>(
    alloc: Global,
    spare: &mut Spare,
    ready: &Ready,
    shelf: &mut F,
    epoch: EpochPlan,
) -> Result<Held, StreamFault>
    requires recorded { WhereTold (F.told shelf.old) (λ files. AreRecorded files ready.now.plan.stations ready.now.recordings.items) }
    requires epoch { IsOfJob ready.now.plan epoch }
    ensures same { F.told shelf.new ≡ F.told shelf.old }
    ensures held { IfOk result (IsHeld (F.told shelf.old) ready.now) }
    ensures counts { CountsReads (F.faults shelf.old) (F.faults shelf.new) result }
{
    let scan = scan_of(ready.plan.plan(), &epoch);
    let frames = read_epoch(alloc, spare, ready, shelf, scan, &epoch)?;
    Ok(Held { epoch, frames })
}
