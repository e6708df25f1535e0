//! The frames and the values that an epoch is summed from.
ghost use Rattle.std.specs.Prelude.{◌≡◌, ◌≤◌, None, Option, IfOk, IfSome, is_some, option_map};
ghost use Rattle.corr_model.specs.Files.{Files};
ghost use Rattle.dev_traits.specs.Told.{WhereTold};
ghost use Rattle.station_stream.specs.{Faults.{CountsReads}, Recorded.{AreRecorded}};
ghost use Rattle.plan_places.specs.Places.{place_at, IsPlace};
ghost use Rattle.run_sums.specs.Found.{IsOfJob};
ghost use Rattle.journal_rounds.specs.{Epochs.{IsNext}, Ahead.{IsFramed, IsHeld, IsWalk, epoch_read}};

use crate::epochs::epoch_from;
use dev_traits::Shelf;
use piece_plan::{EpochPlan, JobPlan};
use plan_places::Place;
use ready_job::Ready;
use run_sums::{EpochFrames, EpochValues, Spare, make_epoch, read_epoch, scan_of};
use station_stream::StreamFault;
use std::alloc::{AllocError, Global};
use std::thread::Threads;

/// Frames that are read, and the epoch that they are of.
#[derive(Drop)]
pub(crate) struct Framed {
    pub(crate) epoch: EpochPlan,
    pub(crate) frames: EpochFrames,
}

/// Values that are made, and the epoch that they are of.
#[derive(Drop)]
pub(crate) struct Held {
    pub(crate) epoch: EpochPlan,
    pub(crate) values: EpochValues,
}

/// Reads the frames of the epoch of a part of the job from a place on, where there is a place, and makes its values out of them, by
/// threads, of which about `workers` are at work, in room of `spare`.
pub(crate) fn held_from<R: Threads + Sync, F: Shelf>(
    rt: &R,
    alloc: Global,
    spare: &mut Spare,
    ready: &Ready,
    part: &JobPlan,
    shelf: &mut F,
    at: Option<Place>,
    epoch: u64,
    workers: u32,
) -> Result<Option<Held>, StreamFault>
    requires walk { IsWalk (F.told shelf.old) ready.now part.now epoch }
    requires place { IfSome at (λ p. IsPlace part.now (place_at p)) }
    requires workers { (1 ≤ workers) × (workers ≤ 64) }
    ensures same { F.told shelf.new ≡ F.told shelf.old }
    ensures values { IfOk result (λ held. IfSome held (IsHeld (F.told shelf.old) ready.now)) }
    ensures next { IfOk result (λ held. IsNext part.now epoch (option_map place_at at) (epoch_read held)) }
    ensures read { IfOk result (λ held. is_some held ≡ is_some at) }
    ensures counts { CountsReads (F.faults shelf.old) (F.faults shelf.new) result }
{
    let Some(place) = at else {
        return Ok(None);
    };
    let e = epoch_from(ready, part, &place, epoch);
    let framed = read_frames(alloc, spare, ready, shelf, e)?;
    are_framed(shelf, ready, &framed);
    let held = make_held(rt, alloc, spare, ready, framed, workers)?;
    Ok(Some(held))
}

// Frames are those of an epoch of the job also where the files are not told. The call does nothing: it brings this law.
fn are_framed<F: Shelf>(_shelf: &F, _ready: &Ready, _framed: &Framed)
    requires { IsFramed (F.told _shelf.now) _ready.now _framed.now }
    ensures { IsFramed None _ready.now _framed.now }
{}

// Reads the frames of an epoch of the job.
fn read_frames<F: Shelf>(
    alloc: Global,
    spare: &mut Spare,
    ready: &Ready,
    shelf: &mut F,
    epoch: EpochPlan,
) -> Result<Framed, StreamFault>
    requires recorded { WhereTold (F.told shelf.old) (λ files. AreRecorded files ready.now.plan.stations ready.now.recordings.items) }
    requires epoch { IsOfJob ready.now.plan ready.now.epochs epoch }
    ensures same { F.told shelf.new ≡ F.told shelf.old }
    ensures epoch { IfOk result (λ framed. framed.epoch ≡ epoch) }
    ensures frames { IfOk result (IsFramed (F.told shelf.old) ready.now) }
    ensures counts { CountsReads (F.faults shelf.old) (F.faults shelf.new) result }
{
    let scan = scan_of(ready.plan.plan(), &epoch);
    let frames = read_epoch(alloc, spare, ready, shelf, scan, &epoch)?;
    Ok(Framed { epoch, frames })
}

// Makes the values of an epoch of the job out of its frames, by threads, of which about `workers` are at work, in room of `spare`.
fn make_held<R: Threads + Sync>(
    rt: &R,
    alloc: Global,
    spare: &mut Spare,
    ready: &Ready,
    framed: Framed,
    workers: u32,
) -> Result<Held, AllocError>
    requires framed { IsFramed None ready.now framed }
    requires workers { (1 ≤ workers) × (workers ≤ 64) }
    ensures epoch { IfOk result (λ held. held.epoch ≡ framed.epoch) }
    ensures values { IfOk result (λ held. (told : Option Files) → IsFramed told ready.now framed → IsHeld told ready.now held) }
{
    let epoch = framed.epoch;
    let scan = scan_of(ready.plan.plan(), &epoch);
    let values = make_epoch(
        rt,
        alloc,
        spare,
        ready,
        scan,
        &epoch,
        framed.frames,
        workers,
    )?;
    Ok(Held { epoch, values })
}
