//! The values of an epoch, made out of its frames.
ghost use Rattle.std.specs.Prelude.{◌≡◌, ◌≤◌, None, Option, IfOk, Some, slice_get};
ghost use Rattle.corr_model.specs.Files.{Files};
ghost use Rattle.job_plan.specs.Ranges.{IsScanPlan};
ghost use Rattle.run_sums.specs.{Found.{IsEpochOf}, Frames.{HoldsFrames}, Reach.{HoldsEpoch}};

use crate::frames::EpochFrames;
use crate::made::fill_rows;
use crate::making::Making;
use crate::spare::Spare;
use crate::values::EpochValues;
use crate::window::{reach_from, reach_to};
use epoch_run::EpochPlanes;
use job_plan::ScanPlan;
use piece_plan::EpochPlan;
use ready_job::Ready;
use station_stream::StayFrames;
use std::alloc::{AllocError, Global};
use std::thread::Threads;

// Gives the room of frames to the spare lists.
fn leave_all(stations: Vec<StayFrames>, spare: &mut Vec<Vec<u8>>) {
    for frames in stations {
        frames.leave(spare);
    }
}

/// Makes the values of an epoch of a scan out of its frames, by threads, of which about `workers`, 1 to 64, are at work where they can be
/// had: each takes the levels of a stretch of samples, turns them and writes their codes. The room of the frames goes to `spare`. The
/// only memory that is taken is that of lists of planes.
pub fn make_epoch<R: Threads + Sync>(
    rt: &R,
    alloc: Global,
    spare: &mut Spare,
    ready: &Ready,
    scan: &ScanPlan,
    e: &EpochPlan,
    frames: EpochFrames,
    workers: u32,
) -> Result<EpochValues, AllocError>
    requires there { slice_get ready.now.plan.scans e.now.scan ≡ Some scan.now }
    requires of_scan { IsEpochOf ready.now.plan scan.now e.now }
    requires ranges { IsScanPlan ready.now.plan scan.now }
    requires held { HoldsFrames None ready.now.plan ready.now.recordings.items scan.now e.now frames }
    requires workers { (1 ≤ workers) × (workers ≤ 64) }
    ensures { IfOk result (λ v. (told : Option Files) → HoldsFrames told ready.now.plan ready.now.recordings.items scan.now e.now frames
        → HoldsEpoch told ready.now.plan scan.now e.now v) }
{
    let plan = ready.plan.plan();
    let (from, to) = (reach_from(e), reach_to(e, scan.samples));
    let (pairs, stations) = (frames.pairs, frames.stations);
    let mut rows = frames.rows;
    let making = Making {
        plan,
        scan,
        recordings: &ready.recordings,
        frames: &stations,
        from,
        to,
    };
    fill_rows(rt, &making, workers, &mut rows);
    leave_all(stations, &mut spare.codes);
    let (count, chans) = (scan.stays.items().len(), plan.channels.items().len());
    let planes = EpochPlanes::of_rows(alloc, from, count, chans, rows)?;
    Ok(EpochValues { pairs, planes })
}
