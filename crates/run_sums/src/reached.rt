//! The epoch that is read.
ghost use Rattle.std.specs.Prelude.{◌≡◌, ◌≤◌, IfOk, Some, slice_get};
ghost use Rattle.dev_traits.specs.Told.{WhereTold};
ghost use Rattle.station_stream.specs.{Faults.{CountsReads}, Recorded.{AreRecorded}};
ghost use Rattle.job_plan.specs.Ranges.{IsScanPlan};
ghost use Rattle.run_sums.specs.{Found.{IsEpochOf}, Reach.{HoldsEpoch}};

use crate::make::make_epoch;
use crate::read::read_epoch;
use crate::spare::Spare;
use crate::values::EpochValues;
use dev_traits::Shelf;
use job_plan::ScanPlan;
use piece_plan::EpochPlan;
use ready_job::Ready;
use station_stream::StreamFault;
use std::alloc::Global;
use std::thread::Threads;

/// Reads the values of the samples that the lags of an epoch of a scan reach, and makes their planes, by threads, of which about
/// `workers`, 1 to 64, are at work where they can be had, in room of `spare` where there is such. The epoch may be any range of the
/// scan's samples. The memory for pairs and codes is taken before the first read, and that for frames as they are read.
pub fn reach_epoch<R: Threads + Sync, F: Shelf>(
    rt: &R,
    alloc: Global,
    spare: &mut Spare,
    ready: &Ready,
    shelf: &mut F,
    scan: &ScanPlan,
    e: &EpochPlan,
    workers: u32,
) -> Result<EpochValues, StreamFault>
    requires recorded { WhereTold (F.told shelf.old) (λ files. AreRecorded files ready.now.plan.stations ready.now.recordings.items) }
    requires there { slice_get ready.now.plan.scans e.now.scan ≡ Some scan.now }
    requires of_scan { IsEpochOf ready.now.plan scan.now e.now }
    requires ranges { IsScanPlan ready.now.plan scan.now }
    requires workers { (1 ≤ workers) × (workers ≤ 64) }
    ensures same { F.told shelf.new ≡ F.told shelf.old }
    ensures values { IfOk result (λ v. HoldsEpoch (F.told shelf.old) ready.now.plan scan.now e.now v) }
    ensures counts { CountsReads (F.faults shelf.old) (F.faults shelf.new) result }
{
    let frames = read_epoch(alloc, spare, ready, shelf, scan, e)?;
    let values = make_epoch(rt, alloc, spare, ready, scan, e, frames, workers)?;
    Ok(values)
}
