//! The frames of an epoch, read from the shelf.
ghost use Rattle.std.specs.Prelude.{◌≡◌, IfOk, Some, slice_get};
ghost use Rattle.dev_traits.specs.Told.{WhereTold};
ghost use Rattle.station_stream.specs.{Faults.{CountsReads}, Recorded.{AreRecorded}};
ghost use Rattle.job_plan.specs.Ranges.{IsScanPlan};
ghost use Rattle.run_sums.specs.{Found.{IsEpochOf}, Frames.{HoldsFrames}};

use crate::frames::EpochFrames;
use crate::pairs::pairs_of;
use crate::parts::{read_stations, rows_for};
use crate::spare::Spare;
use crate::window::{reach_from, reach_to};
use dev_traits::Shelf;
use job_plan::ScanPlan;
use piece_plan::EpochPlan;
use ready_job::Ready;
use station_stream::StreamFault;
use std::alloc::Global;

/// Reads the frames of the samples that the lags of an epoch of a scan reach, and takes room for the codes of their values, in room of
/// `spare` where there is such. The epoch may be any range of the scan's samples. The memory for pairs and codes is taken before the
/// first read, and that for frames as they are read.
pub fn read_epoch<F: Shelf>(
    alloc: Global,
    spare: &mut Spare,
    ready: &Ready,
    shelf: &mut F,
    scan: &ScanPlan,
    e: &EpochPlan,
) -> Result<EpochFrames, StreamFault>
    requires recorded { WhereTold (F.told shelf.old) (λ files. AreRecorded files ready.now.plan.stations ready.now.recordings.items) }
    requires there { slice_get ready.now.plan.scans e.now.scan ≡ Some scan.now }
    requires of_scan { IsEpochOf ready.now.plan scan.now e.now }
    requires ranges { IsScanPlan ready.now.plan scan.now }
    ensures same { F.told shelf.new ≡ F.told shelf.old }
    ensures frames { IfOk result (HoldsFrames (F.told shelf.old) ready.now.plan ready.now.recordings.items scan.now e.now) }
    ensures counts { CountsReads (F.faults shelf.old) (F.faults shelf.new) result }
{
    let plan = ready.plan.plan();
    let (from, to) = (reach_from(e), reach_to(e, scan.samples));
    let pairs = pairs_of(alloc, plan, scan)?;
    let (codes, recordings) = (&mut spare.codes, &ready.recordings);
    let rows = rows_for(alloc, codes, plan, scan, from, to)?;
    let stations = read_stations(alloc, codes, shelf, plan, scan, recordings, from, to)?;
    Ok(EpochFrames {
        pairs,
        rows,
        stations,
    })
}
