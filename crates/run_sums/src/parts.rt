//! The frames of an epoch's stations, and room for their rows.
ghost use Rattle.std.specs.Prelude.{◌≡◌, ◌≤◌, ◌<◌, ◌-◌, ℕ, Some, IfOk, length, slice_get};
ghost use Rattle.dev_traits.specs.Told.{WhereTold};
ghost use Rattle.job_plan.specs.{declared.plan.StayPlan.{StayPlan}, Ranges.{IsPlan, IsScanPlan}};
ghost use Rattle.station_stream.specs.{Faults.{CountsReads}, Recorded.{AreNamed, AreRecorded}, StayFrames.{HoldStay}};
ghost use Rattle.run_sums.specs.Frames.{AreFrames, AreRows, IsOfSamples};

use dev_traits::Shelf;
use job_plan::{Plan, ScanPlan};
use station_stream::{Recording, StayFrames, StreamFault, take_room};
use std::alloc::{AllocError, Global};

/// Room for a row of codes of the samples from `from` up to, not including, `to` for each channel of each station of a scan, in the room
/// of spare lists: the bytes say nothing.
pub(crate) fn rows_for(
    alloc: Global,
    spare: &mut Vec<Vec<u8>>,
    plan: &Plan,
    scan: &ScanPlan,
    from: u64,
    to: u64,
) -> Result<Vec<Vec<u8>>, AllocError>
    requires plan { IsPlan plan.now }
    requires few { length scan.now.stays ≤ 32 }
    requires order { from ≤ to }
    ensures { IfOk result (λ rows. AreRows (length scan.now.stays) (length plan.now.channels) (to - from) rows.items) }
{
    let size = (to - from) as usize;
    let mut rows = Vec::new(alloc);
    for _ in 0..scan.stays.items().len() * plan.channels.items().len() {
        let row = take_room(alloc, spare, size)?;
        rows.push(row)?;
    }
    Ok(rows)
}

// Reads the frames of the station at a place at the samples from `from` up to, not including, `to`.
fn read_station<F: Shelf>(
    alloc: Global,
    spare: &mut Vec<Vec<u8>>,
    shelf: &mut F,
    plan: &Plan,
    scan: &ScanPlan,
    recordings: &[Recording],
    place: usize,
    from: u64,
    to: u64,
) -> Result<StayFrames, StreamFault>
    requires plan { IsPlan plan.now }
    requires scan { IsScanPlan plan.now scan.now }
    requires named { AreNamed plan.now.stations recordings.now }
    requires recorded { WhereTold (F.told shelf.old) (λ files. AreRecorded files plan.now.stations recordings.now) }
    requires place { place < length scan.now.stays }
    requires order { from ≤ to }
    requires end { to ≤ scan.now.samples }
    ensures same { F.told shelf.new ≡ F.told shelf.old }
    ensures window { IfOk result (IsOfSamples from to) }
    ensures held { IfOk result (λ f. (stay : StayPlan) → slice_get scan.now.stays place ≡ Some stay → HoldStay (F.told shelf.old) plan.now scan.now stay recordings.now f) }
    ensures counts { CountsReads (F.faults shelf.old) (F.faults shelf.new) result }
{
    let stay = &scan.stays.items()[place];
    StayFrames::read(alloc, spare, shelf, plan, scan, stay, recordings, from, to)
}

/// Reads the frames of each station's part of a scan at the samples from `from` up to, not including, `to`, station by station.
/// `recordings` are those of the plan's stations, in their order.
pub(crate) fn read_stations<F: Shelf>(
    alloc: Global,
    spare: &mut Vec<Vec<u8>>,
    shelf: &mut F,
    plan: &Plan,
    scan: &ScanPlan,
    recordings: &[Recording],
    from: u64,
    to: u64,
) -> Result<Vec<StayFrames>, StreamFault>
    requires plan { IsPlan plan.now }
    requires scan { IsScanPlan plan.now scan.now }
    requires named { AreNamed plan.now.stations recordings.now }
    requires recorded { WhereTold (F.told shelf.old) (λ files. AreRecorded files plan.now.stations recordings.now) }
    requires order { from ≤ to }
    requires end { to ≤ scan.now.samples }
    ensures same { F.told shelf.new ≡ F.told shelf.old }
    ensures frames { IfOk result (λ frames. AreFrames (F.told shelf.old) plan.now scan.now recordings.now from to frames.items) }
    ensures counts { CountsReads (F.faults shelf.old) (F.faults shelf.new) result }
{
    let mut stations = Vec::new(alloc);
    for place in 0..scan.stays.items().len() {
        let frames = read_station(alloc, spare, shelf, plan, scan, recordings, place, from, to)?;
        stations.push(frames)?;
    }
    Ok(stations)
}
