//! The values of one station's part of a scan.
ghost use Rattle.std.specs.Prelude.{◌≡◌, ◌-◌, ◌≤◌, ◌≤ℤ◌, ◌<ℤ◌, ℕ, ℤ, pos, true, is_some, length, IfOk};
ghost use Rattle.dev_traits.specs.Told.{WhereTold};
ghost use Rattle.job_plan.specs.{Ranges.{IsPlan, IsScanPlan, IsStay}, Values.{stay_of, stay_value}};
ghost use Rattle.station_stream.specs.{Faults.{CountsReads}, Recorded.{AreNamed, AreRecorded}, Stream.{IsOfWindow, windowed}};

use crate::stay_part::{chans_of, part_of};
use crate::{Recording, Stream, StreamFault};
use dev_traits::Shelf;
use job_plan::{Plan, ScanPlan, StayPlan};
use std::alloc::Global;

/// The values of a station's part of a scan at the samples from `from` up to, not including, `to`, for each of the job's channels,
/// in the room of spare lists. They are at most 4,195,328: those of an epoch, and 512 on each side. `stay` is one of the scan's, and
/// `recordings` are those of the plan's stations, in their order.
pub fn stay_stream<F: Shelf>(
    alloc: Global,
    spare: &mut Vec<Vec<u8>>,
    shelf: &mut F,
    plan: &Plan,
    scan: &ScanPlan,
    stay: &StayPlan,
    recordings: &[Recording],
    from: u64,
    to: u64,
) -> Result<Stream, StreamFault>
    requires plan { IsPlan plan.now }
    requires scan { IsScanPlan plan.now scan.now }
    requires stay { IsStay plan.now scan.now stay.now }
    requires stands { is_some (stay_of scan.now stay.now.station) ≡ true }
    requires named { AreNamed plan.now.stations recordings.now }
    requires recorded { WhereTold (F.told shelf.old) (λ files. AreRecorded files plan.now.stations recordings.now) }
    requires order { from ≤ to }
    requires end { to ≤ scan.now.samples }
    requires few { to - from ≤ 4195328 }
    ensures same { F.told shelf.new ≡ F.told shelf.old }
    ensures window { IfOk result (IsOfWindow from to) }
    ensures chans { IfOk result (λ s. length s.values ≡ length plan.now.channels) }
    ensures values { IfOk result (λ s. WhereTold (F.told shelf.old) (λ files. (chan : ℕ) (n : ℤ) → pos from ≤ℤ n → n <ℤ pos to
        → windowed s chan n ≡ stay_value plan.now files scan.now stay.now chan n)) }
    ensures counts { CountsReads (F.faults shelf.old) (F.faults shelf.new) result }
{
    let number = stay.station as usize;
    let station = &plan.stations.items()[number];
    let recording = &recordings[number];
    let chans = chans_of(alloc, station, stay)?;
    let part = part_of(plan, scan, station, stay, recording, &chans);
    let stream = Stream::load_in(
        alloc,
        spare,
        shelf,
        &recording.index,
        &part,
        from as i64,
        to as i64,
    )?;
    Ok(stream)
}
