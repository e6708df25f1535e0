//! The frames of one station's part of a scan.
use crate::stay_part::{chans_of, part_of};
use crate::swept::{fill_chan, leave_swept, read_swept};
use crate::threads::Threads;
use crate::window::Window;
use crate::{Recording, StationChan, StationPart, StreamFault};
use dev_traits::Shelf;
use job_plan::{Plan, ScanPlan, StayPlan};
use std::alloc::Global;

/// The frames in which the recorded samples of a station's part of a scan lie, at the samples from `from` up to, not including,
/// `to`: read, and not yet unpacked. Values are taken from them without a shelf and without memory, so threads can share them.
#[derive(Drop)]
pub struct StayFrames {
    pub from: u64,
    pub to: u64,
    chans: Vec<Option<StationChan>>,
    sweeps: Vec<Threads>,
}

impl StayFrames {
    ghost use Rattle.std.specs.Prelude.{◌≡◌, ◌+◌, ◌<◌, ◌≤◌, ℕ, pos, true, None, Option, is_some, length, slice_index, IfOk};
    ghost use Rattle.dev_traits.specs.Told.{WhereTold};
    ghost use Rattle.frame_index.specs.Recording.{Shelved};
    ghost use Rattle.job_plan.specs.{Ranges.{IsPlan, IsScanPlan, IsStay}, Values.{stay_of}};
    ghost use Rattle.value_codes.specs.Codes.{value_of};
    ghost use Rattle.station_stream.specs.{Faults.{CountsReads}, Recorded.{AreNamed, AreRecorded}, Part.{part_value}, StayFrames.{HoldFrames, HoldStay, IsPartOfStay}};

    /// Reads the frames of a station's part of a scan at the samples from `from` up to, not including, `to`, each once, in the room
    /// of spare lists. `stay` is one of the scan's, and `recordings` are those of the plan's stations, in their order.
    pub fn read<F: Shelf>(
        alloc: Global,
        spare: &mut Vec<Vec<u8>>,
        shelf: &mut F,
        plan: &Plan,
        scan: &ScanPlan,
        stay: &StayPlan,
        recordings: &[Recording],
        from: u64,
        to: u64,
    ) -> Result<StayFrames, StreamFault>
        requires plan { IsPlan plan.now }
        requires scan { IsScanPlan plan.now scan.now }
        requires stay { IsStay plan.now scan.now stay.now }
        requires stands { is_some (stay_of scan.now stay.now.station) ≡ true }
        requires named { AreNamed plan.now.stations recordings.now }
        requires recorded { WhereTold (F.told shelf.old) (λ files. AreRecorded files plan.now.stations recordings.now) }
        requires order { from ≤ to }
        requires end { to ≤ scan.now.samples }
        ensures same { F.told shelf.new ≡ F.told shelf.old }
        ensures window { IfOk result (λ f. (f.from ≡ from) × (f.to ≡ to)) }
        ensures held { IfOk result (HoldStay (F.told shelf.old) plan.now scan.now stay.now recordings.now) }
        ensures counts { CountsReads (F.faults shelf.old) (F.faults shelf.new) result }
    {
        let number = stay.station as usize;
        let station = &plan.stations.items()[number];
        let recording = &recordings[number];
        let chans = chans_of(alloc, station, stay)?;
        let part = part_of(plan, scan, station, stay, recording, &chans);
        let count = (to - from) as usize;
        let window = Window { from, count };
        let sweeps = read_swept(alloc, spare, shelf, &recording.index, &part, window)?;
        Ok(StayFrames {
            from,
            to,
            chans,
            sweeps,
        })
    }

    /// The part of the scan that the station has. The plan, the scan, the stay and the recordings are those of `read`.
    pub fn part<'a>(
        &'a self,
        plan: &'a Plan,
        scan: &ScanPlan,
        stay: &StayPlan,
        recordings: &'a [Recording],
    ) -> StationPart<'a>
        requires plan { IsPlan plan.now }
        requires scan { IsScanPlan plan.now scan.now }
        requires stay { IsStay plan.now scan.now stay.now }
        requires stands { is_some (stay_of scan.now stay.now.station) ≡ true }
        requires named { AreNamed plan.now.stations recordings.now }
        requires held { HoldStay None plan.now scan.now stay.now recordings.now self.now }
        ensures { IsPartOfStay plan.now scan.now stay.now recordings.now result }
    {
        let number = stay.station as usize;
        let station = &plan.stations.items()[number];
        part_of(plan, scan, station, stay, &recordings[number], &self.chans)
    }

    /// Sets `codes` to the values of a channel of the part, by its place among the part's, at the samples from `from` on, which lie in
    /// the window: the code of no value where the station has none. It takes no memory.
    pub fn fill(&self, part: &StationPart<'_>, chan: usize, from: u64, codes: &mut [u8])
        requires held { HoldFrames None part.now self.now }
        requires begin { self.now.from ≤ from }
        requires end { from + length codes.old ≤ self.now.to }
        requires inside { self.now.to ≤ part.now.track.samples }
        ensures { (told : Option Shelved) → HoldFrames told part.now self.now → WhereTold told (λ files. (k : ℕ) → k < length codes.new
            → value_of (slice_index codes.new k) ≡ part_value files part.now chan (pos (from + k))) }
    {
        let count = codes.len();
        let window = Window { from, count };
        fill_chan(&self.sweeps, part, chan, window, codes);
    }

    /// Gives the room of the frames to the spare lists, from which `read` takes it.
    pub fn leave(self, spare: &mut Vec<Vec<u8>>) {
        leave_swept(self.sweeps, spare);
    }
}
