//! The values of a scan.
ghost use Rattle.std.specs.Prelude.{◌≡◌, ◌-◌, ◌≤◌, ◌≤ℤ◌, ◌<ℤ◌, ◌⊎◌, ℕ, ℤ, pos, ◌==◌, length, map, None, IfOk};
ghost use Rattle.std.specs.List.{position};
ghost use Rattle.dev_traits.specs.Told.{WhereTold};
ghost use Rattle.job_plan.specs.{declared.plan.StayPlan.{StayPlan}, Ranges.{IsPlan, IsScanPlan}, Values.{rotated}};
ghost use Rattle.station_stream.specs.{Faults.{CountsReads}, Recorded.{AreNamed, AreRecorded}};

use corr_model::Values;
use dev_traits::Shelf;
use job_plan::{Plan, ScanPlan};
use station_stream::{Recording, Stream, StreamFault, stay_stream};
use std::alloc::Global;

/// The values of a scan's stations at the samples from one up to, not including, another: the numbers of the stations that
/// stand in the scan, and the stream of each.
#[derive(Drop)]
pub(crate) struct ScanValues {
    stations: Vec<u32>,
    streams: Vec<Stream>,
    ghost each: { length streams.items ≡ length stations.items },
}

impl ScanValues {
    ghost use Rattle.plain_sums.specs.Values.{values_of};

    /// Reads the values of a scan's stations at the samples from `from` up to, not including, `to`. `recordings` are those of
    /// the plan's stations, in their order.
    pub(crate) fn load<F: Shelf>(
        alloc: Global,
        shelf: &mut F,
        plan: &Plan,
        scan: &ScanPlan,
        recordings: &[Recording],
        from: u64,
        to: u64,
    ) -> Result<ScanValues, StreamFault>
        requires plan { IsPlan plan.now }
        requires scan { IsScanPlan plan.now scan.now }
        requires named { AreNamed plan.now.stations recordings.now }
        requires recorded { WhereTold (F.told shelf.old) (λ files. AreRecorded files plan.now.stations recordings.now) }
        requires order { from ≤ to }
        requires end { to ≤ scan.now.samples }
        requires few { to - from ≤ 4195328 }
        ensures same { F.told shelf.new ≡ F.told shelf.old }
        ensures values { IfOk result (λ v. WhereTold (F.told shelf.old) (λ files. (station chan : ℕ) (n : ℤ) → pos from ≤ℤ n → n <ℤ pos to
            → values_of v station chan n ≡ rotated plan.now files scan.now station chan n)) }
        ensures outside { IfOk result (λ v. (station chan : ℕ) (n : ℤ) → (n <ℤ pos from) ⊎ (pos to ≤ℤ n) → values_of v station chan n ≡ None) }
        ensures stands { IfOk result (λ v. v.stations.items ≡ map (λ (stay : StayPlan). stay.station) scan.now.stays) }
        ensures counts { CountsReads (F.faults shelf.old) (F.faults shelf.new) result }
    {
        let mut spare = Vec::new(alloc);
        let mut stations = Vec::new(alloc);
        let mut streams = Vec::new(alloc);
        for stay in scan.stays.items() {
            let stream = stay_stream(
                alloc, &mut spare, shelf, plan, scan, stay, recordings, from, to,
            )?;
            stations.push(stay.station)?;
            streams.push(stream)?;
        }
        Ok(ScanValues { stations, streams })
    }

    // The place of a station's stream; None where it has no part in the scan.
    fn place(&self, station: u32) -> Option<usize>
        ensures { result ≡ position (λ number. number == station) self.now.stations.items }
    {
        self.stations.iter().position(|number| *number == station)
    }
}

impl Values for ScanValues {
    ghost use Rattle.plain_sums.specs.Values.{values_of};

    ghost samples = { values_of };

    fn z(&self, station: u32, chan: u32, n: i64) -> Option<(i8, i8)> {
        match self.place(station) {
            Some(place) => self.streams[place].value(chan, n),
            None => None,
        }
    }
}
