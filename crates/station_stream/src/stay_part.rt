//! The part of a scan that a station has.
ghost use Rattle.std.specs.Prelude.{◌≡◌, ◌<◌, ℕ, IfOk, length};
ghost use Rattle.std.specs.{List.{All}, Option.{ForSome}};
ghost use Rattle.delay_track.specs.Track.{model_of};
ghost use Rattle.vdif_frame.specs.Shape.{ShapeFields};
ghost use Rattle.job_plan.specs.{Ranges.{IsPlan, IsScanPlan, IsStation, IsStay, IsModelled, IsRecorded, IsBand}, Values.{model_of as model_in, recorded_at, band_at}};
ghost use Rattle.station_stream.specs.{Part.{chan_at}, Ranges.{IsChanOf}, StayParts.{chan_of, IsPartOf}};

use crate::{Recording, StationChan, StationPart};
use delay_track::Track;
use job_plan::{Band, Plan, Recorded, ScanPlan, StationPlan, StayPlan};
use std::alloc::{AllocError, Global};

// A station's channel in a scan; None where it does not record the channel or has no band for it there.
fn chan_of(recorded: Option<Recorded>, band: Option<Band>) -> Option<StationChan>
    ensures { result ≡ chan_of recorded band }
{
    let recorded = recorded?;
    let band = band?;
    Some(StationChan {
        thread: recorded.thread,
        index: recorded.index,
        hertz: band.hertz,
        upper: band.upper,
    })
}

/// A station's channels in a scan, one for each channel of the job.
pub(crate) fn chans_of(
    alloc: Global,
    station: &StationPlan,
    stay: &StayPlan,
) -> Result<Vec<Option<StationChan>>, AllocError>
    requires each { length station.now.chans ≡ length stay.now.bands }
    requires recorded { All (IsRecorded station.now.shape) station.now.chans }
    requires bands { All IsBand stay.now.bands }
    ensures count { IfOk result (λ chans. length chans.items ≡ length station.now.chans) }
    ensures each { IfOk result (λ chans. (chan : ℕ) → chan_at chans.items chan ≡ chan_of (recorded_at station.now chan) (band_at stay.now chan)) }
    ensures ranges { IfOk result (λ chans. All (λ chan. ForSome chan (IsChanOf station.now.shape)) chans.items) }
{
    let recorded = station.chans.items();
    let bands = stay.bands.items();
    let mut chans = Vec::new(alloc);
    for i in 0..recorded.len() {
        chans.push(chan_of(recorded[i], bands[i]))?;
    }
    Ok(chans)
}

// The delays of a station through a scan.
fn track_of<'a>(plan: &Plan, scan: &ScanPlan, station: &'a StationPlan) -> Track<'a>
    requires plan { IsPlan plan.now }
    requires scan { IsScanPlan plan.now scan.now }
    requires station { IsStation plan.now station.now }
    requires modelled { IsModelled plan.now scan.now station.now }
    ensures model { model_of result ≡ model_in plan.now scan.now station.now }
    ensures samples { result.samples ≡ scan.now.samples }
{
    Track {
        polys: &station.polys,
        clocks: &station.clocks,
        second: i64::from(scan.second),
        rate: plan.rate,
        knot: plan.knot,
        samples: scan.samples,
    }
}

/// The part of a scan that a station has. `chans` are its channels in the scan.
pub(crate) fn part_of<'a>(
    plan: &Plan,
    scan: &ScanPlan,
    station: &'a StationPlan,
    stay: &StayPlan,
    recording: &'a Recording,
    chans: &'a [Option<StationChan>],
) -> StationPart<'a>
    requires plan { IsPlan plan.now }
    requires scan { IsScanPlan plan.now scan.now }
    requires station { IsStation plan.now station.now }
    requires modelled { IsModelled plan.now scan.now station.now }
    requires stay { IsStay plan.now scan.now stay.now }
    requires each { length chans.now ≡ length station.now.chans }
    requires chans { (chan : ℕ) → chan_at chans.now chan ≡ chan_of (recorded_at station.now chan) (band_at stay.now chan) }
    requires ranges { All (λ chan. ForSome chan (IsChanOf station.now.shape)) chans.now }
    ensures { IsPartOf plan.now scan.now station.now stay.now recording.now result }
{
    StationPart {
        files: recording.files.items(),
        shape: station.shape,
        track: track_of(plan, scan, station),
        from: stay.from,
        to: stay.to,
        chans,
    }
}
