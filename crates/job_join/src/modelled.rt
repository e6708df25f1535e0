//! The stations of a job that lack a delay model, or a clock, at some sample of a scan.
ghost use Rattle.std.specs.Prelude.{◌≡◌, ◌<◌, ◌^◌, not, map, All};
ghost use Rattle.num_time.specs.Times.{IsSecond};
ghost use Rattle.scan_list.specs.Sound.{AreScans};
ghost use Rattle.job_join.specs.{declared.places.Place.{Place}, Joining.{scans_of, IsJoining}, Modelled.{model_in}, Needs.{are_met, lacking_in, lacking_among, lacking}, Places.{visit_of}};

use crate::joining::Joining;
use crate::places::Place;
use crate::reach::{Need, Reach};
use crate::spans::samples_of;
use crate::stands::Here;
use job_text::Job;
use scan_list::Scan;

// Whether a station lacks what is needed at one of so many samples of a scan.
fn lacks(need: Need, job: &Job, rate: u32, scan: &Scan, samples: u128, here: &Here) -> bool
    requires rate { 0 < rate }
    requires second { IsSecond scan.now.second }
    requires most { samples < 2 ^ 95 }
    ensures { result ≡ not (are_met need (model_in job.now rate scan.now here.now.station.now) samples) }
{
    let station = here.station;
    let reach = Reach {
        polys: &station.polys,
        clocks: &station.clocks,
        second: scan.second,
        rate,
        knot: job.knot,
    };
    !reach.are_met(need, samples)
}

// The number of the first station of a scan that lacks what is needed, where the scan is taken.
fn lacking_in(need: Need, job: &Job, rate: u32, place: &Place) -> Option<usize>
    requires rate { 0 < rate }
    requires second { IsSecond place.now.scan.now.second }
    ensures { result ≡ lacking_in need job.now rate (visit_of place.now) }
{
    if !place.taken {
        return None;
    }
    let samples = samples_of(&place.stands, rate);
    for here in &place.stands {
        if lacks(need, job, rate, place.scan, samples, here) {
            return Some(here.number);
        }
    }
    None
}

// The number of the first station of the first scan that lacks what is needed.
fn lacking_among(need: Need, job: &Job, rate: u32, places: &[Place]) -> Option<usize>
    requires rate { 0 < rate }
    requires seconds { All (λ (p : Place). IsSecond p.scan.now.second) places.now }
    ensures { result ≡ lacking_among need job.now rate (map visit_of places.now) }
{
    for place in places {
        if let Some(number) = lacking_in(need, job, rate, place) {
            return Some(number);
        }
    }
    None
}

/// The number of the first station of the first taken scan that lacks what is needed at some sample of it.
pub(crate) fn lacking(need: Need, j: &Joining) -> Option<usize>
    requires joining { IsJoining j.now }
    requires scans { AreScans (scans_of j.now) }
    requires rate { 0 < j.now.rate }
    ensures { result ≡ lacking need j.now.job.now (scans_of j.now) }
{
    lacking_among(need, j.job, j.rate, &j.places)
}
