//! The scans of a schedule, with the job's stations in them.
ghost use Rattle.std.specs.Prelude.{◌≡◌, ◌||◌, ℕ, List, bytes_eq, is_some, not, map, IfOk, OnOk};
ghost use Rattle.std.specs.List.{list_any, position};
ghost use Rattle.named_list.specs.Named.{named};
ghost use Rattle.scan_list.specs.Sound.{IsScan, AreScans};
ghost use Rattle.job_text.specs.Job.{StationFields};
ghost use Rattle.job_join.specs.{declared.places.Place.{Place}, Places.{visit_in, visit_of, has_key}};

use crate::names::keep_keys;
use crate::parts::{stations, takes};
use crate::stands::{Here, stands_in, station_numbers};
use crate::takes::is_taken;
use job_text::{Job, Station};
use named_list::Named;
use scan_list::Scan;
use std::alloc::{AllocError, Global};

/// A scan of the schedule: whether the job takes it, and the job's stations in it, in the job's order.
#[derive(Drop)]
pub(crate) struct Place<'a> {
    pub scan: &'a Scan,
    pub taken: bool,
    pub stands: Vec<Here<'a>>,
}

// A scan.
fn make_place<'a>(
    alloc: Global,
    numbers: &Named<usize>,
    job: &'a Job,
    scan: &'a Scan,
) -> Result<Place<'a>, AllocError>
    requires numbers { (q : List ℕ) → named numbers.now q ≡ position (λ (s : StationFields). bytes_eq s.key q) job.now.stations }
    requires scan { IsScan scan.now }
    ensures { IfOk result (λ p. visit_of p ≡ visit_in job.now scan.now) }
{
    let stands = stands_in(alloc, numbers, job, scan)?;
    let taken = is_taken(takes(job), scan);
    Ok(Place {
        scan,
        taken,
        stands,
    })
}

// The scans of a schedule, in its order, by the numbers of the job's stations.
fn numbered_places<'a>(
    alloc: Global,
    numbers: &Named<usize>,
    job: &'a Job,
    scans: &'a [Scan],
) -> Result<Vec<Place<'a>>, AllocError>
    requires numbers { (q : List ℕ) → named numbers.now q ≡ position (λ (s : StationFields). bytes_eq s.key q) job.now.stations }
    requires scans { AreScans scans.now }
    ensures { IfOk result (λ places. map visit_of places.items ≡ map (visit_in job.now) scans.now) }
{
    let mut places = Vec::new(alloc);
    for scan in scans {
        let place = make_place(alloc, numbers, job, scan)?;
        places.push(place)?;
    }
    Ok(places)
}

/// The scans of a schedule, in its order.
pub(crate) fn places_of<'a>(
    alloc: Global,
    job: &'a Job,
    scans: &'a [Scan],
) -> Result<Vec<Place<'a>>, AllocError>
    requires { AreScans scans.now }
    ensures { IfOk result (λ places. map visit_of places.items ≡ map (visit_in job.now) scans.now) }
{
    let numbers = station_numbers(alloc, stations(job))?;
    numbered_places(alloc, &numbers, job, scans)
}

// Puts the keys of the stations of a scan that is taken into a set.
fn keep_place(alloc: Global, set: &mut Named<()>, place: &Place) -> Result<(), AllocError>
    ensures { OnOk result ((q : List ℕ) → is_some (named set.new q) ≡ (is_some (named set.old q) || has_key q (visit_of place.now))) }
{
    if place.taken {
        return keep_keys(alloc, set, place.scan.passes.items());
    }
    Ok(())
}

/// The keys of the stations of all scans that are taken.
pub(crate) fn keys_of(alloc: Global, places: &[Place]) -> Result<Named<()>, AllocError>
    ensures { IfOk result (λ set. (q : List ℕ) → is_some (named set q) ≡ list_any (λ (p : Place). has_key q (visit_of p)) places.now) }
{
    let mut set = Named::new(alloc);
    for place in places {
        keep_place(alloc, &mut set, place)?;
    }
    Ok(set)
}

// Whether a station's key is not among these.
fn is_unknown(station: &Station, keys: &Named<()>) -> bool
    ensures { result ≡ not (is_some (named keys.now station.now.key)) }
{
    !keys.has(station.key.bytes())
}

/// The first station whose key is not among these.
pub(crate) fn unknown_station(stations: &[Station], keys: &Named<()>) -> Option<usize>
    ensures { result ≡ position (λ (s : StationFields). not (is_some (named keys.now s.key))) stations.now }
{
    stations
        .iter()
        .position(|station| is_unknown(station, keys))
}
