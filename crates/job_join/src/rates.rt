//! The sample rate of a job, and its scans with another one.
ghost use Rattle.std.specs.Prelude.{◌≡◌, ◌==◌, not, map};
ghost use Rattle.std.specs.List.{list_any, position};
ghost use Rattle.job_join.specs.{declared.places.Place.{Place}, declared.stands.Here.{Here}, Places.{visit_of, first_rate, rate_among, has_other_rate}};

use crate::places::Place;
use crate::stands::Here;

// The rate of the first station of a scan that is taken.
fn first_rate(place: &Place) -> Option<u32>
    ensures { result ≡ first_rate (visit_of place.now) }
{
    if !place.taken {
        return None;
    }
    let first = place.stands.first()?;
    Some(first.pass.rate)
}

/// The sample rate of the job.
pub(crate) fn rate_of(places: &[Place]) -> u32
    ensures { result ≡ rate_among (map visit_of places.now) }
{
    for place in places {
        if let Some(rate) = first_rate(place) {
            return rate;
        }
    }
    0
}

// Whether a station has another rate.
fn is_other(here: &Here, rate: u32) -> bool
    ensures { result ≡ not (here.now.pass.now.rate == rate) }
{
    here.pass.rate != rate
}

// Whether one of some stations has another rate.
fn have_other_rate(stands: &[Here], rate: u32) -> bool
    ensures { result ≡ list_any (λ (h : Here). not (h.pass.now.rate == rate)) stands.now }
{
    stands.iter().any(|here| is_other(here, rate))
}

// Whether a scan is taken, and a station in it has another rate.
fn has_other_rate(place: &Place, rate: u32) -> bool
    ensures { result ≡ has_other_rate rate (visit_of place.now) }
{
    if !place.taken {
        return false;
    }
    have_other_rate(&place.stands, rate)
}

/// The first scan in which a station has another rate.
pub(crate) fn rate_differs(places: &[Place], rate: u32) -> Option<usize>
    ensures { result ≡ position (λ (p : Place). has_other_rate rate (visit_of p)) places.now }
{
    places.iter().position(|place| has_other_rate(place, rate))
}
