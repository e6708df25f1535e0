//! The quantities of the scans that are taken.
ghost use Rattle.std.specs.Prelude.{◌≡◌, ◌≤◌, ◌<◌, ◌+◌, ◌^◌, nat_lt, true, length, map, find, filter, fold, None, Some, if◌then◌else◌};
ghost use Rattle.std.specs.List.{All};
ghost use Rattle.job_join.specs.{declared.stands.Here.{Here}, declared.places.Place.{Place}, Standing.{taken}, Spans.{samples_of}, Limits.{epochs_in}, Joining.{scans_of, IsJoining, held_samples}};
ghost use Rattle.job_join.specs.{Planned.{is_pair, pairs_in}, Measured.{held_seconds, held_cells, held_epochs}};

use crate::joining::Joining;
use crate::parts::{auto, integration, lags, products};
use crate::places::Place;
use crate::spans::samples_of;
use crate::stands::Here;
use job_text::Job;

// So many samples of a scan that is taken, where they are more than `most`.
fn samples_past(place: &Place, rate: u32, most: u128) -> Option<u128>
    ensures { result ≡ (if place.now.taken then (if nat_lt most (held_samples rate place.now) then Some (held_samples rate place.now) else None) else None) }
{
    if !place.taken {
        return None;
    }
    let samples = samples_of(&place.stands, rate);
    if most < samples { Some(samples) } else { None }
}

/// The samples of the first scan that is taken and has more than `most`.
#[tactic(auto, unfolding(crate::specs::Standing::taken))]
pub(crate) fn samples_over(j: &Joining, most: u128) -> Option<u128>
    requires { IsJoining j.now }
    ensures { result ≡ find (λ n. nat_lt most n) (map (samples_of j.now.job.now j.now.rate) (taken j.now.job.now (scans_of j.now))) }
{
    for i in 0..j.places.len() {
        match samples_past(&j.places[i], j.rate, most) {
            None => {}
            Some(samples) => return Some(samples),
        }
    }
    None
}

// The whole seconds that hold a scan.
fn seconds_in(place: &Place, rate: u32) -> u128
    requires { 0 < rate }
    ensures { result ≡ held_seconds rate place.now }
{
    samples_of(&place.stands, rate).div_ceil(u128::from(rate))
}

// The seconds of a scan that is taken, where they are more than `most`.
fn seconds_past(place: &Place, rate: u32, most: u128) -> Option<u128>
    requires { 0 < rate }
    ensures { result ≡ (if place.now.taken then (if nat_lt most (held_seconds rate place.now) then Some (held_seconds rate place.now) else None) else None) }
{
    if !place.taken {
        return None;
    }
    let seconds = seconds_in(place, rate);
    if most < seconds { Some(seconds) } else { None }
}

/// The seconds of the first scan that is taken and has more than `most`.
pub(crate) fn seconds_over(places: &[Place], rate: u32, most: u128) -> Option<u128>
    requires { 0 < rate }
    ensures { result ≡ find (λ n. nat_lt most n) (map (held_seconds rate) (filter (λ (p : Place). p.taken) places.now)) }
{
    for place in places {
        match seconds_past(place, rate, most) {
            None => {}
            Some(seconds) => return Some(seconds),
        }
    }
    None
}

// Whether two stations make a baseline.
fn is_pair(a: usize, b: usize, with_itself: bool) -> bool
    ensures { result ≡ is_pair with_itself a b }
{
    a < b || (with_itself && a == b)
}

// How many baselines of some stations have a station as their first.
fn count_with(stands: &[Here], a: usize, with_itself: bool) -> usize
    ensures count { result ≡ length (filter (λ (h : Here). is_pair with_itself a h.number) stands.now) }
    ensures most { result ≤ length stands.now }
{
    stands
        .iter()
        .filter(|here| is_pair(a, here.number, with_itself))
        .count()
}

// How many baselines some stations have.
fn count_in(stands: &[Here], with_itself: bool) -> usize
    requires { length stands.now ≤ 32 }
    ensures count { result ≡ length (pairs_in with_itself stands.now stands.now) }
    ensures most { result ≤ 1024 }
{
    let mut count = 0;
    for here in stands {
        count += count_with(stands, here.number, with_itself);
    }
    count
}

// The cells of a scan.
fn cells_in(place: &Place, job: &Job) -> u128
    requires stations { length place.now.stands.items ≤ 32 }
    requires products { length job.now.products ≤ 256 }
    ensures { result ≡ held_cells job.now place.now }
{
    let baselines = count_in(&place.stands, auto(job)) as u128;
    baselines * products(job).len() as u128 * u128::from(lags(job))
}

// The cells of a scan that is taken, where they are more than `most`.
fn cells_past(place: &Place, job: &Job, most: u128) -> Option<u128>
    requires stations { length place.now.stands.items ≤ 32 }
    requires products { length job.now.products ≤ 256 }
    ensures { result ≡ (if place.now.taken then (if nat_lt most (held_cells job.now place.now) then Some (held_cells job.now place.now) else None) else None) }
{
    if !place.taken {
        return None;
    }
    let cells = cells_in(place, job);
    if most < cells { Some(cells) } else { None }
}

/// The cells of the first scan that is taken and has more than `most`.
pub(crate) fn cells_over(places: &[Place], job: &Job, most: u128) -> Option<u128>
    requires stations { All (λ (p : Place). length p.stands.items ≤ 32) places.now }
    requires products { length job.now.products ≤ 256 }
    ensures { result ≡ find (λ n. nat_lt most n) (map (held_cells job.now) (filter (λ (p : Place). p.taken) places.now)) }
{
    for place in places {
        match cells_past(place, job, most) {
            None => {}
            Some(cells) => return Some(cells),
        }
    }
    None
}

// The epochs of so many samples, of `epoch` each.
fn epochs_in(samples: u128, job: &Job, epoch: u64) -> u128
    requires samples { samples ≤ 2 ^ 40 }
    requires epoch { 0 < epoch }
    ensures count { result ≡ epochs_in job.now epoch samples }
    ensures most { result ≤ 2 ^ 40 }
{
    let integration = u128::from(integration(job));
    let epoch = u128::from(epoch);
    samples / integration * integration.div_ceil(epoch) + (samples % integration).div_ceil(epoch)
}

// The epochs of a scan, 0 where it is not taken.
fn epochs_taken(place: &Place, job: &Job, epoch: u64, rate: u32) -> u128
    requires stations { length place.now.stands.items ≤ 32 }
    requires samples { place.now.taken ≡ true → held_samples rate place.now ≤ 2 ^ 40 }
    requires epoch { 0 < epoch }
    ensures count { result ≡ (if place.now.taken then held_epochs job.now epoch rate place.now else 0) }
    ensures most { result ≤ 2 ^ 40 }
{
    if !place.taken {
        return 0;
    }
    if count_in(&place.stands, auto(job)) == 0 {
        return 0;
    }
    epochs_in(samples_of(&place.stands, rate), job, epoch)
}

/// The epochs of all scans that are taken, of `epoch` samples each.
pub(crate) fn all_epochs(places: &[Place], job: &Job, epoch: u64, rate: u32) -> u128
    requires stations { All (λ (p : Place). length p.stands.items ≤ 32) places.now }
    requires samples { All (λ (p : Place). p.taken ≡ true → held_samples rate p ≤ 2 ^ 40) places.now }
    requires epoch { 0 < epoch }
    ensures { result ≡ fold ◌+◌ 0 (map (held_epochs job.now epoch rate) (filter (λ (p : Place). p.taken) places.now)) }
{
    let mut all = 0;
    for place in places {
        all += epochs_taken(place, job, epoch, rate);
    }
    all
}
