//! The lists of a plan.
ghost use Rattle.std.specs.Prelude.{◌≡◌, ◌<◌, ◌/◌, ◌^◌, ◌++◌, ◌∷◌, [], ℕ, List, map, length, bytes_eq, unwrap_or, if◌then◌else◌, IfOk, OnOk};
ghost use Rattle.std.specs.List.{All, position};
ghost use Rattle.named_list.specs.Named.{named, names};
ghost use Rattle.vdif_frame.specs.Shape.{samples_per_frame};
ghost use Rattle.job_text.specs.{Job.{StationFields}, Ranges.{shape_of}};
ghost use Rattle.job_join.specs.{Joined.{station_plan, stay_plan, product_plan}, declared.stands.Here.{Here}, Places.{stand_of}, Planned.{IsShort, pair_of, is_pair, pairs_with, pairs_in}};

use crate::joining::Joining;
use crate::parts::{products, stations};
use crate::plans::{station_plan, stay_plan};
use crate::stands::Here;
use job_plan::{BaselinePlan, ProductPlan, StationPlan, StayPlan};
use named_list::Named;
use std::alloc::{AllocError, Global};

/// The stations of a plan.
pub(crate) fn station_plans(alloc: Global, j: &Joining) -> Result<Vec<StationPlan>, AllocError>
    requires { All (λ (s : StationFields). 0 < j.now.rate / samples_per_frame (shape_of 0 s)) j.now.job.now.stations }
    ensures { IfOk result (λ all. all.items ≡ map (station_plan j.now.rate (names j.now.channels)) j.now.job.now.stations) }
{
    let mut all = Vec::new(alloc);
    for station in stations(j.job) {
        let plan = station_plan(alloc, j.rate, &j.channels, station)?;
        all.push(plan)?;
    }
    Ok(all)
}

/// The parts of some stations in a scan of a plan.
pub(crate) fn stay_plans(
    alloc: Global,
    rate: u32,
    channels: &Named<()>,
    stands: &[Here],
) -> Result<Vec<StayPlan>, AllocError>
    requires { All (IsShort rate) stands.now }
    ensures { IfOk result (λ all. all.items ≡ map (λ (h : Here). stay_plan rate (names channels.now) (stand_of h)) stands.now) }
{
    let mut all = Vec::new(alloc);
    for here in stands {
        let plan = stay_plan(alloc, rate, channels, here)?;
        all.push(plan)?;
    }
    Ok(all)
}

// The number of a channel.
fn number_of(numbers: &Named<usize>, name: &[u8]) -> u32
    requires { unwrap_or (named numbers.now name.now) 0 < 2 ^ 32 }
    ensures { result ≡ unwrap_or (named numbers.now name.now) 0 }
{
    match numbers.get(name) {
        None => 0,
        Some(number) => *number as u32,
    }
}

/// The products of a plan, by the numbers of the channels.
pub(crate) fn product_plans(
    alloc: Global,
    j: &Joining,
    numbers: &Named<usize>,
) -> Result<Vec<ProductPlan>, AllocError>
    requires numbers { (q : List ℕ) → named numbers.now q ≡ position (λ other. bytes_eq other q) (names j.now.channels) }
    requires few { length (names j.now.channels) < 2 ^ 32 }
    ensures { IfOk result (λ all. all.items ≡ map (product_plan (names j.now.channels)) j.now.job.now.products) }
{
    let mut all = Vec::new(alloc);
    let pairs = products(j.job);
    for i in 0..pairs.len() {
        let (x, y) = pairs.at(i);
        let x = number_of(numbers, x);
        let y = number_of(numbers, y);
        all.push(ProductPlan { x, y })?;
    }
    Ok(all)
}

// Adds a baseline, where two stations make one.
fn add_pair(
    pairs: &mut Vec<BaselinePlan>,
    a: usize,
    b: usize,
    with_itself: bool,
) -> Result<(), AllocError>
    requires first { a < 2 ^ 32 }
    requires second { b < 2 ^ 32 }
    ensures { OnOk result (pairs.new.items ≡ pairs.old.items ++ (if is_pair with_itself a b then pair_of a b ∷ [] else [])) }
{
    if a < b || (with_itself && a == b) {
        pairs.push(BaselinePlan {
            a: a as u32,
            b: b as u32,
        })?;
    }
    Ok(())
}

// Adds the baselines of a station.
fn add_pairs(
    pairs: &mut Vec<BaselinePlan>,
    a: usize,
    stands: &[Here],
    with_itself: bool,
) -> Result<(), AllocError>
    requires first { a < 2 ^ 32 }
    requires others { All (λ (h : Here). h.number < 2 ^ 32) stands.now }
    ensures { OnOk result (pairs.new.items ≡ pairs.old.items ++ pairs_with with_itself a stands.now) }
{
    for here in stands {
        add_pair(pairs, a, here.number, with_itself)?;
    }
    Ok(())
}

/// The baselines of a scan.
pub(crate) fn pairs_in(
    alloc: Global,
    stands: &[Here],
    with_itself: bool,
) -> Result<Vec<BaselinePlan>, AllocError>
    requires { All (λ (h : Here). h.number < 2 ^ 32) stands.now }
    ensures { IfOk result (λ all. all.items ≡ pairs_in with_itself stands.now stands.now) }
{
    let mut pairs = Vec::new(alloc);
    for here in stands {
        add_pairs(&mut pairs, here.number, stands, with_itself)?;
    }
    Ok(pairs)
}
