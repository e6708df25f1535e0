//! The scans of a plan.
ghost use Rattle.std.specs.Prelude.{◌≡◌, ◌++◌, [], true, map, filter, unsigned_abs, if◌then◌else◌, IfOk, OnOk};
ghost use Rattle.std.specs.List.{All};
ghost use Rattle.num_time.specs.Times.{IsSecond};
ghost use Rattle.named_list.specs.Named.{names};
ghost use Rattle.job_join.specs.{Standing.{taken}, Joined.{scan_plan}, Joining.{scans_of, IsJoining}, Planned.{has_baseline, kept, IsReady}};

use crate::joining::Joining;
use crate::lists::{pairs_in, stay_plans};
use crate::parts::auto;
use crate::places::Place;
use crate::spans::samples_of;
use item_list::ItemList;
use job_plan::ScanPlan;
use scan_list::Scan;
use std::alloc::{AllocError, Global};

// The second at which a scan starts.
fn second_of(scan: &Scan) -> u32
    requires { IsSecond scan.now.second }
    ensures { result ≡ unsigned_abs scan.now.second }
{
    scan.second as u32
}

// A scan that is taken.
fn scan_plan(alloc: Global, j: &Joining, place: &Place) -> Result<ScanPlan, AllocError>
    requires ready { IsReady j.now.job.now j.now.rate place.now }
    requires taken { place.now.taken ≡ true }
    ensures { IfOk result (λ plan. plan ≡ scan_plan j.now.job.now j.now.rate (names j.now.channels) place.now.scan.now) }
{
    let name = place.scan.name.copy(alloc)?;
    let stays = stay_plans(alloc, j.rate, &j.channels, &place.stands)?;
    let baselines = pairs_in(alloc, &place.stands, auto(j.job))?;
    Ok(ScanPlan {
        name,
        second: second_of(place.scan),
        samples: samples_of(&place.stands, j.rate) as u64,
        stays: ItemList::of(stays),
        baselines: ItemList::of(baselines),
    })
}

// Adds a scan, where it has a baseline.
fn keep(plans: &mut Vec<ScanPlan>, plan: ScanPlan) -> Result<(), AllocError>
    ensures { OnOk result (plans.new.items ≡ plans.old.items ++ kept plan) }
{
    if !plan.baselines.items().is_empty() {
        plans.push(plan)?;
    }
    Ok(())
}

// Adds a scan, where it is taken and has a baseline.
fn add(
    alloc: Global,
    plans: &mut Vec<ScanPlan>,
    j: &Joining,
    place: &Place,
) -> Result<(), AllocError>
    requires { IsReady j.now.job.now j.now.rate place.now }
    ensures { OnOk result (plans.new.items ≡ plans.old.items ++ (if place.now.taken then kept (scan_plan j.now.job.now j.now.rate (names j.now.channels) place.now.scan.now) else [])) }
{
    if place.taken {
        let plan = scan_plan(alloc, j, place)?;
        keep(plans, plan)?;
    }
    Ok(())
}

/// The scans that are taken and have a baseline, in the schedule's order.
#[tactic(auto, unfolding(crate::specs::Standing::taken))]
pub(crate) fn scan_plans(alloc: Global, j: &Joining) -> Result<Vec<ScanPlan>, AllocError>
    requires joining { IsJoining j.now }
    requires ready { All (IsReady j.now.job.now j.now.rate) j.now.places.items }
    ensures { IfOk result (λ all. all.items ≡ filter has_baseline (map (scan_plan j.now.job.now j.now.rate (names j.now.channels)) (taken j.now.job.now (scans_of j.now)))) }
{
    let mut all = Vec::new(alloc);
    for place in &j.places {
        add(alloc, &mut all, j, place)?;
    }
    Ok(all)
}
