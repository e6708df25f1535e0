//! The pairs of a scan: which stations and channels go together.
ghost use Rattle.std.specs.Prelude.{◌≡◌, ◌≤◌, ◌==◌, ◌++◌, map, length, IfOk, OnOk};
ghost use Rattle.std.specs.List.{position};
ghost use Rattle.job_plan.specs.declared.plan.StayPlan.{StayPlan};
ghost use Rattle.run_sums.specs.Pairs.{place_in, placed_pair, pairs_in};

use corr_model::Pair;
use job_plan::{BaselinePlan, Plan, ProductPlan, ScanPlan, StayPlan};
use std::alloc::{AllocError, Global};

// The place of a station's part among those of a scan; None where it has none.
fn place_of(stays: &[StayPlan], station: u32) -> Option<usize>
    ensures { result ≡ position (λ (stay : StayPlan). stay.station == station) stays.now }
{
    stays.iter().position(|stay| stay.station == station)
}

// The place of a station's part among those of a scan; their number where it has none.
fn place(scan: &ScanPlan, station: u32) -> u32
    requires { length scan.now.stays ≤ 32 }
    ensures { result ≡ place_in scan.now station }
{
    let stays = scan.stays.items();
    match place_of(stays, station) {
        Some(place) => place as u32,
        None => stays.len() as u32,
    }
}

// A product at a baseline.
fn placed_pair(scan: &ScanPlan, p: &ProductPlan, b: &BaselinePlan) -> Pair
    requires { length scan.now.stays ≤ 32 }
    ensures { result ≡ placed_pair scan.now p.now b.now }
{
    Pair {
        a: place(scan, b.a),
        x: p.x,
        b: place(scan, b.b),
        y: p.y,
    }
}

// Appends a product at each baseline.
fn push_pairs(
    pairs: &mut Vec<Pair>,
    scan: &ScanPlan,
    p: &ProductPlan,
    baselines: &[BaselinePlan],
) -> Result<(), AllocError>
    requires { length scan.now.stays ≤ 32 }
    ensures { OnOk result (pairs.new.items ≡ pairs.old.items ++ map (placed_pair scan.now p.now) baselines.now) }
{
    for b in baselines {
        pairs.push(placed_pair(scan, p, b))?;
    }
    Ok(())
}

/// The pairs of each product at each baseline of a scan, by product and then by baseline. A pair has the places of the
/// stations' parts in the scan.
pub(crate) fn pairs_of(alloc: Global, plan: &Plan, scan: &ScanPlan) -> Result<Vec<Pair>, AllocError>
    requires { length scan.now.stays ≤ 32 }
    ensures { IfOk result (λ pairs. pairs.items ≡ pairs_in plan.now scan.now) }
{
    let mut pairs = Vec::new(alloc);
    for p in plan.products.items() {
        push_pairs(&mut pairs, scan, p, scan.baselines.items())?;
    }
    Ok(pairs)
}
