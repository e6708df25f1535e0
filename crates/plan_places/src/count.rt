//! How many epochs a walk has.
ghost use Rattle.std.specs.Prelude.{◌≡◌, ◌^◌, ◌+◌, ◌*◌, ◌<◌, ◌≤◌, List, option_map, length, IfSome, Option};
ghost use Rattle.piece_plan.specs.{declared.epoch.EpochPlan.{EpochPlan}, Epochs.{epochs_of, IsJob}};
ghost use Rattle.plan_places.specs.{Places.{place_at, IsPlace}, Search.{begin_at, BeginsAt}, Walk.{IsWalk, AreLeft, IsScanLeft}};

use crate::Place;
use crate::search::{integration_last, scan_last};
use piece_plan::{JobPlan, epochs_in};

/// The number of epochs from a place on to the end of the job, if each is cut with `epoch` samples, 1 to
/// 4,194,304; 0 behind the end. The time grows with the number of scans, and not with that of epochs.
pub fn left(plan: &JobPlan, at: Option<Place>, epoch: u64) -> u64
    requires place { IfSome at (λ p. IsPlace plan.now (place_at p)) }
    requires some { 1 ≤ epoch }
    requires short { epoch ≤ 4194304 }
    ensures { AreLeft plan.now epoch (option_map place_at at) result }
{
    match at {
        None => 0,
        Some(p) => {
            let (i, last) = integration_last(plan, &p);
            (last.to - p.from).div_ceil(epoch) + left_from(plan, i + 1, epoch)
        }
    }
}

// The number of epochs of a walk that begins where epoch `first` of the plan does, at an integration's begin.
fn left_from(plan: &JobPlan, first: u64, epoch: u64) -> u64
    requires job { IsJob plan.now }
    requires begin { BeginsAt plan.now first }
    requires within { first ≤ length (epochs_of plan.now) }
    requires some { 1 ≤ epoch }
    ensures count { (epochs : List EpochPlan) → IsWalk plan.now epoch (begin_at (epochs_of plan.now) first) epochs
        → result ≡ length epochs }
    ensures bound { result ≤ 2 ^ 63 }
{
    let mut i = first;
    let mut count = 0;
    while i < plan.epochs() {
        let (next, more) = scan_left(plan, i, epoch);
        count += more;
        i = next;
    }
    count
}

// The number behind the last epoch of the plan in the scan of epoch `i`, which begins an integration, and how many
// epochs a walk has from there to that scan's end.
fn scan_left(plan: &JobPlan, i: u64, epoch: u64) -> (u64, u64)
    requires job { IsJob plan.now }
    requires begin { BeginsAt plan.now i }
    requires within { i < length (epochs_of plan.now) }
    requires some { 1 ≤ epoch }
    ensures { IsScanLeft plan.now epoch i result.0 result.1 }
{
    let e = plan.epoch(i);
    let at = Place {
        scan: e.scan,
        m: e.m,
        from: e.from,
    };
    let (_, first) = integration_last(plan, &at);
    let (last, end) = scan_last(plan, &at);
    (
        last + 1,
        epochs_in(end.to - e.from, first.to - e.from, epoch),
    )
}
