//! Where a place stands among the epochs of the plan.
ghost use Rattle.std.specs.Prelude.{◌≡◌, ◌+◌, ◌^◌, ◌<◌, ◌≤◌, slice_get, Some};
ghost use Rattle.std.specs.Bool.{MatchBool};
ghost use Rattle.piece_plan.specs.{Epochs.{epochs_of, IsEpoch, IsJob, IsOfPlan}, Order.{place_of, place_after, CoverJob}};
ghost use Rattle.plan_places.specs.{Places.{place_at, IsPlace, IsUpTo, IsBefore}, Search.{begin_at, IsIn, IsCount, EndsIntegration, EndsScan}, Walk.{cut_at}};

use crate::Place;
use piece_plan::{EpochPlan, JobPlan};

// Whether an epoch begins at a place or before it.
fn is_up_to(e: &EpochPlan, at: &Place) -> bool
    ensures { MatchBool result (IsUpTo (place_of e.now) (place_at at.now)) (IsBefore (place_at at.now) (place_of e.now)) }
{
    if e.scan != at.scan {
        e.scan < at.scan
    } else if e.m != at.m {
        e.m < at.m
    } else {
        e.from <= at.from
    }
}

// How many epochs of the plan begin at a place or before it.
fn number_up_to(plan: &JobPlan, at: &Place) -> u64
    ensures count { IsCount (epochs_of plan.now) (place_at at.now) result }
    ensures bound { result ≤ 2 ^ 63 }
    ensures job { IsJob plan.now }
    ensures cover { CoverJob plan.now (epochs_of plan.now) }
{
    let mut low = 0;
    let mut high = plan.epochs();
    while low < high {
        let middle = low + (high - low) / 2;
        if is_up_to(&plan.epoch(middle), at) {
            low = middle + 1;
        } else {
            high = middle;
        }
    }
    low
}

// Whether an epoch has a place that is not before its begin.
fn has_place(e: &EpochPlan, at: &Place) -> bool
    ensures { MatchBool result (IsIn (place_at at.now) e.now) (IsIn (place_at at.now) e.now → ⊥) }
{
    e.scan == at.scan && e.m == at.m && at.from < e.to
}

// Whether a place lies in an epoch of the plan.
pub(crate) fn is_in_some(plan: &JobPlan, at: &Place) -> bool
    ensures { MatchBool result (IsPlace plan.now (place_at at.now)) (IsPlace plan.now (place_at at.now) → ⊥) }
{
    let count = number_up_to(plan, at);
    if count == 0 {
        return false;
    }
    let e = plan.epoch(count - 1);
    has_place(&e, at)
}

// The epoch of the plan that has a place.
pub(crate) fn epoch_with(plan: &JobPlan, at: &Place) -> EpochPlan
    requires { IsPlace plan.now (place_at at.now) }
    ensures own { cut_at plan.now plan.now.epoch (place_of result) ≡ Some result }
    ensures up_to { IsUpTo (place_of result) (place_at at.now) }
    ensures has { IsIn (place_at at.now) result }
    ensures inside { IsEpoch plan.now result }
    ensures of_plan { IsOfPlan result }
{
    plan.epoch(number_up_to(plan, at) - 1)
}

// The last epoch of the plan in a place's integration, and its number.
pub(crate) fn integration_last(plan: &JobPlan, at: &Place) -> (u64, EpochPlan)
    requires { IsPlace plan.now (place_at at.now) }
    ensures at { slice_get (epochs_of plan.now) result.0 ≡ Some result.1 }
    ensures bound { result.0 < 2 ^ 63 }
    ensures job { IsJob plan.now }
    ensures last { EndsIntegration plan.now (place_at at.now) result.1 }
    ensures next { place_after plan.now result.1 ≡ begin_at (epochs_of plan.now) (result.0 + 1) }
    ensures of_plan { IsOfPlan result.1 }
{
    let _sample = at.from;
    let behind = Place {
        scan: at.scan,
        m: at.m,
        from: u64::MAX,
    };
    let i = number_up_to(plan, &behind) - 1;
    (i, plan.epoch(i))
}

// The last epoch of the plan in a place's scan, and its number.
pub(crate) fn scan_last(plan: &JobPlan, at: &Place) -> (u64, EpochPlan)
    requires { IsPlace plan.now (place_at at.now) }
    ensures at { slice_get (epochs_of plan.now) result.0 ≡ Some result.1 }
    ensures bound { result.0 < 2 ^ 63 }
    ensures last { EndsScan plan.now (place_at at.now) result.1 }
    ensures next { place_after plan.now result.1 ≡ begin_at (epochs_of plan.now) (result.0 + 1) }
    ensures of_plan { IsOfPlan result.1 }
{
    let _number = at.m;
    let _sample = at.from;
    let behind = Place {
        scan: at.scan,
        m: u64::MAX,
        from: u64::MAX,
    };
    let i = number_up_to(plan, &behind) - 1;
    (i, plan.epoch(i))
}
