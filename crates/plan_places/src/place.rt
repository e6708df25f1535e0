//! Places, and the epochs between them.
ghost use Rattle.std.specs.Prelude.{◌≡◌, ◌<◌, ◌≤◌, ◌↔◌, IsTrue, IfSome, option_map, slice_get, length, Some};
ghost use Rattle.piece_plan.specs.{Epochs.{epochs_of, IsEpoch, IsOfPlan}, Order.{job_start, place_after, CoverJob}};
ghost use Rattle.plan_places.specs.{Places.{place_at, IsPlace}, Search.{begin_at}, Walk.{cut_at}};

use crate::search::{epoch_with, integration_last, is_in_some};
use piece_plan::{EpochPlan, JobPlan};

/// Where a run stands: sample `from` of integration `m` of a scan, by its number in the scan. `scan` counts
/// the scans of the job.
#[derive(Clone, Copy, Debug, PartialEq, Eq)]
pub struct Place {
    pub scan: u32,
    pub m: u64,
    pub from: u64,
}

/// The first place of a job; none exactly where no scan has a sample that belongs to the job.
pub fn start(plan: &JobPlan) -> Option<Place>
    ensures first { option_map place_at result ≡ job_start plan.now }
    ensures place { IfSome result (λ p. IsPlace plan.now (place_at p)) }
{
    begin_of(plan, 0)
}

// Where an epoch of the plan begins; none behind the last one.
pub(crate) fn begin_of(plan: &JobPlan, i: u64) -> Option<Place>
    ensures begin { option_map place_at result ≡ begin_at (epochs_of plan.now) i }
    ensures cover { CoverJob plan.now (epochs_of plan.now) }
    ensures place { IfSome result (λ p. IsPlace plan.now (place_at p)) }
{
    if i < plan.epochs() {
        let e = plan.epoch(i);
        Some(Place {
            scan: e.scan,
            m: e.m,
            from: e.from,
        })
    } else {
        None
    }
}

/// Whether a place is one of the job: its scan has its integration, and the sample lies in it.
pub fn is_place(plan: &JobPlan, at: &Place) -> bool
    ensures { IsTrue result ↔ IsPlace plan.now (place_at at.now) }
{
    is_in_some(plan, at)
}

/// The epoch from a place on: `epoch` samples, 1 to 4,194,304, or those up to the end of its integration where
/// these are fewer.
pub fn cut(plan: &JobPlan, at: &Place, epoch: u64) -> EpochPlan
    requires place { IsPlace plan.now (place_at at.now) }
    requires some { 1 ≤ epoch }
    requires short { epoch ≤ 4194304 }
    ensures cut { cut_at plan.now epoch (place_at at.now) ≡ Some result }
    ensures fits { IsEpoch plan.now result }
    ensures of_plan { IsOfPlan result }
{
    let (_, last) = integration_last(plan, at);
    EpochPlan {
        scan: at.scan,
        m: at.m,
        from: at.from,
        to: last.to.min(at.from + epoch),
        products: last.products,
        baselines: last.baselines,
        lags: last.lags,
    }
}

/// The epoch from a place on that the job's own length of an epoch gives.
pub fn cut_own(plan: &JobPlan, at: &Place) -> EpochPlan
    requires { IsPlace plan.now (place_at at.now) }
    ensures cut { cut_at plan.now plan.now.epoch (place_at at.now) ≡ Some result }
    ensures fits { IsEpoch plan.now result }
    ensures of_plan { IsOfPlan result }
{
    // an epoch of the plan is shorter only where its integration ends, and there this one ends too
    let own = epoch_with(plan, at);
    cut(plan, at, own.to - own.from)
}

/// The place behind an epoch of the job, however long that is: where it ends, in its integration or, at that one's
/// end, the first sample of the next integration through all scans; none exactly where it ends the job.
pub fn after(plan: &JobPlan, e: &EpochPlan) -> Option<Place>
    requires { IsEpoch plan.now e.now }
    ensures after { option_map place_at result ≡ place_after plan.now e.now }
    ensures place { IfSome result (λ p. IsPlace plan.now (place_at p)) }
{
    let begin = Place {
        scan: e.scan,
        m: e.m,
        from: e.from,
    };
    let (i, last) = integration_last(plan, &begin);
    if e.to < last.to {
        Some(Place {
            from: e.to,
            ..begin
        })
    } else {
        begin_of(plan, i + 1)
    }
}
