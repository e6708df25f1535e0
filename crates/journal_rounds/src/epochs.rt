//! The epochs of the rest of a job.
ghost use Rattle.std.specs.Prelude.{◌≡◌, ◌≤◌, Some};
ghost use Rattle.piece_plan.specs.{Epochs.{IsEpoch}, Limited.{IsPart}, Order.{place_of}};
ghost use Rattle.plan_places.specs.{Places.{place_at, IsPlace}, Walk.{cut_at}};
ghost use Rattle.run_sums.specs.Found.{IsOfJob};

use piece_plan::{EpochPlan, JobPlan};
use plan_places::{Place, cut};
use ready_job::Ready;
use run_sums::is_of_job;

/// The epoch of a part of the job from a place on, of `epoch` samples or those up to the end of the place's integration.
pub(crate) fn epoch_from(ready: &Ready, part: &JobPlan, at: &Place, epoch: u64) -> EpochPlan
    requires part { IsPart ready.now.epochs part.now }
    requires place { IsPlace part.now (place_at at.now) }
    requires epoch { (1 ≤ epoch) × (epoch ≤ 4194304) }
    ensures cut { cut_at part.now epoch (place_at at.now) ≡ Some result }
    ensures fits { IsEpoch part.now result }
    ensures begins { place_at at.now ≡ place_of result }
    ensures of_job { IsOfJob ready.now.plan ready.now.epochs result }
{
    let e = cut(part, at, epoch);
    is_of_job(ready, &e);
    e
}
