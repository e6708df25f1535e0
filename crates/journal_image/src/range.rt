//! The epoch of a range.
ghost use Rattle.std.specs.Prelude.{◌≡◌, IfSome, IfNone};
ghost use Rattle.piece_plan.specs.{declared.epoch.EpochPlan.{EpochPlan}, Epochs.{IsOfPlan}};
ghost use Rattle.plan_places.specs.Places.{place_at, IsPlace};
ghost use Rattle.journal_image.specs.Difference.{IsRange};

use piece_plan::{EpochPlan, JobPlan};
use plan_places::{Place, cut};

// The epoch from a place up to, not including, sample `to`; none where that is no epoch of the job.
pub(crate) fn epoch_to(plan: &JobPlan, at: &Place, to: u64) -> Option<EpochPlan>
    requires { IsPlace plan.now (place_at at.now) }
    ensures some { IfSome result (IsRange plan.now (place_at at.now) to) }
    ensures of_plan { IfSome result IsOfPlan }
    ensures none { IfNone result ((e : EpochPlan) → ¬ IsRange plan.now (place_at at.now) to e) }
{
    let longest = cut(plan, at, 4_194_304);
    if to <= at.from || longest.to < to {
        return None;
    }
    Some(EpochPlan { to, ..longest })
}
