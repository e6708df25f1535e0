//! What follows from the definitions. The functions do nothing: a call brings its law.
ghost use Rattle.std.specs.Prelude.{◌≡◌, ◌↔◌, ◌≤◌, ◌<◌, ℕ, List, length, Option, IfSome, Some, None};
ghost use Rattle.piece_plan.specs.{declared.epoch.EpochPlan.{EpochPlan}, Epochs.{JobSizes, IsJob, IsEpoch, epochs_of}, Order.{Place, job_start, place_after, AreInOrder, CoverJob}};
ghost use Rattle.piece_plan.specs.Limited.{integration_number, limited};
ghost use Rattle.plan_places.specs.{Places.{IsPlace}, Walk.{cut_at, IsWalk, AreLeft, epochs_by}};

use piece_plan::laws::{epochs_of_limited, limited_jobs_are_shorter};

/// An epoch that is cut from a place is one of the job.
pub fn cut_epochs_fit()
    ensures { (job : JobSizes) (epoch : ℕ) (p : Place) (e : EpochPlan) → IsPlace job p → 1 ≤ epoch → epoch ≤ 4194304
        → cut_at job epoch p ≡ Some e → IsEpoch job e }
{}

/// The place after an epoch of the job is one of the job.
pub fn places_after_are_places()
    ensures { (job : JobSizes) (e : EpochPlan) → IsJob job → IsEpoch job e → IfSome (place_after job e) (IsPlace job) }
{}

/// The epochs of a walk are in order from where it stands to the end of the job.
pub fn walks_are_in_order()
    ensures { (job : JobSizes) (epoch : ℕ) (due : Option Place) (epochs : List EpochPlan) → IsJob job → 1 ≤ epoch → epoch ≤ 4194304
        → IfSome due (IsPlace job) → IsWalk job epoch due epochs → AreInOrder job due epochs None }
{}

/// A walk from the start of a job goes through it in order: each integration of each scan once.
pub fn walks_cover_job()
    ensures { (job : JobSizes) (epoch : ℕ) (epochs : List EpochPlan) → IsJob job → 1 ≤ epoch → epoch ≤ 4194304
        → IsWalk job epoch (job_start job) epochs → CoverJob job epochs }
{}

/// There is a walk from each place.
pub fn walks_end()
    ensures { (job : JobSizes) (epoch : ℕ) (due : Option Place) → IsJob job → 1 ≤ epoch → epoch ≤ 4194304
        → IfSome due (IsPlace job) → (epochs : List EpochPlan) × IsWalk job epoch due epochs }
{}

/// There is one walk from a place.
pub fn walks_are_alone()
    ensures { (job : JobSizes) (epoch : ℕ) (due : Option Place) (epochs others : List EpochPlan)
        → IsWalk job epoch due epochs → IsWalk job epoch due others → epochs ≡ others }
{}

/// Where epochs are as long as the job says, its epochs are the walk from its start.
pub fn epochs_of_job_are_walk()
    ensures { (job : JobSizes) → IsJob job → IsWalk job job.epoch (job_start job) (epochs_of job) }
{}

/// The epochs of a whole job, of any length, are the walk from its start.
pub fn epochs_by_length_are_walk()
    ensures { (job : JobSizes) (epoch : ℕ) → IsJob job → 1 ≤ epoch → epoch ≤ 4194304
        → IsWalk job epoch (job_start job) (epochs_by job epoch) }
{}

/// The places of a job that is limited to some of its integrations are those of the job whose integrations have such a number.
pub fn places_of_limited()
    ensures { (job : JobSizes) (from to : ℕ) (p : Place) → IsJob job
        → IsPlace (limited job from to) p
        ↔ (IsPlace job p × (from ≤ integration_number job p) × (integration_number job p < to)) }
{
    epochs_of_limited();
}

/// However long its epochs are, such a job has no more of them than the whole one.
pub fn limited_jobs_have_fewer_epochs()
    ensures { (job : JobSizes) (from to epoch : ℕ) → IsJob job → 1 ≤ epoch → epoch ≤ 4194304
        → length (epochs_by (limited job from to) epoch) ≤ length (epochs_by job epoch) }
{
    limited_jobs_are_shorter();
}

/// From no place are more epochs left than the whole job has.
pub fn no_more_are_left_than_all()
    ensures { (job : JobSizes) (epoch : ℕ) (due : Option Place) (n : ℕ) → IsJob job → 1 ≤ epoch → epoch ≤ 4194304
        → IfSome due (IsPlace job) → AreLeft job epoch due n → n ≤ length (epochs_by job epoch) }
{}
