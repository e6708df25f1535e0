//! All runs of one whole delay.
ghost use Rattle.std.specs.Prelude.{ℕ, ◌≤◌, IfOk};
ghost use Rattle.corr_model.specs.Delay.{DelayModel};
ghost use Rattle.delay_track.specs.Track.{model_of};
ghost use Rattle.delay_laws.specs.Runs.{AreRuns, HasOneListOfRuns};

use delay_track::{Run, Track};
use std::alloc::{AllocError, Global};

/// The runs of one whole delay through the samples from `from` up to, not including, `to`, in order. An `Err` is want of
/// memory.
pub fn all_runs(
    alloc: Global,
    track: &Track<'_>,
    from: u64,
    to: u64,
) -> Result<Vec<Run>, AllocError>
    requires order { from ≤ to }
    requires inside { to ≤ track.now.samples }
    ensures { IfOk result (λ runs. AreRuns (model_of track.now) from to runs.items) }
{
    track.runs(from, to).collect(alloc)
}

/// A range of samples has one list of runs, and no second one. The function does nothing: a call brings the law.
pub fn one_list_of_runs()
    ensures { (m : DelayModel) (from to : ℕ) → from ≤ to → HasOneListOfRuns m from to }
{}
