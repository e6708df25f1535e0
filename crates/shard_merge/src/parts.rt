//! The plan of a part.
ghost use Rattle.std.specs.Prelude.{◌≡◌, ◌≤◌, ◌<◌, IfOk};
ghost use Rattle.piece_plan.specs.Limited.{integrations, limited};

use piece_plan::JobPlan;
use std::alloc::{AllocError, Global};

/// The plan of a part of a job: of its integrations with a number from `from` up to, not including, `to`, counted from 0 through all
/// scans. Scans and integrations keep the numbers that they have in the job.
pub fn part(alloc: Global, plan: &JobPlan, from: u64, to: u64) -> Result<JobPlan, AllocError>
    requires some { from < to }
    requires within { to ≤ integrations plan.now }
    ensures { IfOk result (λ p. p ≡ limited plan.now from to) }
{
    plan.limited(alloc, from, to)
}
