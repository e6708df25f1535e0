//! The samples that the lags of an epoch reach.
ghost use Rattle.std.specs.Prelude.{◌≡◌, ◌≤◌};
ghost use Rattle.piece_plan.specs.Epochs.{IsOfPlan};
ghost use Rattle.run_sums.specs.Reach.{reach_from, reach_to};

use piece_plan::EpochPlan;

/// The first sample that they reach, not before the scan.
pub(crate) fn reach_from(e: &EpochPlan) -> u64
    ensures { result ≡ reach_from e.now }
{
    e.from.saturating_sub(u64::from(e.lags / 2))
}

/// The sample behind the last one, not past a scan of so many samples.
pub(crate) fn reach_to(e: &EpochPlan, samples: u64) -> u64
    requires { IsOfPlan e.now }
    ensures { result ≡ reach_to e.now samples }
{
    samples.min(e.to + u64::from(e.lags / 2 - 1))
}
