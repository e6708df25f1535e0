//! Jobs that are ready.
ghost use Rattle.std.specs.Prelude.{◌≡◌, ◌≤◌, ◌<◌, ◌^◌, length};
ghost use Rattle.plan_places.specs.Walk.{epochs_by};
ghost use Rattle.job_epochs.specs.Sizes.{sizes_of};
ghost use Rattle.station_stream.specs.Recorded.{AreNamed};

use checkpoint_journal::Identity;
use job_plan::Plan0;
use piece_plan::JobPlan;
use station_stream::Recording;

/// A plan, what it is cut by, the samples of an epoch in force, which need not be those that the plan has, the recordings of the
/// plan's stations, in their order, and the identity of its job.
#[derive(Drop)]
pub struct Ready {
    pub plan: Plan0,
    pub epochs: JobPlan,
    pub epoch: u64,
    pub recordings: Vec<Recording>,
    pub identity: Identity,
    pub ghost named: { AreNamed plan.stations recordings.items },
    pub ghost few: { length plan.scans ≤ 8388608 },
    pub ghost cut: { epochs ≡ sizes_of plan },
    pub ghost some_epoch: { 1 ≤ epoch },
    pub ghost short_epoch: { epoch ≤ 4194304 },
    pub ghost few_epochs: { length (epochs_by epochs epoch) ≤ 4294967296 },
    pub ghost short: { length identity < 2 ^ 61 },
}
