//! What the threads read that make the rows of an epoch.

use job_plan::{Plan, ScanPlan};
use station_stream::{Recording, StayFrames};

/// A scan of a plan, the recordings of the plan's stations, in their order, and the frames of each station's part of the scan at the
/// samples from `from` up to, not including, `to`.
#[derive(Clone, Copy)]
pub(crate) struct Making<'a> {
    pub plan: &'a Plan,
    pub scan: &'a ScanPlan,
    pub recordings: &'a [Recording],
    pub frames: &'a [StayFrames],
    pub from: u64,
    pub to: u64,
}
