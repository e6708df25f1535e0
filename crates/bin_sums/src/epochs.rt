//! The epochs of a job, one behind another.
ghost use Rattle.std.specs.Prelude.{◌≡◌, ◌<◌, ◌≤◌, ◌+◌, Some, IfSome, length, min, slice_get};
ghost use Rattle.job_plan.specs.{Ranges.{IsPlan, IsScanPlan}, Output.{integration_start, integration_end}};
ghost use Rattle.bin_sums.specs.Ahead.{IsOfJob, IsOfScan};

use job_plan::{Plan, ScanPlan};
use piece_plan::EpochPlan;

/// The scan of an epoch of the job.
pub(crate) fn scan_of<'a>(plan: &'a Plan, e: &EpochPlan) -> &'a ScanPlan
    requires { IsOfJob plan.now e.now }
    ensures { IsOfScan plan.now result.now e.now }
{
    &plan.scans.items()[e.scan as usize]
}

/// The epoch of integration `m` of a scan that begins at sample `from`. `number` is the scan's in the plan.
pub(crate) fn epoch_at(plan: &Plan, number: u32, scan: &ScanPlan, m: u64, from: u64) -> EpochPlan
    requires plan { IsPlan plan.now }
    requires there { slice_get plan.now.scans number ≡ Some scan.now }
    requires begun { integration_start plan.now m ≤ from }
    requires inside { from < integration_end plan.now scan.now m }
    ensures from { result.from ≡ from }
    ensures to { result.to ≡ min (from + plan.now.epoch) (integration_end plan.now scan.now m) }
    ensures epoch { IsOfScan plan.now scan.now result }
{
    let end = (m * plan.integration + plan.integration).min(scan.samples);
    let to = (from + plan.epoch).min(end);
    EpochPlan {
        scan: number,
        m,
        from,
        to,
        products: plan.products.items().len() as u32,
        baselines: scan.baselines.items().len() as u32,
        lags: plan.lags,
    }
}

// The epoch of a scan that begins at sample `from`, where the scan has that sample.
fn epoch_from(plan: &Plan, number: u32, scan: &ScanPlan, from: u64) -> Option<EpochPlan>
    requires plan { IsPlan plan.now }
    requires there { slice_get plan.now.scans number ≡ Some scan.now }
    ensures { IfSome result (IsOfJob plan.now) }
{
    if from < scan.samples {
        let m = from / plan.integration;
        Some(epoch_at(plan, number, scan, m, from))
    } else {
        None
    }
}

// The first epoch of the scans from that of a number on.
fn first_from(plan: &Plan, number: usize) -> Option<EpochPlan>
    requires plan { IsPlan plan.now }
    requires few { length plan.now.scans ≤ 8388608 }
    ensures { IfSome result (IsOfJob plan.now) }
{
    let scans = plan.scans.items();
    for i in number..scans.len() {
        let e = epoch_from(plan, i as u32, &scans[i], 0);
        if e.is_some() {
            return e;
        }
    }
    None
}

/// The epoch of the job behind an epoch of a scan: the next one of this scan, or else the first one of the scans behind it.
pub(crate) fn epoch_behind(plan: &Plan, scan: &ScanPlan, e: &EpochPlan) -> Option<EpochPlan>
    requires plan { IsPlan plan.now }
    requires few { length plan.now.scans ≤ 8388608 }
    requires epoch { IsOfScan plan.now scan.now e.now }
    ensures { IfSome result (IsOfJob plan.now) }
{
    match epoch_from(plan, e.scan, scan, e.to) {
        Some(next) => Some(next),
        None => first_from(plan, e.scan as usize + 1),
    }
}
