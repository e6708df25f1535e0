//! The scan of an epoch.
ghost use Rattle.job_plan.specs.declared.plan.ScanPlan.{ScanPlan};
ghost use Rattle.run_sums.specs.Found.{IsOfScan};

use job_plan::{Plan, ScanPlan};
use piece_plan::EpochPlan;

/// The scan of an epoch.
pub fn scan_of<'a>(plan: &'a Plan, e: &EpochPlan) -> &'a ScanPlan
    requires { (scan : ScanPlan) × IsOfScan plan.now scan e.now }
    ensures { IsOfScan plan.now result.now e.now }
{
    &plan.scans.items()[e.scan as usize]
}
