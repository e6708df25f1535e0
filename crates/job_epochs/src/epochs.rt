//! The epochs of a plan.
ghost use Rattle.std.specs.Prelude.{◌≡◌, ◌≤◌, length, IfOk};
ghost use Rattle.job_epochs.specs.Sizes.{size_of, sizes_of};

use job_plan::{Plan, Plan0, ScanPlan};
use piece_plan::{JobPlan, ScanSize};
use std::alloc::{AllocError, Global};

// The size of a scan.
fn size_of(plan: &Plan, scan: &ScanPlan) -> ScanSize
    requires products { length plan.now.products ≤ 256 }
    requires baselines { length scan.now.baselines ≤ 528 }
    ensures { result ≡ size_of plan.now scan.now }
{
    ScanSize {
        first: 0,
        samples: scan.samples,
        products: plan.products.items().len() as u32,
        baselines: scan.baselines.items().len() as u32,
    }
}

/// The epochs of a plan, numbered from 0 through all scans and integrations. The plan has at most 2^23 scans.
pub fn plan_epochs(alloc: Global, plan: &Plan0) -> Result<JobPlan, AllocError>
    requires { length plan.now.scans ≤ 8388608 }
    ensures { IfOk result (λ epochs. epochs ≡ sizes_of plan.now) }
{
    let plan = plan.plan();
    let mut sizes = Vec::new(alloc);
    for scan in plan.scans.items() {
        sizes.push(size_of(plan, scan))?;
    }
    JobPlan::new(alloc, &sizes, plan.integration, plan.epoch, plan.lags)
}
