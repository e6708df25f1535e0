//! The sums of an epoch.
ghost use Rattle.std.specs.Prelude.{◌≡◌, ◌≤◌, IfOk, None, Option};
ghost use Rattle.corr_model.specs.Files.{Files};
ghost use Rattle.epoch_run.specs.Sums.{pieces_in_epoch};
ghost use Rattle.run_sums.specs.{Found.{IsOfScan}, Reach.{HoldsEpoch}, Sums.{AreSums}};

use crate::epochs::scan_of;
use crate::values::EpochValues;
use atomic_sums::EpochSums;
use dev_traits::Gate;
use epoch_run::sum_planes;
use job_plan::ScanPlan;
use piece_plan::EpochPlan;
use ready_job::Ready;
use std::alloc::{AllocError, Global};
use std::thread::Threads;

/// The sums of an epoch of the job, from the planes of the values that its lags reach, by `workers` threads, 1 to 64, in pieces of
/// at most `piece` samples, 64 to 4,194,304: by product, then by baseline, then by rising lag.
pub fn sum<R: Threads + Sync, G: Gate + Sync>(
    rt: &R,
    alloc: Global,
    ready: &Ready,
    values: &EpochValues,
    e: &EpochPlan,
    workers: u32,
    piece: u64,
    gate: &G,
) -> Result<EpochSums, AllocError>
    requires held { (scan : ScanPlan) × IsOfScan ready.now.plan scan e.now × HoldsEpoch None ready.now.plan scan e.now values.now }
    requires workers { (1 ≤ workers) × (workers ≤ 64) }
    requires piece { (64 ≤ piece) × (piece ≤ 4194304) }
    ensures sums { IfOk result (λ sums. (told : Option Files) (scan : ScanPlan) → IsOfScan ready.now.plan scan e.now
        → HoldsEpoch told ready.now.plan scan e.now values.now → AreSums told ready.now.plan e.now sums) }
    ensures pieces { IfOk result (λ sums. sums.pieces ≡ pieces_in_epoch e.now piece) }
{
    let scan = scan_of(ready.plan.plan(), e);
    let sums = sum_planes(
        rt,
        alloc,
        &values.planes,
        &values.pairs,
        scan.samples,
        e,
        piece,
        workers,
        gate,
    )?;
    Ok(sums)
}
