//! One epoch, read and summed.
ghost use Rattle.std.specs.Prelude.{◌≡◌, ◌≤◌, IfOk};
ghost use Rattle.dev_traits.specs.Told.{WhereTold};
ghost use Rattle.piece_plan.specs.Epochs.{IsEpoch};
ghost use Rattle.station_stream.specs.{Faults.{CountsReads}, Recorded.{AreRecorded}};
ghost use Rattle.epoch_run.specs.Sums.{pieces_in_epoch};
ghost use Rattle.run_sums.specs.{Found.{IsOfJob}, Sums.{AreSums}};

use crate::epochs::scan_of;
use crate::reached::reach_epoch;
use crate::spare::Spare;
use crate::sums::sum;
use atomic_sums::EpochSums;
use dev_traits::{Gate, Shelf};
use piece_plan::EpochPlan;
use ready_job::Ready;
use station_stream::StreamFault;
use std::alloc::Global;
use std::thread::Threads;

/// Reads and sums an epoch of the job, wherever it begins and however long it is, by `workers` threads, 1 to 64, in pieces of at most
/// `piece` samples, 64 to 4,194,304.
pub fn correlate<R: Threads + Sync, F: Shelf, G: Gate + Sync>(
    rt: &R,
    alloc: Global,
    ready: &Ready,
    shelf: &mut F,
    e: &EpochPlan,
    workers: u32,
    piece: u64,
    gate: &G,
) -> Result<EpochSums, StreamFault>
    requires recorded { WhereTold (F.told shelf.old) (λ files. AreRecorded files ready.now.plan.stations ready.now.recordings.items) }
    requires epoch { IsEpoch ready.now.epochs e.now }
    requires workers { (1 ≤ workers) × (workers ≤ 64) }
    requires piece { (64 ≤ piece) × (piece ≤ 4194304) }
    ensures same { F.told shelf.new ≡ F.told shelf.old }
    ensures sums { IfOk result (AreSums (F.told shelf.old) ready.now.plan e.now) }
    ensures pieces { IfOk result (λ sums. sums.pieces ≡ pieces_in_epoch e.now piece) }
    ensures counts { CountsReads (F.faults shelf.old) (F.faults shelf.new) result }
{
    is_of_job(ready, e);
    let mut spare = Spare::none(alloc);
    let scan = scan_of(ready.plan.plan(), e);
    let values = reach_epoch(rt, alloc, &mut spare, ready, shelf, scan, e, workers)?;
    let sums = sum(rt, alloc, ready, &values, e, workers, piece, gate)?;
    Ok(sums)
}

/// An epoch of the job is one of a scan of its plan. The call does nothing: it brings this law.
pub fn is_of_job(_ready: &Ready, _e: &EpochPlan)
    requires { IsEpoch _ready.now.epochs _e.now }
    ensures { IsOfJob _ready.now.plan _ready.now.epochs _e.now }
{
    let _plan = _ready.plan.plan();
}
