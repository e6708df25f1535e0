//! The sums of an epoch.
ghost use Rattle.std.specs.Prelude.{◌≡◌, ◌≤◌, IfOk, IfSome, None, Option};
ghost use Rattle.corr_model.specs.Files.{Files};
ghost use Rattle.journal_rounds.specs.Ahead.{AreSumsOf, IsHeld, epoch_read, epoch_summed};

use crate::values::Held;
use atomic_sums::EpochSums;
use dev_traits::Gate;
use piece_plan::EpochPlan;
use ready_job::Ready;
use run_sums::sum;
use std::alloc::{AllocError, Global};
use std::thread::Threads;

/// Sums, and the epoch that they are of.
#[derive(Drop)]
pub(crate) struct Summed {
    pub(crate) epoch: EpochPlan,
    pub(crate) sums: EpochSums,
}

/// The sums of the epoch that is read, where one is. `workers` and `piece` are as for `sum`.
pub(crate) fn sum_held<R: Threads + Sync, G: Gate + Sync>(
    rt: &R,
    alloc: Global,
    ready: &Ready,
    held: &Option<Held>,
    workers: u32,
    piece: u64,
    gate: &G,
) -> Result<Option<Summed>, AllocError>
    requires held { IfSome held.now (IsHeld None ready.now) }
    requires workers { (1 ≤ workers) × (workers ≤ 64) }
    requires piece { (64 ≤ piece) × (piece ≤ 4194304) }
    ensures epoch { IfOk result (λ summed. epoch_summed summed ≡ epoch_read held.now) }
    ensures sums { IfOk result (λ summed. (told : Option Files) → IfSome held.now (IsHeld told ready.now)
        → IfSome summed (AreSumsOf told ready.now)) }
{
    match held {
        Some(held) => Ok(Some(sum_epoch(rt, alloc, ready, held, workers, piece, gate)?)),
        None => Ok(None),
    }
}

// The sums of an epoch from its values.
fn sum_epoch<R: Threads + Sync, G: Gate + Sync>(
    rt: &R,
    alloc: Global,
    ready: &Ready,
    held: &Held,
    workers: u32,
    piece: u64,
    gate: &G,
) -> Result<Summed, AllocError>
    requires held { IsHeld None ready.now held.now }
    requires workers { (1 ≤ workers) × (workers ≤ 64) }
    requires piece { (64 ≤ piece) × (piece ≤ 4194304) }
    ensures epoch { IfOk result (λ s. s.epoch ≡ held.now.epoch) }
    ensures sums { IfOk result (λ s. (told : Option Files) → IsHeld told ready.now held.now → AreSumsOf told ready.now s) }
{
    let epoch = held.epoch;
    let sums = sum(rt, alloc, ready, &held.values, &epoch, workers, piece, gate)?;
    Ok(Summed { epoch, sums })
}
