//! The epochs of an integration that a shard keeps, and whether they cover it.
ghost use Rattle.std.specs.Prelude.{◌≡◌, ◌<◌, ◌≤◌, true, false, ℕ, List, length, filter, map};
ghost use Rattle.std.specs.{List.{All}, List.Sorted.{IsPartitionedBy, IsPartitionPoint}};
ghost use Rattle.corr_model.specs.Files.{Files};
ghost use Rattle.piece_plan.specs.Epochs.{JobSizes};
ghost use Rattle.job_epochs.specs.Added.{is_of};
ghost use Rattle.checkpoint_journal.specs.{declared.listed.KeptAt.{KeptAt}, Listed.{IsPlaced}};
ghost use Rattle.journal_image.specs.Image.{KeptEpoch};
ghost use Rattle.shard_merge.specs.{Covers.{follow, covers, epochs_of_kept}, Reading.{IsReadFrom}, CoverageOrder.{stands_before, stands_in, epochs_of_listed}};

use crate::shard::Shard;
use checkpoint_journal::KeptAt;
use piece_plan::JobPlan;

/// The kept epochs of integration `m` of the scan of a number. They stand together, as kept epochs are in order.
pub(crate) fn stretch<'a>(plan: &JobPlan, shard: &'a Shard, number: u32, m: u64) -> &'a [KeptAt]
    ensures placed { All (IsPlaced plan.now) shard.entry.now.kept.items → All (IsPlaced plan.now) result.now }
    ensures all { (files : Files) (id : List ℕ) (kept : List KeptEpoch) → IsReadFrom files id plan.now shard.entry.now kept
        → result.now ≡ filter (λ (a : KeptAt). is_of number m a.epoch) shard.entry.now.kept.items }
{
    let kept = shard.kept.as_slice();
    let rest = &kept[number_before(kept, number, m)..];
    &rest[..number_in(rest, number, m)]
}

/// Whether a shard covers integration `m` of the scan of a number.
pub(crate) fn covers(plan: &JobPlan, shard: &Shard, number: u32, m: u64) -> bool
    requires scan { number < length plan.now.scans }
    ensures { (files : Files) (id : List ℕ) (kept : List KeptEpoch) → IsReadFrom files id plan.now shard.now kept
        → result ≡ covers plan.now number m (epochs_of_kept kept) }
{
    let size = &plan.scans()[number as usize];
    let from = m.saturating_mul(plan.integration());
    let to = size.samples.min(from.saturating_add(plan.integration()));
    follow(stretch(plan, shard, number, m), from, to)
}

// How many kept epochs are of integrations before integration `m` of the scan of a number.
fn number_before(kept: &[KeptAt], number: u32, m: u64) -> usize
    ensures within { result ≤ length kept.now }
    ensures point { IsPartitionedBy (stands_before number m) kept.now
        → IsPartitionPoint (λ a. stands_before number m a ≡ true) (λ a. stands_before number m a ≡ false) kept.now result }
{
    kept.partition_point(
        |a: &KeptAt| -> bool
            ensures { result ≡ stands_before number m a.now }
        { a.epoch.scan < number || (a.epoch.scan == number && a.epoch.m < m) },
    )
}

// How many kept epochs, none of which is of an integration before it, are of integration `m` of the scan of a number.
fn number_in(kept: &[KeptAt], number: u32, m: u64) -> usize
    ensures within { result ≤ length kept.now }
    ensures point { IsPartitionedBy (stands_in number m) kept.now
        → IsPartitionPoint (λ a. stands_in number m a ≡ true) (λ a. stands_in number m a ≡ false) kept.now result }
{
    kept.partition_point(
        |a: &KeptAt| -> bool
            ensures { result ≡ stands_in number m a.now }
        { a.epoch.scan == number && a.epoch.m == m },
    )
}

// Whether kept epochs follow one another from one sample to another.
fn follow(kept: &[KeptAt], from: u64, to: u64) -> bool
    ensures { result ≡ follow from to (epochs_of_listed kept.now) }
{
    let mut at = from;
    for a in kept {
        if a.epoch.from != at {
            return false;
        }
        at = a.epoch.to;
    }
    at == to
}
