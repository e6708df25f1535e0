//! The epochs that a file keeps as the journal of the part that its own front tells.
ghost use Rattle.std.specs.Prelude.{◌≡◌, ◌<◌, ◌≤◌, ◌^◌, ℕ, length, slice_index, Some, IfOk, IfErr, OnOk};
ghost use Rattle.std.specs.List.{All};
ghost use Rattle.dev_traits.specs.{Fault.{Counts}, Told.{WhereTold}};
ghost use Rattle.piece_plan.specs.Limited.{integrations};
ghost use Rattle.journal_image.specs.Image.{IsIdentity};
ghost use Rattle.checkpoint_journal.specs.{Part.{IsOfPart}, Finding.{HasPlace, IsFound}, Listed.{IsPlaced, Lists}};
ghost use Rattle.shard_merge.specs.{Listing.{ListsShard, IsUnlisted, IsUnlike}, Reading.{CountsShard}};

use crate::fault::ShardFault;
use crate::parts::part;
use checkpoint_journal::{
    Finding, Found, Identity, KeptAt, ListFault, PartFound, find, find_part, list_kept,
    shard_identity,
};
use dev_traits::{Disk, Failed};
use journal_image::Differs;
use piece_plan::JobPlan;
use piece_plan::laws::epochs_of_limited;
use std::alloc::{AllocError, Global};

// Lists the epochs that a file keeps as the journal of a part of the job. A blank one keeps none.
pub(crate) fn list_shard<D: Disk>(
    alloc: Global,
    disk: &mut D,
    id: &Identity,
    plan: &JobPlan,
) -> Result<Vec<KeptAt>, ShardFault>
    requires short { length id.now < 2 ^ 61 }
    ensures lists { IfOk result (λ kept. WhereTold (D.seen disk.old) (λ image. ListsShard id.now plan.now image kept.items)) }
    ensures placed { IfOk result (λ kept. All (IsPlaced plan.now) kept.items) }
    ensures unlisted { IfErr result (IsUnlisted id.now plan.now (D.seen disk.old)) }
    ensures stays { D.stays disk.old disk.new }
    ensures counts { CountsShard (D.faults disk.old) (D.faults disk.new) result }
{
    match find_part(disk) {
        Ok(PartFound::Blank) => Ok(Vec::new(alloc)),
        Ok(PartFound::Part(from, to)) => list_range(alloc, disk, id, plan, from, to),
        Ok(PartFound::Other(d)) => Err(ShardFault::NotShard(d)),
        Err(Failed) => Err(ShardFault::Read),
    }
}

// Lists those of a file whose front has these numbers, which may be those of no part.
fn list_range<D: Disk>(
    alloc: Global,
    disk: &mut D,
    id: &Identity,
    plan: &JobPlan,
    from: u64,
    to: u64,
) -> Result<Vec<KeptAt>, ShardFault>
    requires short { length id.now < 2 ^ 61 }
    requires front { WhereTold (D.seen disk.old) (λ image. IsOfPart image from to) }
    ensures lists { IfOk result (λ kept. WhereTold (D.seen disk.old) (λ image. ListsShard id.now plan.now image kept.items)) }
    ensures placed { IfOk result (λ kept. All (IsPlaced plan.now) kept.items) }
    ensures unlisted { IfErr result (IsUnlisted id.now plan.now (D.seen disk.old)) }
    ensures stays { D.stays disk.old disk.new }
    ensures counts { CountsShard (D.faults disk.old) (D.faults disk.new) result }
{
    if from < to && to <= plan.integrations() {
        return list_part(alloc, disk, id, plan, from, to);
    }
    match first_byte(disk) {
        Ok(byte) => Err(ShardFault::NotShard(Differs {
            at: 9,
            kept: Some(byte),
            ours: None,
        })),
        Err(Failed) => Err(ShardFault::Read),
    }
}

// The first byte of the numbers of a part.
fn first_byte<D: Disk>(disk: &mut D) -> Result<u8, Failed>
    ensures byte { IfOk result (λ byte. WhereTold (D.seen disk.old) (λ image. byte ≡ slice_index image 9)) }
    ensures stays { D.stays disk.old disk.new }
    ensures counts { Counts (D.faults disk.old) (D.faults disk.new) result }
{
    let mut byte = [0; 1];
    disk.read_at(9, &mut byte)?;
    Ok(byte[0])
}

// Lists those of a file whose front has the numbers of this part.
fn list_part<D: Disk>(
    alloc: Global,
    disk: &mut D,
    id: &Identity,
    plan: &JobPlan,
    from: u64,
    to: u64,
) -> Result<Vec<KeptAt>, ShardFault>
    requires short { length id.now < 2 ^ 61 }
    requires some { from < to }
    requires within { to ≤ integrations plan.now }
    requires front { WhereTold (D.seen disk.old) (λ image. IsOfPart image from to) }
    ensures lists { IfOk result (λ kept. WhereTold (D.seen disk.old) (λ image. ListsShard id.now plan.now image kept.items)) }
    ensures placed { IfOk result (λ kept. All (IsPlaced plan.now) kept.items) }
    ensures unlisted { IfErr result (IsUnlisted id.now plan.now (D.seen disk.old)) }
    ensures stays { D.stays disk.old disk.new }
    ensures counts { CountsShard (D.faults disk.old) (D.faults disk.new) result }
{
    epochs_of_limited();
    let _lags = plan.lags();
    let own = part(alloc, plan, from, to)?;
    let identity = shard_identity(alloc, id, from, to)?;
    let mut buffer = make_buffer(alloc)?;
    list_journal(alloc, disk, identity.bytes(), &own, &mut buffer)
}

// The buffer through which identities are compared.
fn make_buffer(alloc: Global) -> Result<Vec<u8>, AllocError>
    ensures { IfOk result (λ buffer. 0 < length buffer.items) }
{
    vec![in alloc; 0; 960_000]
}

// Lists the epochs that a file keeps as the journal with this identity and plan, looked at through a buffer.
fn list_journal<D: Disk>(
    alloc: Global,
    disk: &mut D,
    id: &[u8],
    plan: &JobPlan,
    buffer: &mut [u8],
) -> Result<Vec<KeptAt>, ShardFault>
    requires identity { IsIdentity id.now }
    requires short { length id.now < 2 ^ 62 }
    requires buffer { 0 < length buffer.old }
    ensures lists { IfOk result (λ kept. WhereTold (D.seen disk.old) (λ image. Lists id.now plan.now image kept.items)) }
    ensures placed { IfOk result (λ kept. All (IsPlaced plan.now) kept.items) }
    ensures unlike { IfErr result (IsUnlike id.now plan.now (D.seen disk.old)) }
    ensures stays { D.stays disk.old disk.new }
    ensures counts { CountsShard (D.faults disk.old) (D.faults disk.new) result }
{
    match find(disk, id, plan, buffer) {
        Ok(Finding::Blank) => Ok(Vec::new(alloc)),
        Ok(Finding::Ours(last)) => list_before(alloc, disk, id, plan, &last),
        Ok(Finding::Other(d)) => Err(ShardFault::NotShard(d)),
        Err(Failed) => Err(ShardFault::Read),
    }
}

// Lists the epochs before a gate that was found.
fn list_before<D: Disk>(
    alloc: Global,
    disk: &mut D,
    id: &[u8],
    plan: &JobPlan,
    last: &Found,
) -> Result<Vec<KeptAt>, ShardFault>
    requires short { length id.now < 2 ^ 62 }
    requires place { HasPlace plan.now last.now }
    requires found { WhereTold (D.seen disk.old) (λ image. IsFound id.now plan.now image last.now) }
    ensures lists { IfOk result (λ kept. WhereTold (D.seen disk.old) (λ image. Lists id.now plan.now image kept.items)) }
    ensures placed { IfOk result (λ kept. All (IsPlaced plan.now) kept.items) }
    ensures unlike { IfErr result (IsUnlike id.now plan.now (D.seen disk.old)) }
    ensures stays { D.stays disk.old disk.new }
    ensures counts { CountsShard (D.faults disk.old) (D.faults disk.new) result }
{
    match list_kept(alloc, disk, id, plan, last) {
        Ok(kept) => Ok(kept),
        Err(ListFault::Disk) => Err(ShardFault::Read),
        Err(ListFault::Memory) => Err(ShardFault::Memory),
    }
}
