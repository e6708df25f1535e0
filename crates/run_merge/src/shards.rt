//! The journals of a job's parts.
ghost use Rattle.std.specs.Prelude.{◌≡◌, ◌⊎◌, ◌<◌, ◌^◌, List, Ok, Some, length, IfOk, IfErr};
ghost use Rattle.std.specs.{List.{All, AllZip}, Str.{IsUtf8}};
ghost use Rattle.dev_traits.specs.{Files.{size_of}, Told.{WhereTold}};
ghost use Rattle.journal_image.specs.Image.{KeptEpoch};
ghost use Rattle.shard_merge.specs.Reading.{IsListed, IsReadFrom};
ghost use Rattle.run_notes.specs.{Refusals.{IsCause}, Counted.{CountsReads}};
ghost use Rattle.run_ready.specs.Stage.{IsOfFiles};
ghost use Rattle.run_merge.specs.{Outcome.{ShardOf, ShardsOf}, Shards.{IsSizeOf, AreShardsOf}};

use crate::lists::add;
use checkpoint_journal::Identity;
use dev_traits::Shelf;
use num_time::Name;
use piece_plan::JobPlan;
use run_notes::{Due, Refusal};
use shard_merge::{Shard, ShardFault, read_shard};
use std::alloc::Global;

// The refusal of the file of a name that is no journal of a part of the job, by the byte at which it differs.
fn not_shard(alloc: Global, name: &Name, at: u64) -> Refusal
    ensures { (result ≡ Refusal.Memory) ⊎ (result ≡ Refusal.Due (Due.NotShard name.now at)) }
{
    match name.copy(alloc) {
        Ok(name) => Refusal::Due(Due::NotShard(name, at)),
        Err(_) => Refusal::Memory,
    }
}

// The journal of a part of the job with this identity, which is the file of a name and has this length.
pub(crate) fn read_one<F: Shelf>(
    alloc: Global,
    shelf: &mut F,
    name: &Name,
    size: u64,
    id: &Identity,
    plan: &JobPlan,
) -> Result<Shard, Refusal>
    requires text { IsUtf8 name.now }
    requires bound { size < 2 ^ 63 }
    requires short { length id.now < 2 ^ 61 }
    requires size { WhereTold (F.told shelf.old) (λ files. size_of (files name.now) ≡ Some size) }
    ensures same { F.told shelf.new ≡ F.told shelf.old }
    ensures name { IfOk result (λ s. s.name ≡ name.now) }
    ensures listed { IfOk result (IsListed plan.now) }
    ensures read { IfOk result (λ s. WhereTold (F.told shelf.old) (λ files. (kept : List KeptEpoch) × IsReadFrom files id.now plan.now s kept)) }
    ensures cause { IfErr result (λ r. WhereTold (F.told shelf.old) (λ files. IsCause r (ShardOf files id.now plan.now name.now))) }
    ensures stage { IfErr result IsOfFiles }
    ensures counts { CountsReads (F.faults shelf.old) (F.faults shelf.new) result }
{
    match read_shard(alloc, shelf, name, size, id, plan) {
        Ok(shard) => Ok(shard),
        Err(ShardFault::Read) => Err(Refusal::Read),
        Err(ShardFault::NotShard(differs)) => Err(not_shard(alloc, name, differs.at)),
        Err(ShardFault::Memory) => Err(Refusal::Memory),
    }
}

// The journals of these names and lengths, in their order. The first one that is none of the job's is refused.
pub(crate) fn read_shards<F: Shelf>(
    alloc: Global,
    shelf: &mut F,
    names: &[Name],
    sizes: &[u64],
    id: &Identity,
    plan: &JobPlan,
) -> Result<Vec<Shard>, Refusal>
    requires texts { All IsUtf8 names.now }
    requires counted { length sizes.now ≡ length names.now }
    requires bounds { All (λ size. size < 2 ^ 63) sizes.now }
    requires short { length id.now < 2 ^ 61 }
    requires sizes { WhereTold (F.told shelf.old) (λ files. AllZip (IsSizeOf files) names.now sizes.now) }
    ensures same { F.told shelf.new ≡ F.told shelf.old }
    ensures listed { IfOk result (λ shards. All (IsListed plan.now) shards.items) }
    ensures read { IfOk result (λ shards. WhereTold (F.told shelf.old)
        (λ files. (keeps : List (List KeptEpoch)) × AreShardsOf files id.now plan.now names.now shards.items keeps)) }
    ensures cause { IfErr result (λ r. WhereTold (F.told shelf.old) (λ files. IsCause r (ShardsOf files id.now plan.now names.now))) }
    ensures stage { IfErr result IsOfFiles }
    ensures counts { CountsReads (F.faults shelf.old) (F.faults shelf.new) result }
{
    let mut shards = Vec::new(alloc);
    for i in 0..names.len() {
        let shard = read_one(alloc, shelf, &names[i], sizes[i], id, plan)?;
        add(&mut shards, shard)?;
    }
    Ok(shards)
}
