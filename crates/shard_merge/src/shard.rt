//! The journal of a part, as a file of a shelf.
ghost use Rattle.std.specs.Prelude.{◌≡◌, ◌<◌, ◌^◌, ℕ, List, Some, length, IfOk, IfErr};
ghost use Rattle.std.specs.{List.{All}, Str.{IsUtf8}};
ghost use Rattle.dev_traits.specs.{Told.{WhereTold}, Files.{size_of}};
ghost use Rattle.journal_image.specs.Image.{KeptEpoch};
ghost use Rattle.shelf_file.specs.Seen.{seen_under};
ghost use Rattle.checkpoint_journal.specs.Listed.{IsPlaced};
ghost use Rattle.shard_merge.specs.{Listing.{ListsShard, IsUnlisted}, Reading.{IsListed, IsReadFrom, IsRefusedShard, CountsShard}};

use crate::fault::ShardFault;
use crate::listing::list_shard;
use checkpoint_journal::{Identity, KeptAt};
use dev_traits::Shelf;
use num_time::Name;
use piece_plan::JobPlan;
use shelf_file::ShelfFile;
use std::alloc::Global;

/// The journal of a part: the name of its file and the length of that in bytes, and the epochs that it keeps, in order, each with the
/// byte place of its cells.
#[derive(Drop)]
pub struct Shard {
    pub name: Name,
    pub size: u64,
    pub kept: Vec<KeptAt>,
}

/// Reads from the file of a name, which has this length, which epochs it keeps as the journal of the part of the job that its own front
/// tells; a blank one keeps none. Any other file is refused, with the first place at which it differs.
pub fn read_shard<F: Shelf>(
    alloc: Global,
    shelf: &mut F,
    name: &Name,
    size: u64,
    id: &Identity,
    plan: &JobPlan,
) -> Result<Shard, ShardFault>
    requires text { IsUtf8 name.now }
    requires bound { size < 2 ^ 63 }
    requires short { length id.now < 2 ^ 61 }
    requires size { WhereTold (F.told shelf.old) (λ files. size_of (files name.now) ≡ Some size) }
    ensures same { F.told shelf.new ≡ F.told shelf.old }
    ensures name { IfOk result (λ s. s.name ≡ name.now) }
    ensures listed { IfOk result (IsListed plan.now) }
    ensures read { IfOk result (λ s. WhereTold (F.told shelf.old) (λ files. (kept : List KeptEpoch) × IsReadFrom files id.now plan.now s kept)) }
    ensures refused { IfErr result (λ fault. WhereTold (F.told shelf.old) (λ files. IsRefusedShard files id.now plan.now name.now fault)) }
    ensures counts { CountsShard (F.faults shelf.old) (F.faults shelf.new) result }
{
    let Ok(named) = name.copy(alloc) else {
        return Err(ShardFault::Memory);
    };
    match list_file(alloc, shelf, text_of(name), size, id, plan) {
        Ok(kept) => Ok(Shard {
            name: named,
            size,
            kept,
        }),
        Err(fault) => Err(fault),
    }
}

// A name, as the text that it is.
pub(crate) fn text_of(name: &Name) -> &str
    requires { IsUtf8 name.now }
    ensures { result.now ≡ name.now }
{
    str::from_utf8(name.bytes()).unwrap()
}

// Lists the epochs that the file of a name keeps as the journal of a part of the job.
fn list_file<F: Shelf>(
    alloc: Global,
    shelf: &mut F,
    name: &str,
    size: u64,
    id: &Identity,
    plan: &JobPlan,
) -> Result<Vec<KeptAt>, ShardFault>
    requires short { length id.now < 2 ^ 61 }
    ensures same { F.told shelf.new ≡ F.told shelf.old }
    ensures lists { IfOk result (λ kept. WhereTold (seen_under (F.told shelf.old) name.now size) (λ image. ListsShard id.now plan.now image kept.items)) }
    ensures placed { IfOk result (λ kept. All (IsPlaced plan.now) kept.items) }
    ensures unlisted { IfErr result (IsUnlisted id.now plan.now (seen_under (F.told shelf.old) name.now size)) }
    ensures counts { CountsShard (F.faults shelf.old) (F.faults shelf.new) result }
{
    let mut file = ShelfFile::new(shelf, name, size);
    list_shard(alloc, &mut file, id, plan)
}
