//! The cells of an integration, read from a shard.
ghost use Rattle.std.specs.Prelude.{◌≡◌, ◌+◌, ◌*◌, ◌≤◌, ℕ, List, length, replicate, take, OnOk};
ghost use Rattle.std.specs.List.{All};
ghost use Rattle.dev_traits.specs.{Fault.{Counts}, Told.{WhereTold}};
ghost use Rattle.corr_model.specs.Cell.{no_cell};
ghost use Rattle.piece_plan.specs.Epochs.{cell_count};
ghost use Rattle.journal_image.specs.Image.{KeptEpoch};
ghost use Rattle.job_epochs.specs.Added.{add_cells};
ghost use Rattle.checkpoint_journal.specs.Cells.{cells_at};
ghost use Rattle.shard_merge.specs.{Adding.{IsWithin, cells_in, added_in, added_part}, Covers.{added, kept_in}, Reading.{IsListed, IsReadFrom}};

use crate::coverage::stretch;
use crate::shard::{Shard, text_of};
use checkpoint_journal::{KeptAt, read_cells};
use corr_model::Cell;
use dev_traits::{Disk, Failed, Shelf};
use job_epochs::add_cells;
use piece_plan::JobPlan;
use shelf_file::ShelfFile;

/// Sets `sums` to what the cells of the kept epochs of integration `m` of the scan of a number add up to, as far as there are places. They are
/// read 40,000 at a time into `part`, through a buffer of 960,000 bytes.
pub(crate) fn sum_cells<F: Shelf>(
    shelf: &mut F,
    plan: &JobPlan,
    shard: &Shard,
    number: u32,
    m: u64,
    sums: &mut [Cell],
    part: &mut [Cell],
    buffer: &mut [u8],
) -> Result<(), Failed>
    requires listed { IsListed plan.now shard.now }
    requires part { length part.old ≡ 40000 }
    requires buffer { length buffer.old ≡ 960000 }
    ensures same { F.told shelf.new ≡ F.told shelf.old }
    ensures sums { OnOk result (WhereTold (F.told shelf.old) (λ files. (id : List ℕ) (kept : List KeptEpoch)
        → IsReadFrom files id plan.now shard.now kept
        → sums.new ≡ added (replicate (length sums.old) no_cell) (kept_in number m kept))) }
    ensures counts { Counts (F.faults shelf.old) (F.faults shelf.new) result }
{
    let kept = stretch(plan, shard, number, m);
    clear(sums);
    let mut file = ShelfFile::new(shelf, text_of(&shard.name), shard.size);
    add_all(&mut file, kept, sums, part, buffer)
}

// Sets each cell to none.
fn clear(cells: &mut [Cell])
    ensures { cells.new ≡ replicate (length cells.old) no_cell }
{
    cells.fill(Cell::ZERO);
}

// Adds the cells of some epochs.
fn add_all<D: Disk>(
    disk: &mut D,
    kept: &[KeptAt],
    sums: &mut [Cell],
    part: &mut [Cell],
    buffer: &mut [u8],
) -> Result<(), Failed>
    requires within { All IsWithin kept.now }
    requires part { length part.old ≡ 40000 }
    requires buffer { length buffer.old ≡ 960000 }
    ensures sums { OnOk result (WhereTold (D.seen disk.old) (λ image. sums.new ≡ added_in image sums.old kept.now)) }
    ensures same { D.seen disk.new ≡ D.seen disk.old }
    ensures stays { D.stays disk.old disk.new }
    ensures counts { Counts (D.faults disk.old) (D.faults disk.new) result }
{
    for one in kept {
        add_epoch(disk, one, sums, part, buffer)?;
    }
    Ok(())
}

// Adds the cells of an epoch, as far as there are places for them.
fn add_epoch<D: Disk>(
    disk: &mut D,
    kept: &KeptAt,
    sums: &mut [Cell],
    part: &mut [Cell],
    buffer: &mut [u8],
) -> Result<(), Failed>
    requires within { IsWithin kept.now }
    requires part { length part.old ≡ 40000 }
    requires buffer { length buffer.old ≡ 960000 }
    ensures sums { OnOk result (WhereTold (D.seen disk.old) (λ image. sums.new ≡ add_cells sums.old (cells_in image kept.now))) }
    ensures same { D.seen disk.new ≡ D.seen disk.old }
    ensures stays { D.stays disk.old disk.new }
    ensures counts { Counts (D.faults disk.old) (D.faults disk.new) result }
{
    let count = (kept.epoch.cells() as usize).min(sums.len());
    let mut done = 0;
    while done < count {
        let more = (count - done).min(40_000);
        add_part(disk, kept, done, more, sums, part, buffer)?;
        done += more;
    }
    Ok(())
}

// Adds so many more cells of an epoch, of which the first ones were added.
fn add_part<D: Disk>(
    disk: &mut D,
    kept: &KeptAt,
    done: usize,
    more: usize,
    sums: &mut [Cell],
    part: &mut [Cell],
    buffer: &mut [u8],
) -> Result<(), Failed>
    requires within { IsWithin kept.now }
    requires cells { done + more ≤ cell_count kept.now.epoch }
    requires places { done + more ≤ length sums.old }
    requires fits { more ≤ length part.old }
    requires buffer { length buffer.old ≡ 960000 }
    ensures sums { OnOk result (WhereTold (D.seen disk.old)
        (λ image. sums.new ≡ added_part sums.old done more (cells_at image (kept.now.at + 24 * done) more))) }
    ensures same { D.seen disk.new ≡ D.seen disk.old }
    ensures stays { D.stays disk.old disk.new }
    ensures counts { Counts (D.faults disk.old) (D.faults disk.new) result }
{
    read_cells(disk, kept, done, &mut part[..more], buffer)?;
    add_cells(&mut sums[done..done + more], &part[..more]);
    Ok(())
}
