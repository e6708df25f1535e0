//! The epochs that a journal keeps, listed, and their cells by place.
ghost use Rattle.std.specs.Prelude.{◌≡◌, [], ◌∷◌, ◌++◌, ◌+◌, ◌*◌, ◌≤◌, ◌<◌, ◌^◌, length, IfOk, OnOk};
ghost use Rattle.std.specs.List.{All};
ghost use Rattle.dev_traits.specs.{Fault.{Counts}, Told.{WhereTold}};
ghost use Rattle.piece_plan.specs.Epochs.{IsOfPlan, cell_count};
ghost use Rattle.checkpoint_journal.specs.{Runs.{Looks}, Cells.{cells_at}, Finding.{HasPlace, IsFound}, Listed.{Lists, IsPlaced, CountsList}};

use crate::body::read_body;
use crate::cursor::{pass_record, up_to};
use crate::walk::first_gate;
use crate::{Found, ListFault};
use corr_model::Cell;
use dev_traits::{Disk, Failed};
use piece_plan::{EpochPlan, JobPlan};
use std::alloc::{AllocError, Global};

/// An epoch that a journal keeps, and the byte place of its cells.
#[derive(Clone, Copy, Debug, PartialEq, Eq)]
pub struct KeptAt {
    pub epoch: EpochPlan,
    pub at: u64,
}

/// The epochs that a journal keeps before a gate that was found in it, in order, each with the byte place of its cells. It
/// reads the front of each record alone.
pub fn list_kept<D: Disk>(
    alloc: Global,
    disk: &mut D,
    id: &[u8],
    plan: &JobPlan,
    last: &Found,
) -> Result<Vec<KeptAt>, ListFault>
    requires short { length id.now < 2 ^ 62 }
    requires place { HasPlace plan.now last.now }
    ensures lists { IfOk result
        (λ kept. WhereTold (D.seen disk.old)
        (λ image. IsFound id.now plan.now image last.now → Lists id.now plan.now image kept.items)) }
    ensures placed { IfOk result (λ kept. All (IsPlaced plan.now) kept.items) }
    ensures looks { Looks D.seen D.moment D.may_leave disk.old disk.new }
    ensures stays { D.stays disk.old disk.new }
    ensures counts { CountsList (D.faults disk.old) (D.faults disk.new) result }
{
    let _epochs = plan.epochs();
    let mut kept = Vec::new(alloc);
    let mut here = up_to(&first_gate(plan, id, last.old), last.gate);
    while here.kept < last.kept {
        let Some(place) = here.next else {
            return Ok(kept);
        };
        let Ok(passed) = pass_record(disk, plan, &here, &place, last.gate) else {
            return Err(ListFault::Disk);
        };
        let Ok(()) = add(&mut kept, passed.0) else {
            return Err(ListFault::Memory);
        };
        here = passed.1;
    }
    Ok(kept)
}

// Adds an epoch at the end of a list.
fn add(list: &mut Vec<KeptAt>, one: KeptAt) -> Result<(), AllocError>
    ensures { OnOk result (list.new.items ≡ list.old.items ++ one ∷ []) }
{
    list.push(one)?;
    Ok(())
}

/// Reads cells of a kept epoch, from the one with this number on, as many as there are places for.
pub fn read_cells<D: Disk>(
    disk: &mut D,
    kept: &KeptAt,
    first: usize,
    out: &mut [Cell],
    buffer: &mut [u8],
) -> Result<(), Failed>
    requires within { first + length out.old ≤ cell_count kept.now.epoch }
    requires of_plan { IsOfPlan kept.now.epoch }
    requires place { kept.now.at ≤ 2 ^ 63 + 28 }
    requires buffer { length buffer.old ≡ 960000 }
    ensures cells { OnOk result (WhereTold (D.seen disk.old)
        (λ image. out.new ≡ cells_at image (kept.now.at + 24 * first) (length out.old))) }
    ensures looks { Looks D.seen D.moment D.may_leave disk.old disk.new }
    ensures stays { D.stays disk.old disk.new }
    ensures counts { Counts (D.faults disk.old) (D.faults disk.new) result }
{
    read_body(disk, kept.at + 24 * first as u64, out, buffer)
}
