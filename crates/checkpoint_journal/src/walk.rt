//! The walk along the gates of a journal.
ghost use Rattle.std.specs.Prelude.{◌≡◌, ◌+◌, ◌≤◌, ◌<◌, ◌^◌, ℕ, length, take, option_map, IfOk, IfSome, true};
ghost use Rattle.dev_traits.specs.{Fault.{Counts}, Told.{WhereTold}};
ghost use Rattle.checkpoint_journal.specs.{Runs.{Looks}, Finding.{Finds, FindsPlace, FindsBehind, StandsBehind, HasPlace, due_of, record_size}};
ghost use Rattle.piece_plan.specs.{Epochs.{IsJob, IsEpoch, IsOfPlan}, Order.{place_after}};
ghost use Rattle.plan_places.specs.Places.{place_at, IsPlace};
ghost use Rattle.journal_image.specs.{Image.{IsIdentity, MayBeOld, begin, start}, Finding.{HasEpoch}};

use crate::finding::{Finding, Found};
use crate::reader::{byte_at, load};
use dev_traits::{Disk, Failed};
use journal_image::{Behind, Differs, behind, record_len};
use piece_plan::{EpochPlan, JobPlan};
use plan_places::{Place, after, start};

// What a file of this length is that begins with the open head gate and an identity, which may be an old journal's.
pub(crate) fn walk<D: Disk>(
    disk: &mut D,
    id: &[u8],
    plan: &JobPlan,
    old: bool,
    len: u64,
) -> Result<Finding, Failed>
    requires identity { IsIdentity id.now }
    requires short { length id.now < 2 ^ 62 }
    requires job { IsJob plan.now }
    requires len { len < 2 ^ 63 }
    requires length { WhereTold (D.seen disk.old) (λ image. len ≡ length image) }
    requires begun { WhereTold (D.seen disk.old) (λ image. take (1 + length id.now) image ≡ begin id.now old) }
    requires version { WhereTold (D.seen disk.old) (λ image. MayBeOld id.now old) }
    ensures finds { IfOk result
        (λ found. WhereTold (D.seen disk.old) (λ image. Finds id.now plan.now image found)) }
    ensures place { IfOk result (FindsPlace plan.now) }
    ensures behind { IfOk result (FindsBehind id.now) }
    ensures looks { Looks D.seen D.moment D.may_leave disk.old disk.new }
    ensures stays { D.stays disk.old disk.new }
    ensures counts { Counts (D.faults disk.old) (D.faults disk.new) result }
{
    let mut here = first_gate(plan, id, old);
    while here.gate < len {
        let Some(place) = here.next else {
            return Ok(Finding::Ours(here));
        };
        let gate = byte_at(disk, here.gate)?;
        if gate != 1 {
            return Ok(Finding::Ours(here));
        }
        match look_behind(disk, plan, &here, &place, len)? {
            Behind::Record(e) => here = past_record(plan, &here, &e),
            Behind::Mark => here = past_mark(&here),
            Behind::Fault(d) => return Ok(Finding::Other(d)),
        }
    }
    Ok(Finding::Other(Differs {
        at: len,
        kept: None,
        ours: None,
    }))
}

// The gate behind the identity.
pub(crate) fn first_gate(plan: &JobPlan, id: &[u8], old: bool) -> Found
    requires short { length id.now < 2 ^ 62 }
    ensures old { result.old ≡ old }
    ensures kept { result.kept ≡ 0 }
    ensures due { due_of result ≡ start plan.now old }
    ensures gate { result.gate ≡ 1 + length id.now }
    ensures place { HasPlace plan.now result }
{
    Found {
        old,
        kept: 0,
        next: start(plan),
        gate: 1 + id.len() as u64,
        ranged: !old,
    }
}

// What stands behind an open gate, where an epoch from a place on is due, in a file of this length.
pub(crate) fn look_behind<D: Disk>(
    disk: &mut D,
    plan: &JobPlan,
    here: &Found,
    place: &Place,
    len: u64,
) -> Result<Behind, Failed>
    requires job { IsJob plan.now }
    requires place { IsPlace plan.now (place_at place.now) }
    requires inside { here.now.gate < len }
    requires len { len < 2 ^ 63 }
    requires length { WhereTold (D.seen disk.old) (λ image. len ≡ length image) }
    ensures behind { IfOk result
        (λ b. WhereTold (D.seen disk.old) (StandsBehind plan.now here.now (place_at place.now) b)) }
    ensures epoch { IfOk result (HasEpoch plan.now) }
    ensures looks { Looks D.seen D.moment D.may_leave disk.old disk.new }
    ensures stays { D.stays disk.old disk.new }
    ensures counts { Counts (D.faults disk.old) (D.faults disk.new) result }
{
    let at = here.gate + 1;
    let mut head = [0; 28];
    load(disk, at, &mut head)?;
    Ok(behind(&head, len - at, at, here.ranged, place, plan))
}

// The gate behind the record of an epoch.
pub(crate) fn past_record(plan: &JobPlan, here: &Found, e: &EpochPlan) -> Found
    requires fits { IsEpoch plan.now e.now }
    requires of_plan { IsOfPlan e.now }
    requires short { here.now.gate < 2 ^ 63 }
    requires many { here.now.kept ≤ here.now.gate }
    ensures kept { result.kept ≡ here.now.kept + 1 }
    ensures gate { result.gate ≡ here.now.gate + (1 + record_size here.now.ranged e.now) }
    ensures next { option_map place_at result.next ≡ place_after plan.now e.now }
    ensures place { IfSome result.next (λ p. IsPlace plan.now (place_at p)) }
    ensures same { (result.old ≡ here.now.old) × (result.ranged ≡ here.now.ranged) }
{
    Found {
        old: here.old,
        kept: here.kept + 1,
        next: after(plan, e),
        gate: here.gate + (1 + record_len(here.ranged, e.cells())),
        ranged: here.ranged,
    }
}

// The gate behind a mark, from which on records carry their range.
pub(crate) fn past_mark(here: &Found) -> Found
    requires short { here.now.gate < 2 ^ 63 }
    ensures { result ≡ record here.now { gate = here.now.gate + 25; ranged = true } }
{
    Found {
        old: here.old,
        kept: here.kept,
        next: here.next,
        gate: here.gate + 25,
        ranged: true,
    }
}
