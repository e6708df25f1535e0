//! The cursor of a journal: from a gate over the next record to the gate behind it.
ghost use Rattle.std.specs.Prelude.{◌≡◌, ◌+◌, ◌≤◌, ◌<◌, ◌^◌, min, length, IfOk, Some};
ghost use Rattle.dev_traits.specs.{Fault.{Counts}, Told.{WhereTold}};
ghost use Rattle.checkpoint_journal.specs.{Runs.{Looks}, Kept.{HoldsAny}, Next.{IsBeforeNext, TellsThing, IsEpochOf, IsFrom, IsBeside, TellsRecord, IsPast, TellsRead, before_body}};
ghost use Rattle.checkpoint_journal.specs.Listed.{IsPlaced, TellsListed};
ghost use Rattle.piece_plan.specs.Epochs.{IsJob};
ghost use Rattle.plan_places.specs.Places.{place_at, IsPlace};
ghost use Rattle.journal_image.specs.Finding.{HasEpoch};

use crate::body::read_front;
use crate::finding::Found;
use crate::listed::KeptAt;
use crate::walk::{look_behind, past_mark, past_record};
use corr_model::Cell;
use dev_traits::{Disk, Failed};
use journal_image::{Behind, Differs};
use piece_plan::{EpochPlan, JobPlan};
use plan_places::{Place, cut};

/// An epoch of a journal, and a gate beside its record.
#[derive(Clone, Copy)]
pub(crate) struct EpochGate {
    pub epoch: EpochPlan,
    pub gate: Found,
}

// Reads the cells of the next record behind a gate, at which this place is due, into the front of `out`: its epoch, and the
// gate behind it. The last gate of the journal stands at byte `last`.
pub(crate) fn read_record<D: Disk>(
    disk: &mut D,
    plan: &JobPlan,
    here: &Found,
    place: &Place,
    last: u64,
    out: &mut [Cell],
    buffer: &mut [u8],
) -> Result<EpochGate, Failed>
    requires next { IsBeforeNext plan.now here.now place.now last }
    requires room { HoldsAny plan.now out.old }
    requires buffer { length buffer.old ≡ 960000 }
    ensures epoch { IfOk result (λ read. IsFrom plan.now (place_at place.now) read.epoch) }
    ensures past { IfOk result (λ read. IsPast plan.now last here.now read.epoch read.gate) }
    ensures told { IfOk result (λ read. WhereTold (D.seen disk.old)
        (λ image. TellsRead plan.now image here.now last read.epoch read.gate out.new)) }
    ensures looks { Looks D.seen D.moment D.may_leave disk.old disk.new }
    ensures stays { D.stays disk.old disk.new }
    ensures counts { Counts (D.faults disk.old) (D.faults disk.new) result }
{
    let next = next_record(disk, plan, here, place, last)?;
    let cells = next.epoch.cells() as usize;
    read_front(disk, body_place(&next.gate), out, cells, buffer)?;
    Ok(EpochGate {
        epoch: next.epoch,
        gate: up_to(&past_record(plan, &next.gate, &next.epoch), last),
    })
}

// Goes past the next record behind a gate, at which this place is due: its epoch with the place of its cells, and the gate
// behind it. The last gate of the journal stands at byte `last`.
pub(crate) fn pass_record<D: Disk>(
    disk: &mut D,
    plan: &JobPlan,
    here: &Found,
    place: &Place,
    last: u64,
) -> Result<(KeptAt, Found), Failed>
    requires next { IsBeforeNext plan.now here.now place.now last }
    ensures placed { IfOk result (λ passed. IsPlaced plan.now passed.0) }
    ensures past { IfOk result (λ passed. IsPast plan.now last here.now passed.0.epoch passed.1) }
    ensures told { IfOk result (λ passed. WhereTold (D.seen disk.old)
        (λ image. TellsListed plan.now image here.now last passed.0 passed.1)) }
    ensures looks { Looks D.seen D.moment D.may_leave disk.old disk.new }
    ensures stays { D.stays disk.old disk.new }
    ensures counts { Counts (D.faults disk.old) (D.faults disk.new) result }
{
    let next = next_record(disk, plan, here, place, last)?;
    let kept = KeptAt {
        epoch: next.epoch,
        at: body_place(&next.gate),
    };
    let past = past_record(plan, &next.gate, &next.epoch);
    Ok((kept, up_to(&past, last)))
}

// The epoch of the next record behind a gate, and the gate before it: another one, where a mark stands between.
fn next_record<D: Disk>(
    disk: &mut D,
    plan: &JobPlan,
    here: &Found,
    place: &Place,
    last: u64,
) -> Result<EpochGate, Failed>
    requires next { IsBeforeNext plan.now here.now place.now last }
    ensures epoch { IfOk result (λ next. IsFrom plan.now (place_at place.now) next.epoch) }
    ensures gate { IfOk result (λ next. IsBeside last here.now next.gate) }
    ensures told { IfOk result (λ next. WhereTold (D.seen disk.old)
        (λ image. TellsRecord plan.now image here.now last next.gate next.epoch)) }
    ensures looks { Looks D.seen D.moment D.may_leave disk.old disk.new }
    ensures stays { D.stays disk.old disk.new }
    ensures counts { Counts (D.faults disk.old) (D.faults disk.new) result }
{
    let found = look(disk, plan, here, place)?;
    match found {
        Behind::Mark => {
            let turned = up_to(&past_mark(here), last);
            let behind = look(disk, plan, &turned, place)?;
            Ok(EpochGate {
                epoch: epoch_of(plan, place, &behind),
                gate: turned,
            })
        }
        _ => Ok(EpochGate {
            epoch: epoch_of(plan, place, &found),
            gate: *here,
        }),
    }
}

// What stands behind a gate at which this place is due.
fn look<D: Disk>(
    disk: &mut D,
    plan: &JobPlan,
    here: &Found,
    place: &Place,
) -> Result<Behind, Failed>
    requires job { IsJob plan.now }
    requires place { IsPlace plan.now (place_at place.now) }
    requires due { here.now.next ≡ Some place.now }
    ensures told { IfOk result (λ b. WhereTold (D.seen disk.old) (λ image. TellsThing plan.now image here.now b)) }
    ensures epoch { IfOk result (HasEpoch plan.now) }
    ensures looks { Looks D.seen D.moment D.may_leave disk.old disk.new }
    ensures stays { D.stays disk.old disk.new }
    ensures counts { Counts (D.faults disk.old) (D.faults disk.new) result }
{
    let len = disk.len()?;
    if len <= here.gate {
        return Ok(Behind::Fault(Differs {
            at: len,
            kept: None,
            ours: None,
        }));
    }
    look_behind(disk, plan, here, place, len)
}

// The epoch that was found behind a gate, or another that begins at the place that is due there.
fn epoch_of(plan: &JobPlan, place: &Place, found: &Behind) -> EpochPlan
    requires place { IsPlace plan.now (place_at place.now) }
    requires epoch { HasEpoch plan.now found.now }
    ensures fits { IsFrom plan.now (place_at place.now) result }
    ensures same { IsEpochOf found.now (place_at place.now) result }
{
    match found {
        Behind::Record(e) => cut(plan, place, e.to - e.from),
        _ => cut(plan, place, 4_194_304),
    }
}

// A gate no further than byte `last`.
pub(crate) fn up_to(gate: &Found, last: u64) -> Found
    ensures { result ≡ record gate.now { gate = min gate.now.gate last } }
{
    Found {
        gate: gate.gate.min(last),
        ..*gate
    }
}

// Where the cells begin of a record behind a gate.
fn body_place(here: &Found) -> u64
    requires { here.now.gate < 2 ^ 63 }
    ensures { result ≡ here.now.gate + before_body here.now.ranged }
{
    if here.ranged {
        here.gate + 29
    } else {
        here.gate + 1
    }
}
