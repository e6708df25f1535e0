//! The opening of a journal.
ghost use Rattle.std.specs.Prelude.{◌≡◌, ◌≢◌, ℕ, List, ◌+◌, ◌≤◌, ◌<◌, ◌^◌, length, IfOk, IfErr, IfSome, OnOk, None, true, false};
ghost use Rattle.dev_traits.specs.{Fault.{Counts}, Moments.{IsDurable}, Told.{WhereTold}};
ghost use Rattle.checkpoint_journal.specs.{Runs.{Looks, Changes, KeepsEpochs, Spares}, Faults.{CountsFault, CountsLook, IsRefused, IsUnread}, Finding.{IsFound, HasPlace}, Kept.{Sees}};
ghost use Rattle.checkpoint_journal.specs.{Opening.{Opens, OpensReady, IsOpened, AnswersOpening, AnswersLook}, Standing.{Stands}};
ghost use Rattle.piece_plan.specs.Epochs.{JobSizes, IsJob};
ghost use Rattle.plan_places.specs.Places.{place_at, IsPlace};
ghost use Rattle.journal_image.specs.Image.{IsIdentity};

use crate::begin::begin;
use crate::finding::{Finding, Found};
use crate::opening::Opening;
use crate::reader::find;
use crate::walk::{first_gate, past_mark};
use crate::writer::keep_mark;
use crate::{Identity, Journal, OpenFault, Seen};
use dev_traits::{Disk, Failed};
use piece_plan::JobPlan;
use plan_places::start;
use std::alloc::{AllocError, Global};

// Bodies are written and read in parts of so many cells.
const PART: usize = 40_000;

impl Journal {
    /// Opens the journal of this job on the disk: after a sync, a blank file becomes one with no epoch, an old one that does
    /// not cover the job gets the mark behind which records carry their range, any other of this job stays as it is, and
    /// another job's is refused. At each moment every image keeps the epochs that it kept, and to another job's file nothing is
    /// written, whatever the answer. The first epoch is the next one that is read. The identity has fewer than 2^62 bytes.
    pub fn open_on<D: Disk>(
        alloc: Global,
        disk: &mut D,
        id: &Identity,
        plan: &JobPlan,
    ) -> Result<Journal, OpenFault>
        requires short { length id.now < 2 ^ 62 }
        ensures stands { IfOk result
            (λ j. Stands id.now plan.now j (D.seen disk.new) (D.may_leave disk.new (D.moment disk.new))) }
        ensures rewound { IfOk result (λ j. j.here ≡ j.first) }
        ensures changes { Changes D.seen D.moment D.may_leave (KeepsEpochs id.now plan.now) disk.old disk.new }
        ensures spares { Spares D.seen D.moment D.may_leave id.now plan.now disk.old disk.new }
        ensures refused { IfErr result (IsRefused id.now plan.now (D.seen disk.old)) }
        ensures unread { IfErr result (IsUnread (D.seen disk.old) (D.seen disk.new)) }
        ensures no_fault { OnOk result (D.faults disk.new ≡ D.faults disk.old) }
        ensures fault { IfErr result (CountsFault id.now plan.now (D.seen disk.old) (D.faults disk.old) (D.faults disk.new)) }
    {
        let bytes = id.bytes();
        let Ok(mut buffer) = make_buffer(alloc) else {
            return Err(OpenFault::Memory);
        };
        let opening = open(disk, bytes, plan, &mut buffer);
        journal_of(plan, bytes, opening, buffer)
    }

    /// What the journal of this job on the disk keeps: nothing where the file is blank. It writes nothing.
    pub fn look<D: Disk>(
        alloc: Global,
        disk: &mut D,
        id: &Identity,
        plan: &JobPlan,
    ) -> Result<Seen, OpenFault>
        requires short { length id.now < 2 ^ 62 }
        ensures sees { IfOk result (λ seen. WhereTold (D.seen disk.old) (λ image. Sees id.now plan.now image seen)) }
        ensures many { IfOk result (λ seen. seen.kept < 2 ^ 63) }
        ensures place { IfOk result (λ seen. IfSome seen.next (λ p. IsPlace plan.now (place_at p))) }
        ensures refused { IfErr result (IsRefused id.now plan.now (D.seen disk.old)) }
        ensures looks { Looks D.seen D.moment D.may_leave disk.old disk.new }
        ensures no_fault { OnOk result (D.faults disk.new ≡ D.faults disk.old) }
        ensures fault { IfErr result (CountsLook (D.faults disk.old) (D.faults disk.new)) }
    {
        let bytes = id.bytes();
        let Ok(mut buffer) = make_buffer(alloc) else {
            return Err(OpenFault::Memory);
        };
        let found = find(disk, bytes, plan, &mut buffer);
        seen_of(plan, found)
    }
}

// Finds what the file is, makes a blank one the journal of this job, and writes the mark of an old one.
fn open<D: Disk>(
    disk: &mut D,
    id: &[u8],
    plan: &JobPlan,
    buffer: &mut [u8],
) -> Result<Opening, Failed>
    requires named { IsIdentity id.now }
    requires short { length id.now < 2 ^ 62 }
    requires buffer { 0 < length buffer.old }
    ensures opens { IfOk result (Opens id.now plan.now (D.seen disk.old) (D.seen disk.new)) }
    ensures ready { IfOk result (OpensReady id.now plan.now) }
    ensures job { OnOk result (IsJob plan.now) }
    ensures durable { OnOk result (IsDurable (D.seen disk.new) (D.may_leave disk.new (D.moment disk.new))) }
    ensures changes { Changes D.seen D.moment D.may_leave (KeepsEpochs id.now plan.now) disk.old disk.new }
    ensures spares { Spares D.seen D.moment D.may_leave id.now plan.now disk.old disk.new }
    ensures counts { Counts (D.faults disk.old) (D.faults disk.new) result }
{
    disk.sync()?;
    let finding = find(disk, id, plan, buffer)?;
    match finding {
        Finding::Blank => {
            begin(disk, id)?;
            Ok(Opening::Ready(first_gate(plan, id, false)))
        }
        Finding::Ours(found) => carry_on(disk, &found),
        Finding::Other(d) => Ok(Opening::Other(d)),
    }
}

// Writes the mark of an old journal that has none and does not cover the job. Any other stays as it is, and so does one in
// which there is no room for a mark.
fn carry_on<D: Disk>(disk: &mut D, found: &Found) -> Result<Opening, Failed>
    requires short { found.now.gate < 2 ^ 63 }
    requires within { WhereTold (D.seen disk.old) (λ image. found.now.gate < length image) }
    requires durable { IsDurable (D.seen disk.old) (D.may_leave disk.old (D.moment disk.old)) }
    ensures opens { (id : List ℕ) (job : JobSizes) → IsIdentity id → IsJob job
        → WhereTold (D.seen disk.old) (λ image. IsFound id job image found.now)
        → IfOk result (Opens id job (D.seen disk.old) (D.seen disk.new)) }
    ensures ready { (id : List ℕ) (job : JobSizes) → HasPlace job found.now → 1 + length id ≤ found.now.gate
        → IfOk result (OpensReady id job) }
    ensures durable { OnOk result (IsDurable (D.seen disk.new) (D.may_leave disk.new (D.moment disk.new))) }
    ensures changes { (id : List ℕ) (job : JobSizes) → IsIdentity id → IsJob job
        → WhereTold (D.seen disk.old) (λ image. IsFound id job image found.now)
        → Changes D.seen D.moment D.may_leave (KeepsEpochs id job) disk.old disk.new }
    ensures counts { Counts (D.faults disk.old) (D.faults disk.new) result }
{
    if !lacks_mark(found) {
        return Ok(Opening::Ready(*found));
    }
    if found.gate + 26 >= 1 << 63 {
        return Ok(Opening::Full);
    }
    keep_mark(disk, found.gate)?;
    Ok(Opening::Ready(past_mark(found)))
}

// Whether records without a range are due behind a gate.
fn lacks_mark(found: &Found) -> bool
    ensures lacks { result ≡ true → (found.now.ranged ≡ false) × (found.now.next ≢ None) }
    ensures ranged { result ≡ false → found.now.next ≢ None → found.now.ranged ≡ true }
{
    !found.ranged && found.next.is_some()
}

// What an opening answers. It takes no memory, so none can be wanting.
fn journal_of(
    plan: &JobPlan,
    id: &[u8],
    opening: Result<Opening, Failed>,
    buffer: Vec<u8>,
) -> Result<Journal, OpenFault>
    requires short { length id.now < 2 ^ 62 }
    requires buffer { length buffer.items ≡ 960000 }
    requires ready { IfOk opening (OpensReady id.now plan.now) }
    ensures { AnswersOpening id.now plan.now opening result }
{
    match opening {
        Ok(Opening::Ready(end)) => Ok(opened(plan, id, end, buffer)),
        Ok(Opening::Other(d)) => Err(OpenFault::Other(d)),
        Ok(Opening::Full) => Err(OpenFault::Disk),
        Err(Failed) => Err(OpenFault::Disk),
    }
}

// A journal of this job that was just opened, with its last gate.
fn opened(plan: &JobPlan, id: &[u8], end: Found, buffer: Vec<u8>) -> Journal
    requires short { length id.now < 2 ^ 62 }
    requires buffer { length buffer.items ≡ 960000 }
    requires behind { 1 + length id.now ≤ end.gate }
    ensures { IsOpened id.now plan.now end result }
{
    let first = first_gate(plan, id, end.old);
    Journal {
        first,
        end,
        here: first,
        failed: false,
        buffer,
    }
}

// What a look answers. It takes no memory, so none can be wanting.
fn seen_of(plan: &JobPlan, found: Result<Finding, Failed>) -> Result<Seen, OpenFault>
    ensures { AnswersLook plan.now found result }
{
    match found {
        Ok(Finding::Blank) => Ok(Seen {
            kept: 0,
            next: start(plan),
        }),
        Ok(Finding::Ours(f)) => Ok(Seen {
            kept: f.kept,
            next: f.next,
        }),
        Ok(Finding::Other(d)) => Err(OpenFault::Other(d)),
        Err(Failed) => Err(OpenFault::Disk),
    }
}

// The buffer through which identities are compared and bodies go.
fn make_buffer(alloc: Global) -> Result<Vec<u8>, AllocError>
    ensures { IfOk result (λ buffer. length buffer.items ≡ 960000) }
{
    vec![in alloc; 0; 24 * PART]
}
