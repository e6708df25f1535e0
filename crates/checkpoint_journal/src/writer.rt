//! What is written. A gate stands closed and synced before anything behind it is written, and it is opened in a write
//! of its own.
ghost use Rattle.std.specs.Prelude.{◌≡◌, ℕ, List, [], ◌∷◌, ◌++◌, ◌+◌, ◌*◌, ◌≤◌, ◌<◌, ◌^◌, length, take, OnOk, is_some, option_map};
ghost use Rattle.dev_traits.specs.{Fault.{Counts}, Told.{WhereTold}, Images.{put_at, Torn, Shorn}, Moments.{Goes, Runs, IsDurable}};
ghost use Rattle.piece_plan.specs.Epochs.{JobSizes, IsJob};
ghost use Rattle.checkpoint_journal.specs.{Cells.{body_text}, Runs.{Changes, KeepsFront, put_over, IsDue, Adds}, Staged.{IsStaged, FitsAt}};
ghost use Rattle.journal_image.specs.Image.{IsIdentity, Reading, Reads, Thing, Kept, Turn, mark_text, range_text, more};

use crate::record::write_record;
use atomic_sums::EpochSums;
use byteorder::{ByteOrder, LittleEndian};
use dev_traits::{Disk, Failed};
use journal_image::record_len;
use piece_plan::EpochPlan;

// Writes bytes, and then they are in their place.
pub(crate) fn write_synced<D: Disk>(disk: &mut D, at: u64, bytes: &[u8]) -> Result<(), Failed>
    requires { at + length bytes.now < 2 ^ 63 }
    ensures written { OnOk result (D.seen disk.new ≡ option_map (put_at at bytes.now) (D.seen disk.old)) }
    ensures durable { OnOk result (IsDurable (D.seen disk.new) (D.may_leave disk.new (D.moment disk.new))) }
    ensures tells { is_some (D.seen disk.new) ≡ is_some (D.seen disk.old) }
    ensures goes { Goes D.moment D.may_leave (Torn at (at + length bytes.now)) disk.old disk.new }
    ensures counts { Counts (D.faults disk.old) (D.faults disk.new) result }
{
    disk.write_at(at, bytes)?;
    disk.sync()?;
    Ok(())
}

// Cuts the file, and then it is cut.
pub(crate) fn cut_synced<D: Disk>(disk: &mut D, len: u64) -> Result<(), Failed>
    ensures cut { OnOk result (D.seen disk.new ≡ option_map (take len) (D.seen disk.old)) }
    ensures durable { OnOk result (IsDurable (D.seen disk.new) (D.may_leave disk.new (D.moment disk.new))) }
    ensures tells { is_some (D.seen disk.new) ≡ is_some (D.seen disk.old) }
    ensures goes { Goes D.moment D.may_leave (Shorn len) disk.old disk.new }
    ensures counts { Counts (D.faults disk.old) (D.faults disk.new) result }
{
    disk.cut(len)?;
    disk.sync()?;
    Ok(())
}

// Writes the mark behind a closed gate and a closed gate behind it, and then opens the first of the two.
pub(crate) fn keep_mark<D: Disk>(disk: &mut D, gate: u64) -> Result<(), Failed>
    requires room { gate + 26 < 2 ^ 63 }
    requires within { WhereTold (D.seen disk.old) (λ image. gate < length image) }
    requires durable { IsDurable (D.seen disk.old) (D.may_leave disk.old (D.moment disk.old)) }
    ensures durable { OnOk result (IsDurable (D.seen disk.new) (D.may_leave disk.new (D.moment disk.new))) }
    ensures tells { is_some (D.seen disk.new) ≡ is_some (D.seen disk.old) }
    ensures added { (id : List ℕ) (job : JobSizes) (r : Reading) → IsIdentity id → IsJob job
        → WhereTold (D.seen disk.old) (IsDue id job r (Turn mark_text) gate mark_text)
        → OnOk result (WhereTold (D.seen disk.new) (λ image. Reads id job image (more job r (Turn mark_text)))) }
    ensures changes { (id : List ℕ) (job : JobSizes) (r : Reading) → IsIdentity id → IsJob job
        → WhereTold (D.seen disk.old) (IsDue id job r (Turn mark_text) gate mark_text)
        → Changes D.seen D.moment D.may_leave (Adds id job r (Turn mark_text)) disk.old disk.new }
    ensures counts { Counts (D.faults disk.old) (D.faults disk.new) result }
{
    stage_mark(disk, gate + 1)?;
    open_gate(disk, gate)
}

// Writes the mark from a place on and a closed gate behind it, and then they are in their place.
fn stage_mark<D: Disk>(disk: &mut D, at: u64) -> Result<(), Failed>
    requires room { at + 25 < 2 ^ 63 }
    requires within { WhereTold (D.seen disk.old) (λ image. at ≤ length image) }
    ensures written { OnOk result
        (D.seen disk.new ≡ option_map (put_over at (mark_text ++ 0 ∷ [])) (D.seen disk.old)) }
    ensures durable { OnOk result (IsDurable (D.seen disk.new) (D.may_leave disk.new (D.moment disk.new))) }
    ensures tells { is_some (D.seen disk.new) ≡ is_some (D.seen disk.old) }
    ensures runs { Runs D.moment D.may_leave (KeepsFront at) disk.old disk.new }
    ensures counts { Counts (D.faults disk.old) (D.faults disk.new) result }
{
    write_synced(disk, at, &mark_bytes())?;
    Ok(())
}

// The bytes of the mark and of a closed gate.
fn mark_bytes() -> [u8; 25]
    ensures { result ≡ mark_text ++ 0 ∷ [] }
{
    let mut bytes = [0; 25];
    LittleEndian::write_u64(&mut bytes[16..], u64::MAX);
    bytes
}

// Writes a record of an epoch with its range behind a closed gate and a closed gate behind it, and then opens the first of
// the two.
pub(crate) fn keep_record<D: Disk>(
    disk: &mut D,
    gate: u64,
    e: &EpochPlan,
    sums: &EpochSums,
    buffer: &mut [u8],
) -> Result<(), Failed>
    requires fits { FitsAt e.now sums.now.cells (gate + 1) buffer.old }
    requires within { WhereTold (D.seen disk.old) (λ image. gate < length image) }
    requires durable { IsDurable (D.seen disk.old) (D.may_leave disk.old (D.moment disk.old)) }
    ensures durable { OnOk result (IsDurable (D.seen disk.new) (D.may_leave disk.new (D.moment disk.new))) }
    ensures tells { is_some (D.seen disk.new) ≡ is_some (D.seen disk.old) }
    ensures added { (id : List ℕ) (job : JobSizes) (r : Reading) → IsIdentity id → IsJob job
        → WhereTold (D.seen disk.old) (IsDue id job r (Kept e.now (body_text sums.now.cells)) gate
        (range_text e.now ++ body_text sums.now.cells))
        → OnOk result (WhereTold (D.seen disk.new) (λ image. Reads id job image
        (more job r (Kept e.now (body_text sums.now.cells))))) }
    ensures changes { (id : List ℕ) (job : JobSizes) (r : Reading) → IsIdentity id → IsJob job
        → WhereTold (D.seen disk.old) (IsDue id job r (Kept e.now (body_text sums.now.cells)) gate
        (range_text e.now ++ body_text sums.now.cells))
        → Changes D.seen D.moment D.may_leave (Adds id job r (Kept e.now (body_text sums.now.cells))) disk.old disk.new }
    ensures counts { Counts (D.faults disk.old) (D.faults disk.new) result }
{
    stage_record(disk, gate + 1, e, sums, buffer)?;
    open_gate(disk, gate)
}

// Writes a record from a place on and a closed gate behind it, and then they are in their place.
fn stage_record<D: Disk>(
    disk: &mut D,
    at: u64,
    e: &EpochPlan,
    sums: &EpochSums,
    buffer: &mut [u8],
) -> Result<(), Failed>
    requires fits { FitsAt e.now sums.now.cells at buffer.old }
    requires within { WhereTold (D.seen disk.old) (λ image. at ≤ length image) }
    ensures written { OnOk result (D.seen disk.new
        ≡ option_map (put_over at ((range_text e.now ++ body_text sums.now.cells) ++ 0 ∷ [])) (D.seen disk.old)) }
    ensures durable { OnOk result (IsDurable (D.seen disk.new) (D.may_leave disk.new (D.moment disk.new))) }
    ensures tells { is_some (D.seen disk.new) ≡ is_some (D.seen disk.old) }
    ensures runs { Runs D.moment D.may_leave (KeepsFront at) disk.old disk.new }
    ensures counts { Counts (D.faults disk.old) (D.faults disk.new) result }
{
    write_record(disk, at, e, sums, buffer)?;
    write_synced(disk, at + record_len(true, e.cells()), &[0])?;
    Ok(())
}

// Opens a gate behind which a thing that is due and a closed gate stand.
fn open_gate<D: Disk>(disk: &mut D, gate: u64) -> Result<(), Failed>
    requires room { gate + 1 < 2 ^ 63 }
    requires durable { IsDurable (D.seen disk.old) (D.may_leave disk.old (D.moment disk.old)) }
    ensures durable { OnOk result (IsDurable (D.seen disk.new) (D.may_leave disk.new (D.moment disk.new))) }
    ensures tells { is_some (D.seen disk.new) ≡ is_some (D.seen disk.old) }
    ensures added { (id : List ℕ) (job : JobSizes) (r : Reading) (t : Thing) (bytes : List ℕ) → IsIdentity id → IsJob job
        → WhereTold (D.seen disk.old) (IsStaged id job r t gate bytes)
        → OnOk result (WhereTold (D.seen disk.new) (λ image. Reads id job image (more job r t))) }
    ensures changes { (id : List ℕ) (job : JobSizes) (r : Reading) (t : Thing) (bytes : List ℕ) → IsIdentity id → IsJob job
        → WhereTold (D.seen disk.old) (IsStaged id job r t gate bytes)
        → Changes D.seen D.moment D.may_leave (Adds id job r t) disk.old disk.new }
    ensures counts { Counts (D.faults disk.old) (D.faults disk.new) result }
{
    write_synced(disk, gate, &[1])?;
    Ok(())
}
