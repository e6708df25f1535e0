//! What a file is, read from its front. Nothing is written.
ghost use Rattle.std.specs.Prelude.{◌≡◌, ◌+◌, ◌≤◌, ◌<◌, ◌^◌, ℕ, length, take, slice_index, EachIndex, IfOk, OnOk};
ghost use Rattle.dev_traits.specs.{Fault.{Counts}, Told.{WhereTold}};
ghost use Rattle.checkpoint_journal.specs.{Runs.{Looks}, Front.{IsBegun, FindsHead, IsLong}, Finding.{Finds, FindsPlace, FindsBehind, IsOther}};
ghost use Rattle.piece_plan.specs.Epochs.{IsJob};
ghost use Rattle.journal_image.specs.Image.{IsIdentity};

use crate::finding::Finding;
use crate::front::first_difference;
use crate::walk::walk;
use dev_traits::{Disk, Failed};
use piece_plan::JobPlan;

// Reads the bytes from a place on. Those past the file's end are zero.
pub(crate) fn load<D: Disk>(disk: &mut D, at: u64, buf: &mut [u8]) -> Result<(), Failed>
    ensures looks { Looks D.seen D.moment D.may_leave disk.old disk.new }
    ensures stays { D.stays disk.old disk.new }
    ensures bytes { OnOk result
        (WhereTold (D.seen disk.old)
        (λ image. (k : ℕ) → k < length buf.new → slice_index buf.new k ≡ slice_index image (at + k))) }
    ensures counts { Counts (D.faults disk.old) (D.faults disk.new) result }
{
    clear(buf);
    disk.read_at(at, buf)?;
    Ok(())
}

// Sets each byte to zero.
fn clear(buf: &mut [u8])
    ensures { EachIndex buf.new (λ k. slice_index buf.new k ≡ 0) }
{
    for byte in buf.iter_mut() {
        *byte = 0;
    }
}

// The byte at a place, zero past the file's end.
pub(crate) fn byte_at<D: Disk>(disk: &mut D, at: u64) -> Result<u8, Failed>
    ensures looks { Looks D.seen D.moment D.may_leave disk.old disk.new }
    ensures stays { D.stays disk.old disk.new }
    ensures byte { IfOk result
        (λ byte. WhereTold (D.seen disk.old) (λ image. byte ≡ slice_index image at)) }
    ensures counts { Counts (D.faults disk.old) (D.faults disk.new) result }
{
    let mut buf = [0; 1];
    load(disk, at, &mut buf)?;
    Ok(buf[0])
}

// The length of a file whose head gate is open, none where the file is blank.
pub(crate) fn begun_len<D: Disk>(disk: &mut D) -> Result<Option<u64>, Failed>
    ensures looks { Looks D.seen D.moment D.may_leave disk.old disk.new }
    ensures stays { D.stays disk.old disk.new }
    ensures head { IfOk result (λ len. WhereTold (D.seen disk.old) (λ image. FindsHead image len)) }
    ensures long { IfOk result IsLong }
    ensures counts { Counts (D.faults disk.old) (D.faults disk.new) result }
{
    let len = disk.len()?;
    if len <= 1 {
        return Ok(None);
    }
    let head = byte_at(disk, 0)?;
    if head != 1 {
        return Ok(None);
    }
    Ok(Some(len))
}

/// What the file on a disk is, as a journal of the job with this identity and plan: blank, of the job, or another with
/// the first byte that differs. An identity has fewer than 2^62 bytes and is compared in parts of the buffer's length.
/// It fails where a call of the disk does.
pub fn find<D: Disk>(
    disk: &mut D,
    id: &[u8],
    plan: &JobPlan,
    buffer: &mut [u8],
) -> Result<Finding, Failed>
    requires identity { IsIdentity id.now }
    requires short { length id.now < 2 ^ 62 }
    requires buffer { 0 < length buffer.old }
    ensures finds { IfOk result
        (λ found. WhereTold (D.seen disk.old) (λ image. Finds id.now plan.now image found)) }
    ensures place { IfOk result (FindsPlace plan.now) }
    ensures behind { IfOk result (FindsBehind id.now) }
    ensures job { IsJob plan.now }
    ensures looks { Looks D.seen D.moment D.may_leave disk.old disk.new }
    ensures stays { D.stays disk.old disk.new }
    ensures counts { Counts (D.faults disk.old) (D.faults disk.new) result }
{
    let _epochs = plan.epochs();
    let Some(len) = begun_len(disk)? else {
        return Ok(Finding::Blank);
    };
    match first_difference(disk, id, len, buffer)? {
        Some(d) => Ok(Finding::Other(d)),
        None => {
            // the version is the identity's here, or that of an old journal
            let version = byte_at(disk, 8)?;
            walk(disk, id, plan, version != id[7], len)
        }
    }
}
