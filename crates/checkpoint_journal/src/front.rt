//! The identity in a file's front, compared with that of a job.
ghost use Rattle.std.specs.Prelude.{◌≡◌, ◌≢◌, ◌+◌, ◌-◌, ◌≤◌, ◌<◌, ◌^◌, ℕ, length, slice_index, IfOk, true, false};
ghost use Rattle.dev_traits.specs.{Fault.{Counts}, Told.{WhereTold}};
ghost use Rattle.checkpoint_journal.specs.{Runs.{Looks}, Front.{IsOursByte, OursUpTo, FindsFirst, IsBegun, Compares}};
ghost use Rattle.journal_image.specs.{Image.{IsIdentity}, Difference.{IsOfFront}};

use crate::reader::{byte_at, load};
use dev_traits::{Disk, Failed};
use journal_image::Differs;

// The first place at which a file of this length, whose head gate is open, has another byte than the identity, and the two
// bytes there. For the version an old journal's is no other one.
pub(crate) fn first_difference<D: Disk>(
    disk: &mut D,
    id: &[u8],
    len: u64,
    buffer: &mut [u8],
) -> Result<Option<Differs>, Failed>
    requires short { length id.now < 2 ^ 62 }
    requires buffer { 0 < length buffer.old }
    requires some { 1 ≤ len }
    requires begun { WhereTold (D.seen disk.old) (λ image. IsBegun image len) }
    ensures first { IfOk result
        (λ d. WhereTold (D.seen disk.old) (λ image. FindsFirst id.now image d)) }
    ensures looks { Looks D.seen D.moment D.may_leave disk.old disk.new }
    ensures stays { D.stays disk.old disk.new }
    ensures counts { Counts (D.faults disk.old) (D.faults disk.new) result }
{
    let mut done = 0;
    while done < id.len() {
        let count = buffer.len().min(id.len() - done);
        let same = compare(disk, done as u64, &id[done..done + count], len, buffer)?;
        if same < count {
            let d = difference(disk, id, len, 1 + (done + same) as u64)?;
            return Ok(Some(d));
        }
        done += count;
    }
    Ok(None)
}

// How many bytes of a part, which begins at place `first` of the identity, stand in a file of this length.
fn compare<D: Disk>(
    disk: &mut D,
    first: u64,
    part: &[u8],
    len: u64,
    buffer: &mut [u8],
) -> Result<usize, Failed>
    requires fits { length part.now ≤ length buffer.old }
    requires short { first + length part.now < 2 ^ 62 }
    requires length { WhereTold (D.seen disk.old) (λ image. len ≡ length image) }
    ensures within { IfOk result (λ n. n ≤ length part.now) }
    ensures compares { IfOk result
        (λ n. WhereTold (D.seen disk.old) (λ image. Compares image first part.now n)) }
    ensures looks { Looks D.seen D.moment D.may_leave disk.old disk.new }
    ensures stays { D.stays disk.old disk.new }
    ensures counts { Counts (D.faults disk.old) (D.faults disk.new) result }
{
    let front = &mut buffer[..part.len()];
    load(disk, 1 + first, front)?;
    let there = len.saturating_sub(1 + first).min(part.len() as u64);
    Ok(same_front(front, &part[..there as usize], first))
}

// How many bytes at the front are those of a part, which begins at place `first` of the identity.
fn same_front(bytes: &[u8], part: &[u8], first: u64) -> usize
    requires long { length part.now ≤ length bytes.now }
    requires short { first + length part.now < 2 ^ 62 }
    ensures within { result ≤ length part.now }
    ensures same { (k : ℕ) → k < result → IsOursByte (first + k) (slice_index bytes.now k) (slice_index part.now k) }
    ensures other { result < length part.now
        → ¬ IsOursByte (first + result) (slice_index bytes.now result) (slice_index part.now result) }
{
    for (i, byte) in part.iter().enumerate() {
        if !is_ours(first + i as u64, bytes[i], *byte) {
            return i;
        }
    }
    part.len()
}

// Whether a byte at place k of an identity is this one, or an old journal's version.
fn is_ours(k: u64, byte: u8, ours: u8) -> bool
    ensures ours { result ≡ true → IsOursByte k byte ours }
    ensures other { result ≡ false → ¬ IsOursByte k byte ours }
{
    if byte == ours {
        return true;
    }
    if k != 7 {
        return false;
    }
    byte == 49
}

// The bytes at the first place that differs.
fn difference<D: Disk>(disk: &mut D, id: &[u8], len: u64, at: u64) -> Result<Differs, Failed>
    requires inside { (1 ≤ at) × (at ≤ length id.now) }
    requires begun { WhereTold (D.seen disk.old) (λ image. IsBegun image len) }
    requires first { WhereTold (D.seen disk.old) (λ image. OursUpTo id.now image at) }
    ensures front { IfOk result
        (λ d. WhereTold (D.seen disk.old) (λ image. IsOfFront id.now image d)) }
    ensures looks { Looks D.seen D.moment D.may_leave disk.old disk.new }
    ensures stays { D.stays disk.old disk.new }
    ensures counts { Counts (D.faults disk.old) (D.faults disk.new) result }
{
    let ours = Some(id[at as usize - 1]);
    if at >= len {
        return Ok(Differs {
            at,
            kept: None,
            ours,
        });
    }
    let byte = byte_at(disk, at)?;
    Ok(Differs {
        at,
        kept: Some(byte),
        ours,
    })
}
