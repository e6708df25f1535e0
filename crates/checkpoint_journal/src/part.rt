//! Which part of a job a file is the journal of, read from its front.
ghost use Rattle.std.specs.Prelude.{◌≡◌, ◌<◌, ◌≤◌, length, take, slice_index, ◌∷◌, IfOk};
ghost use Rattle.dev_traits.specs.{Fault.{Counts}, Told.{WhereTold}};
ghost use Rattle.checkpoint_journal.specs.{Runs.{Looks}, Front.{IsBegun}, Part.{FindsPart, AreNumbers}};

use crate::front::first_difference;
use crate::reader::{begun_len, load};
use byteorder::{ByteOrder, LittleEndian};
use dev_traits::{Disk, Failed};
use journal_image::Differs;

/// Which part of a job a file is the journal of: of none where it is blank; the numbers of the part's first integration and
/// of the first one behind it; or where it first differs from the front of such a journal.
#[derive(Clone, Copy, Debug, PartialEq, Eq)]
pub enum PartFound {
    Blank,
    Part(u64, u64),
    Other(Differs),
}

/// Looks which part of a job the file on a disk says that it is the journal of, in its first 25 bytes.
pub fn find_part<D: Disk>(disk: &mut D) -> Result<PartFound, Failed>
    ensures finds { IfOk result
        (λ found. WhereTold (D.seen disk.old) (λ image. FindsPart image found)) }
    ensures looks { Looks D.seen D.moment D.may_leave disk.old disk.new }
    ensures stays { D.stays disk.old disk.new }
    ensures counts { Counts (D.faults disk.old) (D.faults disk.new) result }
{
    match begun_len(disk)? {
        None => Ok(PartFound::Blank),
        Some(len) => part_begun(disk, len),
    }
}

// Which part a file of this length says that it is of, whose head gate is open.
fn part_begun<D: Disk>(disk: &mut D, len: u64) -> Result<PartFound, Failed>
    requires some { 1 < len }
    requires begun { WhereTold (D.seen disk.old) (λ image. IsBegun image len) }
    ensures finds { IfOk result
        (λ found. WhereTold (D.seen disk.old) (λ image. FindsPart image found)) }
    ensures looks { Looks D.seen D.moment D.may_leave disk.old disk.new }
    ensures stays { D.stays disk.old disk.new }
    ensures counts { Counts (D.faults disk.old) (D.faults disk.new) result }
{
    let mark = b"VLBISHD1";
    let mut buffer = [0; 8];
    match first_difference(disk, mark, len, &mut buffer)? {
        Some(d) => Ok(PartFound::Other(d)),
        None => {
            if len < 25 {
                return Ok(PartFound::Other(Differs {
                    at: len,
                    kept: None,
                    ours: None,
                }));
            }
            let (from, to) = read_numbers(disk)?;
            Ok(PartFound::Part(from, to))
        }
    }
}

// The two numbers behind the mark of a part.
fn read_numbers<D: Disk>(disk: &mut D) -> Result<(u64, u64), Failed>
    ensures numbers { IfOk result
        (λ n. WhereTold (D.seen disk.old) (λ image. AreNumbers image n.0 n.1)) }
    ensures looks { Looks D.seen D.moment D.may_leave disk.old disk.new }
    ensures stays { D.stays disk.old disk.new }
    ensures counts { Counts (D.faults disk.old) (D.faults disk.new) result }
{
    let mut bytes = [0; 16];
    load(disk, 9, &mut bytes)?;
    Ok((
        LittleEndian::read_u64(&bytes),
        LittleEndian::read_u64(&bytes[8..]),
    ))
}
