//! Files by their names: their sizes, and those that are read whole.
ghost use Rattle.std.specs.Prelude.{◌≡◌, ◌≤◌, ◌<◌, ◌^◌, length, IfOk, IfErr, Some, Ok};
ghost use Rattle.std.specs.Str.{IsUtf8};
ghost use Rattle.dev_traits.specs.{Files.{size_of}, Told.{WhereTold}};
ghost use Rattle.run_notes.specs.{Refusals.{IsCause, IsNoVerdict}, Counted.{CountsReads}};
ghost use Rattle.run_ready.specs.{Steps.{Is}, Due.{IsDue}, Sizes.{no_file}, Outcome.{text_under}, Stage.{IsOfFiles}};

use crate::refusals::{there, within};
use dev_traits::Shelf;
use num_time::Name;
use run_notes::{Measure, Refusal};
use shelf_stretch::read_stretch;
use std::alloc::Global;

// A name, as the text that it is.
fn text_of(name: &Name) -> &str
    requires { IsUtf8 name.now }
    ensures { result.now ≡ name.now }
{
    str::from_utf8(name.bytes()).unwrap()
}

/// The length of a file, in bytes.
pub fn file_size<F: Shelf>(alloc: Global, shelf: &mut F, name: &Name) -> Result<u64, Refusal>
    requires text { IsUtf8 name.now }
    ensures same { F.told shelf.new ≡ F.told shelf.old }
    ensures bound { IfOk result (λ size. size < 2 ^ 63) }
    ensures size { IfOk result (λ size. WhereTold (F.told shelf.old) (λ files. size_of (files name.now) ≡ Some size)) }
    ensures due { IfErr result (λ r. WhereTold (F.told shelf.old) (λ files. IsDue r (no_file files name.now))) }
    ensures stage { IfErr result IsOfFiles }
    ensures counts { CountsReads (F.faults shelf.old) (F.faults shelf.new) result }
{
    let named = name.copy(alloc)?;
    let Ok(size) = shelf.size(text_of(name)) else {
        return Err(Refusal::Read);
    };
    let length = there(size, named)?;
    Ok(length)
}

/// The bytes of a file, of which no more than `most` are read. Its size is looked at before it is read; those bytes that the
/// shelf does not give are zero.
pub fn load_text<F: Shelf>(
    alloc: Global,
    shelf: &mut F,
    name: &Name,
    measure: Measure,
    most: u64,
) -> Result<Vec<u8>, Refusal>
    requires text { IsUtf8 name.now }
    ensures same { F.told shelf.new ≡ F.told shelf.old }
    ensures text { IfOk result (λ text. WhereTold (F.told shelf.old) (λ files. Is (text_under files name.now measure most) (Ok text.items))) }
    ensures bytes { IfOk result (λ text. WhereTold (F.told shelf.old) (λ files. files name.now ≡ Some text.items)) }
    ensures short { IfOk result (λ text. length text.items ≤ most) }
    ensures cause { IfErr result (λ r. WhereTold (F.told shelf.old) (λ files. IsCause r (Is (text_under files name.now measure most)))) }
    ensures stage { IfErr result IsOfFiles }
    ensures counts { CountsReads (F.faults shelf.old) (F.faults shelf.new) result }
{
    let size = file_size(alloc, shelf, name)?;
    within(measure, u128::from(most), u128::from(size))?;
    read_whole(alloc, shelf, name, size)
}

// The bytes of a file of this length; those that the shelf does not give are zero.
fn read_whole<F: Shelf>(
    alloc: Global,
    shelf: &mut F,
    name: &Name,
    size: u64,
) -> Result<Vec<u8>, Refusal>
    requires text { IsUtf8 name.now }
    ensures same { F.told shelf.new ≡ F.told shelf.old }
    ensures bytes { IfOk result (λ bytes. WhereTold (F.told shelf.old) (λ files. size_of (files name.now) ≡ Some size → files name.now ≡ Some bytes.items)) }
    ensures length { IfOk result (λ bytes. length bytes.items ≡ size) }
    ensures cause { IfErr result IsNoVerdict }
    ensures stage { IfErr result IsOfFiles }
    ensures counts { CountsReads (F.faults shelf.old) (F.faults shelf.new) result }
{
    let mut bytes = vec![in alloc; 0u8; size as usize]?;
    match read_stretch(shelf, name.bytes(), 0, &mut bytes) {
        Ok(_) => Ok(bytes),
        Err(_) => Err(Refusal::Read),
    }
}
