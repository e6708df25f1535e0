//! The sizes of journals.
ghost use Rattle.std.specs.Prelude.{◌≡◌, ◌<◌, ◌^◌, None, length, IfOk, IfErr, OnOk};
ghost use Rattle.std.specs.{List.{All, AllZip}, Str.{IsUtf8}};
ghost use Rattle.dev_traits.specs.Told.{WhereTold};
ghost use Rattle.run_notes.specs.Counted.{CountsReads};
ghost use Rattle.run_ready.specs.{Due.{IsDue}, Sizes.{no_file_of}, Stage.{IsOfFiles}};
ghost use Rattle.run_merge.specs.Shards.{IsSizeOf};

use crate::lists::add;
use dev_traits::Shelf;
use num_time::Name;
use run_notes::Refusal;
use run_ready::file_size;
use std::alloc::Global;

// The lengths of files in bytes, in their order. The first one that is not there is refused.
pub(crate) fn sizes_of_files<F: Shelf>(
    alloc: Global,
    shelf: &mut F,
    names: &[Name],
) -> Result<Vec<u64>, Refusal>
    requires texts { All IsUtf8 names.now }
    ensures same { F.told shelf.new ≡ F.told shelf.old }
    ensures counted { IfOk result (λ sizes. length sizes.items ≡ length names.now) }
    ensures bounds { IfOk result (λ sizes. All (λ size. size < 2 ^ 63) sizes.items) }
    ensures sizes { IfOk result (λ sizes. WhereTold (F.told shelf.old) (λ files. AllZip (IsSizeOf files) names.now sizes.items)) }
    ensures there { OnOk result (WhereTold (F.told shelf.old) (λ files. no_file_of files names.now ≡ None)) }
    ensures due { IfErr result (λ r. WhereTold (F.told shelf.old) (λ files. IsDue r (no_file_of files names.now))) }
    ensures stage { IfErr result IsOfFiles }
    ensures counts { CountsReads (F.faults shelf.old) (F.faults shelf.new) result }
{
    let mut sizes = Vec::new(alloc);
    for name in names {
        let size = file_size(alloc, shelf, name)?;
        add(&mut sizes, size)?;
    }
    Ok(sizes)
}
