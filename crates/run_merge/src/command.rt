//! The record file of a job whose parts were summed into journals.
ghost use Rattle.std.specs.Prelude.{◌≡◌, IfErr, IfSome, option_copied};
ghost use Rattle.std.specs.{List.{All}, Str.{IsUtf8}};
ghost use Rattle.dev_traits.specs.Told.{WhereTold};
ghost use Rattle.run_notes.specs.{Refusals.{WhereVerdict, WhereMemory}, Commands.{Tells, IsOfFilesOrOutput}, Counted.{CountsReads, CountsWrites}};
ghost use Rattle.run_merge.specs.Outcome.{MergeOf, merged_text};

use crate::load::load_merge;
use crate::written::written;
use dev_traits::{Shelf, Sink};
use item_list::ItemList;
use num_time::Name;
use run_notes::Refusal;
use std::alloc::Global;

/// Merges the journals of these names, which were summed as parts of a job, and appends the job's record file. The job comes first with its
/// schedule and the sizes of its recordings, then the sizes of the journals, then what each of them keeps, and then whether they make the job
/// together; no recording is read. All memory is taken before the first byte is appended.
pub fn write_merge<F: Shelf, S: Sink>(
    alloc: Global,
    job: &Name,
    vex: Option<&Name>,
    files: &ItemList<Name>,
    shelf: &mut F,
    out: &mut S,
) -> Result<(), Refusal>
    requires job_text { IsUtf8 job.now }
    requires vex_text { IfSome vex (λ name. IsUtf8 name.now) }
    requires file_texts { All IsUtf8 files.now }
    ensures same { F.told shelf.new ≡ F.told shelf.old }
    ensures tells { WhereTold (F.told shelf.old) (λ told. Tells (MergeOf told job.now (option_copied vex.entry) files.now) merged_text
        (S.told out.old) (S.told out.new) result) }
    ensures nothing { IfErr result (λ r. WhereVerdict r (S.told out.new ≡ S.told out.old)) }
    ensures unwritten { IfErr result (λ r. WhereMemory r (S.told out.new ≡ S.told out.old)) }
    ensures stage { IfErr result IsOfFilesOrOutput }
    ensures reads { CountsReads (F.faults shelf.old) (F.faults shelf.new) result }
    ensures writes { CountsWrites (S.faults out.old) (S.faults out.new) result }
{
    let merge = load_merge(alloc, job, vex, files.items(), shelf)?;
    written(alloc, &merge, shelf, out)
}
