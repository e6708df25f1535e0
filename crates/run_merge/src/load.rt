//! A job and the journals of its parts, read and compared.
ghost use Rattle.std.specs.Prelude.{◌≡◌, List, IfOk, IfErr, IfSome, option_copied};
ghost use Rattle.std.specs.{List.{All}, Str.{IsUtf8}};
ghost use Rattle.dev_traits.specs.Told.{WhereTold};
ghost use Rattle.journal_image.specs.Image.{KeptEpoch};
ghost use Rattle.shard_merge.specs.Reading.{IsListed};
ghost use Rattle.run_notes.specs.{Refusals.{IsCause}, Counted.{CountsReads}};
ghost use Rattle.run_ready.specs.Stage.{IsOfFiles};
ghost use Rattle.run_merge.specs.{Outcome.{MergeOf}, Jobs.{IsMergeOf}};

use crate::compared::compared;
use crate::job::MergeJob;
use crate::shards::read_shards;
use crate::sizes::sizes_of_files;
use dev_traits::Shelf;
use num_time::Name;
use run_notes::Refusal;
use run_ready::survey;
use std::alloc::Global;

// Reads a job with its schedule and surveys it, then looks at the sizes of the journals, reads them, and compares what they keep.
pub(crate) fn load_merge<F: Shelf>(
    alloc: Global,
    job: &Name,
    vex: Option<&Name>,
    names: &[Name],
    shelf: &mut F,
) -> Result<MergeJob, Refusal>
    requires job_text { IsUtf8 job.now }
    requires vex_text { IfSome vex (λ name. IsUtf8 name.now) }
    requires file_texts { All IsUtf8 names.now }
    ensures same { F.told shelf.new ≡ F.told shelf.old }
    ensures listed { IfOk result (λ m. All (IsListed m.survey.epochs) m.shards.items) }
    ensures merge { IfOk result (λ m. WhereTold (F.told shelf.old)
        (λ files. (keeps : List (List KeptEpoch)) × IsMergeOf files job.now (option_copied vex.entry) names.now m keeps)) }
    ensures cause { IfErr result (λ r. WhereTold (F.told shelf.old) (λ files. IsCause r (MergeOf files job.now (option_copied vex.entry) names.now))) }
    ensures stage { IfErr result IsOfFiles }
    ensures counts { CountsReads (F.faults shelf.old) (F.faults shelf.new) result }
{
    let survey = survey(alloc, job, vex, None, shelf)?;
    let _ranges = survey.plan.plan();
    let sizes = sizes_of_files(alloc, shelf, names)?;
    let shards = read_shards(
        alloc,
        shelf,
        names,
        &sizes,
        &survey.identity,
        &survey.epochs,
    )?;
    compared(alloc, shelf, &shards, &survey.epochs)?;
    Ok(MergeJob { survey, shards })
}
