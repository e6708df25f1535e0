//! The record file of a job, by the journals of its parts.
ghost use Rattle.std.specs.Prelude.{◌≡◌, ℕ, List, IfErr};
ghost use Rattle.std.specs.List.{All};
ghost use Rattle.dev_traits.specs.Told.{WhereTold};
ghost use Rattle.journal_image.specs.Image.{KeptEpoch};
ghost use Rattle.vis_writer.specs.Writes.{Appended};
ghost use Rattle.shard_merge.specs.{Merged.{merged}, Reading.{IsListed, AreReadFrom}};
ghost use Rattle.run_notes.specs.{Refusals.{WhereMemory}, Commands.{IsOfOutput}, Counted.{CountsReads, CountsWrites}};
ghost use Rattle.run_merge.specs.Refused.{output_refusal};

use crate::job::MergeJob;
use dev_traits::{Shelf, Sink};
use run_notes::Refusal;
use shard_merge::{OutputFault, write_merged};
use std::alloc::Global;

// The refusal where the record file is not whole.
fn output_refusal(fault: OutputFault) -> Refusal
    ensures { result ≡ output_refusal fault }
{
    match fault {
        OutputFault::Memory => Refusal::Memory,
        OutputFault::Read => Refusal::Read,
        OutputFault::Write => Refusal::Write,
    }
}

// Appends the record file of a job.
pub(crate) fn written<F: Shelf, S: Sink>(
    alloc: Global,
    merge: &MergeJob,
    shelf: &mut F,
    out: &mut S,
) -> Result<(), Refusal>
    requires listed { All (IsListed merge.now.survey.epochs) merge.now.shards.items }
    ensures same { F.told shelf.new ≡ F.told shelf.old }
    ensures written { WhereTold (F.told shelf.old) (λ files. (id : List ℕ) (keeps : List (List KeptEpoch))
        → AreReadFrom files id merge.now.survey.epochs merge.now.shards.items keeps
        → Appended (S.told out.old) (merged merge.now.survey.plan keeps) (S.told out.new) result) }
    ensures unwritten { IfErr result (λ r. WhereMemory r (S.told out.new ≡ S.told out.old)) }
    ensures stage { IfErr result IsOfOutput }
    ensures reads { CountsReads (F.faults shelf.old) (F.faults shelf.new) result }
    ensures writes { CountsWrites (S.faults out.old) (S.faults out.new) result }
{
    let survey = &merge.survey;
    match write_merged(
        alloc,
        shelf,
        &merge.shards,
        &survey.plan,
        &survey.epochs,
        out,
    ) {
        Ok(()) => Ok(()),
        Err(fault) => Err(output_refusal(fault)),
    }
}
