//! The journals of a job's parts, compared.
ghost use Rattle.std.specs.Prelude.{◌≡◌, ℕ, List, None, option_map, IfErr, OnOk};
ghost use Rattle.std.specs.List.{All};
ghost use Rattle.dev_traits.specs.Told.{WhereTold};
ghost use Rattle.journal_image.specs.Image.{KeptEpoch};
ghost use Rattle.shard_merge.specs.{Verdict.{verdict}, Reading.{IsListed, AreReadFrom}};
ghost use Rattle.run_notes.specs.Counted.{CountsReads};
ghost use Rattle.run_ready.specs.{Due.{IsDue}, Stage.{IsOfFiles}};
ghost use Rattle.run_merge.specs.{Outcome.{merge_answer}, Refused.{merge_refusal}};

use dev_traits::Shelf;
use piece_plan::JobPlan;
use run_notes::{Due, Refusal};
use shard_merge::{MergeFault, Shard, compare};
use std::alloc::Global;

// The refusal of journals that do not make a job together.
fn merge_refusal(fault: MergeFault) -> Refusal
    ensures { result ≡ merge_refusal fault }
{
    match fault {
        MergeFault::Read => Refusal::Read,
        MergeFault::Uncovered(integration) => Refusal::Due(Due::Uncovered(integration)),
        MergeFault::Differs(d) => Refusal::Due(Due::Differs {
            integration: d.integration,
            group: d.group,
            lag: d.lag,
            first: d.first,
            other: d.other,
        }),
        MergeFault::Memory => Refusal::Memory,
    }
}

// Whether journals make their job together.
pub(crate) fn compared<F: Shelf>(
    alloc: Global,
    shelf: &mut F,
    shards: &[Shard],
    plan: &JobPlan,
) -> Result<(), Refusal>
    requires listed { All (IsListed plan.now) shards.now }
    ensures same { F.told shelf.new ≡ F.told shelf.old }
    ensures together { OnOk result (WhereTold (F.told shelf.old) (λ files. (id : List ℕ) (keeps : List (List KeptEpoch))
        → AreReadFrom files id plan.now shards.now keeps → verdict plan.now keeps ≡ None)) }
    ensures due { IfErr result (λ r. WhereTold (F.told shelf.old) (λ files. (id : List ℕ) (keeps : List (List KeptEpoch))
        → AreReadFrom files id plan.now shards.now keeps → IsDue r (option_map merge_answer (verdict plan.now keeps)))) }
    ensures stage { IfErr result IsOfFiles }
    ensures counts { CountsReads (F.faults shelf.old) (F.faults shelf.new) result }
{
    match compare(alloc, shelf, shards, plan) {
        Ok(()) => Ok(()),
        Err(fault) => Err(merge_refusal(fault)),
    }
}
