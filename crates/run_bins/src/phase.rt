//! The text of phases.
ghost use Rattle.std.specs.Prelude.{◌≡◌, ◌<◌, ◌^◌, None, Ok, OnOk, IfOk, IfErr, length};
ghost use Rattle.std.specs.Str.{IsUtf8};
ghost use Rattle.dev_traits.specs.Told.{WhereTold};
ghost use Rattle.pulsar_bins.specs.{Answer.{bins_in}, Scans.{no_phase}};
ghost use Rattle.run_notes.specs.{Answers.{bins_answer}, Refusals.{IsCause}, Counted.{CountsReads}};
ghost use Rattle.run_ready.specs.{Due.{IsDue}, Stage.{IsOfFiles, IsOfTexts}, Steps.{Is, answered}};
ghost use Rattle.run_bins.specs.Outcome.{BinsUnder, uncovered, scan_name};

use dev_traits::Shelf;
use job_plan::Plan0;
use num_time::Name;
use pulsar_bins::{Bins, BinsKind, covers, read_bins};
use run_notes::{Due, Measure, Refusal};
use run_ready::load_text;
use std::alloc::{AllocError, Global};

// The greatest length of a text of phases, in bytes.
const MOST_BYTES: u64 = 65_536;

// The bins of the text of phases under a name, in which each sample of a plan has a phase.
pub(crate) fn load_bins<F: Shelf>(
    alloc: Global,
    phase: &Name,
    plan: &Plan0,
    shelf: &mut F,
) -> Result<Bins, Refusal>
    requires text { IsUtf8 phase.now }
    ensures same { F.told shelf.new ≡ F.told shelf.old }
    ensures bins { IfOk result (λ bins. WhereTold (F.told shelf.old) (λ files. BinsUnder files phase.now plan.now (Ok bins))) }
    ensures covered { IfOk result (λ bins. no_phase bins plan.now ≡ None) }
    ensures cause { IfErr result (λ r. WhereTold (F.told shelf.old) (λ files. IsCause r (BinsUnder files phase.now plan.now))) }
    ensures stage { IfErr result IsOfFiles }
    ensures counts { CountsReads (F.faults shelf.old) (F.faults shelf.new) result }
{
    let text = load_text(alloc, shelf, phase, Measure::Phase, MOST_BYTES)?;
    let bins = bins_of(alloc, &text)?;
    check_phase(alloc, &bins, plan)?;
    Ok(bins)
}

// The bins of a text of phases.
fn bins_of(alloc: Global, text: &[u8]) -> Result<Bins, Refusal>
    requires { length text.now < 2 ^ 32 }
    ensures bins { IfOk result (λ bins. Is (answered bins_answer (bins_in text.now)) (Ok bins)) }
    ensures cause { IfErr result (λ r. IsCause r (Is (answered bins_answer (bins_in text.now)))) }
    ensures stage { IfErr result IsOfTexts }
{
    match read_bins(alloc, text) {
        Ok(bins) => Ok(bins),
        Err(fault) => match fault.kind {
            BinsKind::Memory => Err(Refusal::Memory),
            _ => Err(Refusal::Due(Due::Bins(fault))),
        },
    }
}

// Whether each sample of a plan has a phase.
fn check_phase(alloc: Global, bins: &Bins, plan: &Plan0) -> Result<(), Refusal>
    ensures covered { OnOk result (no_phase bins.now plan.now ≡ None) }
    ensures due { IfErr result (λ r. IsDue r (uncovered plan.now bins.now)) }
    ensures stage { IfErr result IsOfTexts }
{
    match covers(bins, plan) {
        Ok(()) => Ok(()),
        Err(fault) => {
            let scan = name_of(alloc, plan, fault.scan)?;
            Err(Refusal::Due(Due::NoPhase(scan)))
        }
    }
}

// The name of the scan with this number.
fn name_of(alloc: Global, plan: &Plan0, number: usize) -> Result<Name, AllocError>
    requires { number < length plan.now.scans }
    ensures { IfOk result (λ name. name ≡ scan_name plan.now number) }
{
    let within = plan.plan();
    within.scans.items()[number].name.copy(alloc)
}
