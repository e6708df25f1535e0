//! The cells of a job by the bins of a pulse.
ghost use Rattle.std.specs.Prelude.{◌≡◌, ◌≤◌, IfErr, IfSome, option_copied};
ghost use Rattle.std.specs.Str.{IsUtf8};
ghost use Rattle.dev_traits.specs.Told.{WhereTold};
ghost use Rattle.run_notes.specs.{Refusals.{WhereVerdict}, Commands.{Tells, IsOfFilesOrOutput}, Counted.{CountsReads, CountsWrites}};
ghost use Rattle.run_bins.specs.{Texts.{bin_output}, Outcome.{BinsOf}};

use crate::load::load_job;
use crate::writer::write_job;
use dev_traits::{Gate, Shelf, Sink};
use num_time::Name;
use run_notes::Refusal;
use std::alloc::Global;
use std::thread::Threads;

/// Correlates a job by the bins of a pulse, whose text of phases has this name, and appends the text of the cells. The job comes
/// first with its schedule, then the text of phases, then the recordings; each integration is summed by `workers` threads, 1 to 64, in
/// pieces of at most `piece` samples, 64 to 4,194,304, and its records are appended before the next one is summed.
pub fn write_bins<R: Threads + Sync, F: Shelf + Send, S: Sink, G: Gate + Sync>(
    rt: &R,
    alloc: Global,
    job: &Name,
    vex: Option<&Name>,
    phase: &Name,
    workers: u32,
    piece: u64,
    shelf: &mut F,
    out: &mut S,
    gate: &G,
) -> Result<(), Refusal>
    requires job_text { IsUtf8 job.now }
    requires vex_text { IfSome vex (λ name. IsUtf8 name.now) }
    requires phase_text { IsUtf8 phase.now }
    requires workers { (1 ≤ workers) × (workers ≤ 64) }
    requires piece { (64 ≤ piece) × (piece ≤ 4194304) }
    ensures same { F.told shelf.new ≡ F.told shelf.old }
    ensures tells { WhereTold (F.told shelf.old) (λ files. Tells (BinsOf files job.now (option_copied vex.entry) phase.now) (λ x. bin_output x files)
        (S.told out.old) (S.told out.new) result) }
    ensures nothing { IfErr result (λ r. WhereVerdict r (S.told out.new ≡ S.told out.old)) }
    ensures stage { IfErr result IsOfFilesOrOutput }
    ensures reads { CountsReads (F.faults shelf.old) (F.faults shelf.new) result }
    ensures writes { CountsWrites (S.faults out.old) (S.faults out.new) result }
{
    let binned = load_job(alloc, job, vex, phase, shelf)?;
    write_job(rt, alloc, &binned, workers, piece, shelf, out, gate)
}
