//! A part of a job that is summed into a journal of its own.
ghost use Rattle.std.specs.Prelude.{◌≡◌, ◌<◌, IfErr, IfSome, Ok, option_copied};
ghost use Rattle.std.specs.Str.{IsUtf8};
ghost use Rattle.dev_traits.specs.Told.{WhereTold};
ghost use Rattle.run_notes.specs.Counted.{CountsReadsBeside, CountsWrites};
ghost use Rattle.run_words.specs.{declared.order.Order.TheVariants.{Shard}, Orders.{IsCut, IsWork}};
ghost use Rattle.vlbi_core.specs.Steps.{OutcomeFrom, IsBehindWords, IsFullFor, CountsJournalOr, GoesRanged, Does, Leaves};

use crate::check::written;
use crate::engine::resume_part;
use dev_traits::{Disk, Gate, Shelf, Sink};
use num_time::Name;
use plan_places::laws::{no_more_are_left_than_all, walks_end};
use run_notes::Refusal;
use run_part::prepare_part;
use run_summary::write_shard;
use std::alloc::Global;
use std::thread::Threads;

/// Sums what the journal of a part of a job does not keep yet, in epochs of `epoch` samples or those of the job's own line, with `workers`
/// threads and pieces of at most `piece` samples, and then appends a line that says so. The part are the integrations with a number from
/// `from` up to, not including, `to`, counted from 0 through all scans.
pub fn shard_job<R: Threads + Sync, F: Shelf + Send, D: Disk + Send, S: Sink, G: Gate + Sync>(
    rt: &R,
    alloc: Global,
    job: &Name,
    vex: Option<&Name>,
    epoch: Option<u64>,
    workers: u32,
    piece: u64,
    from: u64,
    to: u64,
    shelf: &mut F,
    journal: &mut D,
    out: &mut S,
    gate: &G,
) -> Result<(), Refusal>
    requires job_text { IsUtf8 job.now }
    requires vex_text { IfSome vex (λ name. IsUtf8 name.now) }
    requires cut { IsCut epoch }
    requires work { IsWork workers piece }
    requires some { from < to }
    ensures same { F.told shelf.new ≡ F.told shelf.old }
    ensures does { WhereTold (F.told shelf.old) (λ files. Does (Ok (Shard job.now (option_copied vex.entry) epoch workers piece from to)) files
        D.seen D.moment D.may_leave journal.old journal.new (S.told out.old) (S.told out.new) result) }
    ensures ranged { WhereTold (F.told shelf.old) (λ files. GoesRanged (OutcomeFrom (Ok (Shard job.now (option_copied vex.entry) epoch workers piece from to)) files)
        D.seen D.moment D.may_leave journal.old journal.new) }
    ensures leaves { Leaves (Ok (Shard job.now (option_copied vex.entry) epoch workers piece from to)) D.seen D.moment D.may_leave journal.old journal.new
        (S.told out.old) (S.told out.new) result }
    ensures stage { IfErr result IsBehindWords }
    ensures reads { CountsReadsBeside (F.faults shelf.old) (F.faults shelf.new) result }
    ensures journal { CountsJournalOr (WhereTold (F.told shelf.old) (λ files. IsFullFor
        (OutcomeFrom (Ok (Shard job.now (option_copied vex.entry) epoch workers piece from to)) files) files (D.seen journal.old) (D.seen journal.new)))
        (D.faults journal.old) (D.faults journal.new) result }
    ensures writes { CountsWrites (S.faults out.old) (S.faults out.new) result }
{
    walks_end();
    no_more_are_left_than_all();
    let part = prepare_part(alloc, job, vex, epoch, from, to, shelf)?;
    let _kept = resume_part(
        rt,
        alloc,
        &part.ready,
        &part.plan,
        &part.identity,
        shelf,
        journal,
        workers,
        piece,
        gate,
    )?;
    written(write_shard(from, to, out))
}
