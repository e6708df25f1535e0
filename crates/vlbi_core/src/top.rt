//! The top call.
ghost use Rattle.std.specs.Prelude.{◌≡◌, ◌≢◌, ◌⊎◌, ◌≤◌, Ok, IsErr, IfErr, false};
ghost use Rattle.dev_traits.specs.{Fault.{HasRisen}, Told.{WhereTold}};
ghost use Rattle.checkpoint_journal.specs.Runs.{Looks};
ghost use Rattle.run_words.specs.Orders.{IsOrder};
ghost use Rattle.run_notes.specs.{Refusals.{WhereMemory}, Counted.{CountsReads, CountsReadsBeside, CountsJournal, CountsWrites}};
ghost use Rattle.vlbi_core.specs.{Calls.{texts_of, order_in, is_writer, OutcomeOf}, Run.{IsVerdictStatus, IsDueStatus, IsStatus, IsVerdict, IsAppended, IsNoteOf}};
ghost use Rattle.vlbi_core.specs.Restart.{Restarts, AppendsOutput, IsWriterOf, IsNoWriter, IsGenOf, IsMergeOf};
ghost use Rattle.vlbi_core.specs.Steps.{OutcomeFrom, IsWorded, IsBehindWords, IsShort, IsUnnumbered, IsFullFor, CountsJournalOr, IsOfSample, Goes, GoesRanged, Does, Leaves};

use crate::check::check_job;
use crate::correlation::correlate_job;
use crate::laws::one_task;
use crate::order::read_order;
use crate::plain::plain_job;
use crate::sample::total_sample;
use crate::shard::shard_job;
use crate::status::journal_status;
use dev_traits::{Disk, Gate, Shelf, Sink};
use run_bins::write_bins;
use run_dump::show_records;
use run_fringe::{verify_peaks, write_peaks};
use run_merge::write_merge;
use run_notes::{Refusal, status, write_note};
use run_words::Order;
use std::alloc::Global;
use std::thread::Threads;

/// Does what the words ask for, and answers the status. `words` are the command and what follows it; the files are read from
/// `shelf`, records and summaries go to `out`, and a refusal's line to `notes`. `journal` is the file in which a call of `run`
/// keeps each epoch of a job once it is summed, and one of `shard` each of a part of a job, so that a later call goes on from
/// there; `status` reads it, and no other command uses it. `gate` is told each piece before a worker of `run`, `shard`, `gen` or
/// `bins` sums it; no clause speaks of it.
///
/// | status | |
/// |---|---|
/// | 0 | done |
/// | 1 | out of memory |
/// | 2 | the words are not a command's |
/// | 3 | the schedule is not accepted |
/// | 4 | the job is not accepted, or does not go with the schedule |
/// | 5 | a station's recording has slots, and none agrees with its shape; or the file that is shown is no record file |
/// | 6 | a quantity is past its greatest |
/// | 7 | a read failed |
/// | 8 | the journal failed, or is full |
/// | 9 | the output failed |
/// | 10 | the journal is another job's, or of another part |
/// | 11 | a named file is not there |
/// | 12 | the text of phases is not accepted, or a scan has a sample without a phase |
/// | 13 | a text is no right certificate of the record file |
/// | 14 | the journals that are merged are not those of parts of the job, or do not make it together |
pub fn run<R: Threads + Sync, F: Shelf + Send, D: Disk + Send, S: Sink, N: Sink, G: Gate + Sync>(
    rt: &R,
    alloc: Global,
    words: &[String],
    shelf: &mut F,
    journal: &mut D,
    out: &mut S,
    notes: &mut N,
    gate: &G,
) -> u8
    ensures known { IsStatus result }

    // When each status comes, where the shelf tells its files.
    ensures verdict { WhereTold (F.told shelf.old) (λ files. IsVerdict (OutcomeOf (texts_of words.now) files) files (D.seen journal.old) result
        (HasRisen (F.faults shelf.old) (F.faults shelf.new)) (HasRisen (D.faults journal.old) (D.faults journal.new)) (HasRisen (S.faults out.old) (S.faults out.new))) }
    ensures words { result ≡ 2 → IsErr (order_in (texts_of words.now)) }
    ensures wordless { IsErr (order_in (texts_of words.now)) → (result ≡ 2) ⊎ (result ≡ 1) }
    ensures generated { IsGenOf (order_in (texts_of words.now)) → (result ≡ 0) ⊎ ((result ≡ 1) ⊎ (result ≡ 9)) }

    // What is appended: with the statuses of what is wrong nothing, whether the devices tell their content or not, and of `run`
    // and `shard` nothing before all is summed, and of `merge` nothing before all memory is taken.
    ensures nothing { IsDueStatus result → S.told out.new ≡ S.told out.old }
    ensures appended { WhereTold (F.told shelf.old) (λ files. IsAppended (OutcomeOf (texts_of words.now) files) files
        (D.seen journal.old) (D.seen journal.new) result (S.told out.old) (S.told out.new)) }
    ensures whole { IsWriterOf (order_in (texts_of words.now)) → (result ≡ 1) ⊎ (result ≡ 7) → S.told out.new ≡ S.told out.old }
    ensures unwritten { IsMergeOf (order_in (texts_of words.now)) → result ≡ 1 → S.told out.new ≡ S.told out.old }

    // The headline: a call of `run` or `shard` that continues its job, or its part, keeps every image of the journal honest, at every moment, keeps
    // what each image keeps, and with status 0 appends the record file of the direct sums, or the line of the part.
    ensures restart { WhereTold (F.told shelf.old) (λ files. Restarts (OutcomeOf (texts_of words.now) files) files result
        D.moment D.may_leave journal.old journal.new) }
    ensures headline { WhereTold (F.told shelf.old) (λ files. WhereTold (D.seen journal.old) (λ image. AppendsOutput
        (OutcomeOf (texts_of words.now) files) files (D.may_leave journal.old (D.moment journal.old)) result (S.told out.old) (S.told out.new))) }

    // A call gives the journal an image that it did not have only where words and files come to a call of `run` or `shard`, and what is
    // read of the journal is blank or of the form of the job, or of its part. No other call does, nor does what is wrong with words and files.
    ensures goes { WhereTold (F.told shelf.old) (λ files. Goes (OutcomeOf (texts_of words.now) files) files
        D.seen D.moment D.may_leave journal.old journal.new) }
    ensures untouched { IsNoWriter (order_in (texts_of words.now)) → Looks D.seen D.moment D.may_leave journal.old journal.new }
    ensures unopened { IsVerdictStatus result → Looks D.seen D.moment D.may_leave journal.old journal.new }
    ensures left { result ≡ 10 → D.seen journal.new ≡ D.seen journal.old }

    // The shelf tells what it told.
    ensures same { F.told shelf.new ≡ F.told shelf.old }

    // Statuses 7, 8 and 9: only where a count rose, and else it stays. `run` and `shard` read while they write the journal: where both counts
    // rose, the status is that of the journal. That status comes of such a call without a fault too, where a journal that had 2^62
    // bytes or more on entry is full.
    ensures read { result ≡ 7 → HasRisen (F.faults shelf.old) (F.faults shelf.new) }
    ensures no_read { result ≢ 7 → (result ≢ 8) ⊎ IsNoWriter (order_in (texts_of words.now)) → F.faults shelf.new ≡ F.faults shelf.old }
    ensures no_fall { result ≢ 7 → F.faults shelf.old ≤ F.faults shelf.new }
    ensures kept { result ≡ 8 → HasRisen (D.faults journal.old) (D.faults journal.new) ⊎ ((D.faults journal.new ≡ D.faults journal.old)
        × WhereTold (F.told shelf.old) (λ files. IsFullFor (OutcomeOf (texts_of words.now) files) files (D.seen journal.old) (D.seen journal.new))) }
    ensures kept_by_others { IsNoWriter (order_in (texts_of words.now)) → result ≡ 8 → HasRisen (D.faults journal.old) (D.faults journal.new) }
    ensures no_kept { result ≢ 8 → D.faults journal.new ≡ D.faults journal.old }
    ensures write { result ≡ 9 → HasRisen (S.faults out.old) (S.faults out.new) }
    ensures no_write { result ≢ 9 → S.faults out.new ≡ S.faults out.old }

    // The note: the line of the status, or where the notes failed a first part of it. That of a journal's fault says how many
    // epochs are kept.
    ensures note { IsNoteOf (order_in (texts_of words.now)) (F.told shelf.old) result (D.may_leave journal.new (D.moment journal.new))
        (D.seen journal.old) (D.seen journal.new) (S.told out.old) (S.told out.new)
        (N.told notes.old) (N.told notes.new) (HasRisen (N.faults notes.old) (N.faults notes.new)) }
{
    one_task();
    match call(rt, alloc, words, shelf, journal, out, gate) {
        Ok(()) => 0,
        Err(refusal) => {
            is_short(&refusal);
            let _ = write_note(&refusal, notes);
            status(&refusal)
        }
    }
}

// A number of epochs that a refusal names has 64 bits.
fn is_short(refusal: &Refusal)
    ensures { IsShort refusal.now }
{
    match refusal {
        Refusal::Journal(Some(kept)) => {
            let _kept = *kept;
        }
        Refusal::Journal(None) => {}
        Refusal::Memory => {}
        Refusal::Words(_) => {}
        Refusal::Due(_) => {}
        Refusal::Other(_) => {}
        Refusal::Read => {}
        Refusal::Write => {}
    }
}

// Does what the words ask for.
fn call<R: Threads + Sync, F: Shelf + Send, D: Disk + Send, S: Sink, G: Gate + Sync>(
    rt: &R,
    alloc: Global,
    words: &[String],
    shelf: &mut F,
    journal: &mut D,
    out: &mut S,
    gate: &G,
) -> Result<(), Refusal>
    ensures same { F.told shelf.new ≡ F.told shelf.old }
    ensures does { WhereTold (F.told shelf.old) (λ files. Does (order_in (texts_of words.now)) files D.seen D.moment D.may_leave journal.old journal.new (S.told out.old) (S.told out.new) result) }
    ensures ranged { WhereTold (F.told shelf.old) (λ files. GoesRanged (OutcomeOf (texts_of words.now) files) D.seen D.moment D.may_leave journal.old journal.new) }
    ensures leaves { Leaves (order_in (texts_of words.now)) D.seen D.moment D.may_leave journal.old journal.new (S.told out.old) (S.told out.new) result }
    ensures words { IsWorded (order_in (texts_of words.now)) result }
    ensures unnumbered { IsNoWriter (order_in (texts_of words.now)) → IfErr result IsUnnumbered }
    ensures generated { IsGenOf (order_in (texts_of words.now)) → IfErr result IsOfSample }
    ensures unwritten { IsMergeOf (order_in (texts_of words.now)) → IfErr result (λ r. WhereMemory r (S.told out.new ≡ S.told out.old)) }
    ensures reads { CountsReadsBeside (F.faults shelf.old) (F.faults shelf.new) result }
    ensures alone { IsNoWriter (order_in (texts_of words.now)) → CountsReads (F.faults shelf.old) (F.faults shelf.new) result }
    ensures journal { CountsJournalOr (WhereTold (F.told shelf.old) (λ files. IsFullFor (OutcomeOf (texts_of words.now) files) files
        (D.seen journal.old) (D.seen journal.new))) (D.faults journal.old) (D.faults journal.new) result }
    ensures journal_alone { IsNoWriter (order_in (texts_of words.now)) → CountsJournal (D.faults journal.old) (D.faults journal.new) result }
    ensures writes { CountsWrites (S.faults out.old) (S.faults out.new) result }
{
    let order = read_order(alloc, words)?;
    command(rt, alloc, &order, shelf, journal, out, gate)
}

// Does what an order asks for.
fn command<R: Threads + Sync, F: Shelf + Send, D: Disk + Send, S: Sink, G: Gate + Sync>(
    rt: &R,
    alloc: Global,
    order: &Order,
    shelf: &mut F,
    journal: &mut D,
    out: &mut S,
    gate: &G,
) -> Result<(), Refusal>
    requires { IsOrder order.now }
    ensures same { F.told shelf.new ≡ F.told shelf.old }
    ensures does { WhereTold (F.told shelf.old) (λ files. Does (Ok order.now) files D.seen D.moment D.may_leave journal.old journal.new (S.told out.old) (S.told out.new) result) }
    ensures ranged { WhereTold (F.told shelf.old) (λ files. GoesRanged (OutcomeFrom (Ok order.now) files) D.seen D.moment D.may_leave journal.old journal.new) }
    ensures leaves { Leaves (Ok order.now) D.seen D.moment D.may_leave journal.old journal.new (S.told out.old) (S.told out.new) result }
    ensures stage { IfErr result IsBehindWords }
    ensures unnumbered { is_writer order.now ≡ false → IfErr result IsUnnumbered }
    ensures generated { IsGenOf (Ok order.now) → IfErr result IsOfSample }
    ensures unwritten { IsMergeOf (Ok order.now) → IfErr result (λ r. WhereMemory r (S.told out.new ≡ S.told out.old)) }
    ensures reads { CountsReadsBeside (F.faults shelf.old) (F.faults shelf.new) result }
    ensures alone { is_writer order.now ≡ false → CountsReads (F.faults shelf.old) (F.faults shelf.new) result }
    ensures journal { CountsJournalOr (WhereTold (F.told shelf.old) (λ files. IsFullFor (OutcomeFrom (Ok order.now) files) files
        (D.seen journal.old) (D.seen journal.new))) (D.faults journal.old) (D.faults journal.new) result }
    ensures journal_alone { is_writer order.now ≡ false → CountsJournal (D.faults journal.old) (D.faults journal.new) result }
    ensures writes { CountsWrites (S.faults out.old) (S.faults out.new) result }
{
    match order {
        Order::Run {
            job,
            vex,
            epoch,
            workers,
            piece,
        } => correlate_job(
            rt,
            alloc,
            job,
            vex.as_ref(),
            *epoch,
            *workers,
            *piece,
            shelf,
            journal,
            out,
            gate,
        ),
        Order::Shard {
            job,
            vex,
            epoch,
            workers,
            piece,
            from,
            to,
        } => shard_job(
            rt,
            alloc,
            job,
            vex.as_ref(),
            *epoch,
            *workers,
            *piece,
            *from,
            *to,
            shelf,
            journal,
            out,
            gate,
        ),
        Order::Plain { job, vex } => plain_job(alloc, job, vex.as_ref(), shelf, out),
        Order::Check { job, vex, epoch } => {
            check_job(alloc, job, vex.as_ref(), *epoch, shelf, out)
        }
        Order::Status { job, vex, epoch } => {
            journal_status(alloc, job, vex.as_ref(), *epoch, shelf, journal, out)
        }
        Order::Dump { file } => show_records(alloc, file, shelf, out),
        Order::Gen {
            seed,
            seconds,
            workers,
            piece,
        } => total_sample(rt, alloc, *seed, *seconds, *workers, *piece, out, gate),
        Order::Fringe {
            file,
            rates,
            divide,
        } => write_peaks(alloc, file, *rates, *divide, shelf, out),
        Order::Verify { file, certificate } => verify_peaks(alloc, file, certificate, shelf, out),
        Order::Bins {
            job,
            vex,
            phase,
            workers,
            piece,
        } => write_bins(
            rt,
            alloc,
            job,
            vex.as_ref(),
            phase,
            *workers,
            *piece,
            shelf,
            out,
            gate,
        ),
        Order::Merge { job, vex, files } => {
            write_merge(alloc, job, vex.as_ref(), files, shelf, out)
        }
    }
}
