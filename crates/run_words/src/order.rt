//! Orders: what a call asks for, and of each command what `clap` knows of it and the order that the words behind its name give.
ghost use Rattle.std.specs.Prelude.{◌≡◌, IfOk, map, string_bytes};
ghost use Rattle.clap.specs.Words.{app_of, rows_of, found_of};
ghost use Rattle.run_words.specs.Options.{taken_by};
ghost use Rattle.run_words.specs.Orders.{job_app, job_names_of, cut_app, cut_names_of, run_app, run_of, dump_app, dump_of, gen_app, gen_of, fringe_app, fringe_of, verify_app, verify_of, bins_app, bins_of, shard_app, shard_of, merge_app, merge_of, order_after, Gives, AreNames, IsCut, IsOrder};

use crate::fault::WordsFault;
use crate::given::{all_needed, epoch_given, name_given, name_of, needed};
use crate::numbers::{number_in, part_in, piece_in, workers_in};
use crate::options::{
    bare, needed_option, needed_word, needed_words, option, parsed, with, with_work,
};
use clap::{ArgMatches, Command};
use item_list::ItemList;
use num_time::Name;
use std::alloc::{AllocError, Global};

/// What a call asks for, by its command: the name of the job's file and that of the schedule's, where there is one; the samples
/// of an epoch, where they are not those of the job's own line; how many workers share the work, and the samples of a piece of it; the name of a record file; of a generated job the seed and the
/// length in seconds; of a search for fringes how many rates lie on either side of 0, and what divides a rate to steps of a
/// sixteenth of a turn in an integration; the name of a certificate's file; that of the file of a pulse's phase; of a shard,
/// which sums a part of a job into a journal of its own, the numbers of the part's first integration and of the first one behind it;
/// and of a merge the names of the files of such journals. Integrations are numbered from 0 through the whole job.
#[derive(Debug, Drop)]
pub enum Order {
    Run {
        job: Name,
        vex: Option<Name>,
        epoch: Option<u64>,
        workers: u32,
        piece: u64,
    },
    Plain {
        job: Name,
        vex: Option<Name>,
    },
    Check {
        job: Name,
        vex: Option<Name>,
        epoch: Option<u64>,
    },
    Status {
        job: Name,
        vex: Option<Name>,
        epoch: Option<u64>,
    },
    Dump {
        file: Name,
    },
    Gen {
        seed: u64,
        seconds: u32,
        workers: u32,
        piece: u64,
    },
    Fringe {
        file: Name,
        rates: u32,
        divide: u32,
    },
    Verify {
        file: Name,
        certificate: Name,
    },
    Bins {
        job: Name,
        vex: Option<Name>,
        phase: Name,
        workers: u32,
        piece: u64,
    },
    Shard {
        job: Name,
        vex: Option<Name>,
        epoch: Option<u64>,
        workers: u32,
        piece: u64,
        from: u64,
        to: u64,
    },
    Merge {
        job: Name,
        vex: Option<Name>,
        files: ItemList<Name>,
    },
}

/// The order of a command and the words behind it.
#[tactic(auto, unfolding(crate::specs::Orders::order_after))]
pub(crate) fn order_after(
    alloc: Global,
    command: &str,
    words: &[String],
) -> Result<Order, WordsFault>
    ensures order { Gives result (order_after command.now (map string_bytes words.now)) }
    ensures is_order { IfOk result IsOrder }
{
    if command == "run" {
        run_order(alloc, words)
    } else if command == "plain" {
        let (job, vex) = job_names(alloc, "plain", words)?;
        Ok(Order::Plain { job, vex })
    } else if command == "check" {
        let ((job, vex), epoch) = cut_names(alloc, "check", words)?;
        Ok(Order::Check { job, vex, epoch })
    } else if command == "status" {
        let ((job, vex), epoch) = cut_names(alloc, "status", words)?;
        Ok(Order::Status { job, vex, epoch })
    } else if command == "dump" {
        dump_order(alloc, words)
    } else if command == "gen" {
        gen_order(alloc, words)
    } else if command == "fringe" {
        fringe_order(alloc, words)
    } else if command == "verify" {
        verify_order(alloc, words)
    } else if command == "bins" {
        bins_order(alloc, words)
    } else if command == "shard" {
        shard_order(alloc, words)
    } else if command == "merge" {
        merge_order(alloc, words)
    } else {
        Err(WordsFault::UnknownCommand)
    }
}

// ---- a command on a job, by the names of its file and of the schedule's: `plain`

/// A command on a job.
fn job_command<'a>(alloc: Global, name: &'a str) -> Result<Command<'a>, AllocError>
    ensures { IfOk result (λ command. app_of command ≡ job_app name.entry.now) }
{
    let command = with(bare(alloc, name), needed_option(alloc, "job"))?;
    with(command, option(alloc, "vex"))
}

// The names of the job's file and of its schedule's.
#[tactic(auto, unfolding(crate::specs::Orders::job_names_of))]
fn job_names_of(alloc: Global, matches: &ArgMatches) -> Result<(Name, Option<Name>), WordsFault>
    ensures names { Gives result (job_names_of (rows_of (found_of matches.now))) }
    ensures texts { IfOk result (λ names. AreNames names.0 names.1) }
{
    let job = needed(matches, "job")?;
    Ok((name_of(alloc, job)?, name_given(alloc, matches, "vex")?))
}

// The names in the words behind a command on a job.
#[tactic(auto, unfolding(crate::specs::Options::taken_by))]
fn job_names(
    alloc: Global,
    command: &str,
    words: &[String],
) -> Result<(Name, Option<Name>), WordsFault>
    ensures names { Gives result (taken_by (job_app command.now) job_names_of (map string_bytes words.now)) }
    ensures texts { IfOk result (λ names. AreNames names.0 names.1) }
{
    let matches = parsed(job_command(alloc, command)?, words)?;
    job_names_of(alloc, &matches)
}

// ---- a command on a job that may have another length of its epochs than the job's own line says: `check` and `status`

// A command on such a job.
fn cut_command<'a>(alloc: Global, name: &'a str) -> Result<Command<'a>, AllocError>
    ensures { IfOk result (λ command. app_of command ≡ cut_app name.entry.now) }
{
    let command = job_command(alloc, name)?;
    with(command, option(alloc, "epoch"))
}

// The names, and the samples of an epoch.
#[tactic(auto, unfolding(crate::specs::Orders::cut_names_of))]
fn cut_names_of(
    alloc: Global,
    matches: &ArgMatches,
) -> Result<((Name, Option<Name>), Option<u64>), WordsFault>
    ensures names { Gives result (cut_names_of (rows_of (found_of matches.now))) }
    ensures texts { IfOk result (λ x. AreNames x.0.0 x.0.1) }
    ensures cut { IfOk result (λ x. IsCut x.1) }
{
    let names = job_names_of(alloc, matches)?;
    Ok((names, epoch_given(matches)?))
}

// The names and the samples of an epoch in the words behind a command on such a job.
#[tactic(auto, unfolding(crate::specs::Options::taken_by))]
fn cut_names(
    alloc: Global,
    command: &str,
    words: &[String],
) -> Result<((Name, Option<Name>), Option<u64>), WordsFault>
    ensures names { Gives result (taken_by (cut_app command.now) cut_names_of (map string_bytes words.now)) }
    ensures texts { IfOk result (λ x. AreNames x.0.0 x.0.1) }
    ensures cut { IfOk result (λ x. IsCut x.1) }
{
    let matches = parsed(cut_command(alloc, command)?, words)?;
    cut_names_of(alloc, &matches)
}

// ---- `run`: a job as of `check`, the workers that share its work, and the samples of a piece

// The command.
fn run_command<'a>(alloc: Global) -> Result<Command<'a>, AllocError>
    ensures { IfOk result (λ command. app_of command ≡ run_app) }
{
    let command = cut_command(alloc, "run")?;
    with_work(alloc, command)
}

// Its order.
#[tactic(auto, unfolding(crate::specs::Orders::run_of))]
fn run_of(alloc: Global, matches: &ArgMatches) -> Result<Order, WordsFault>
    ensures order { Gives result (run_of (rows_of (found_of matches.now))) }
    ensures is_order { IfOk result IsOrder }
{
    let job = needed(matches, "job")?;
    let workers = needed(matches, "workers")?;
    let piece = needed(matches, "piece")?;
    let epoch = epoch_given(matches)?;
    let workers = workers_in(workers)?;
    let piece = piece_in(piece)?;
    Ok(Order::Run {
        job: name_of(alloc, job)?,
        vex: name_given(alloc, matches, "vex")?,
        epoch,
        workers,
        piece,
    })
}

// The order of the words behind `run`.
#[tactic(auto, unfolding(crate::specs::Options::taken_by))]
fn run_order(alloc: Global, words: &[String]) -> Result<Order, WordsFault>
    ensures order { Gives result (taken_by run_app run_of (map string_bytes words.now)) }
    ensures is_order { IfOk result IsOrder }
{
    let matches = parsed(run_command(alloc)?, words)?;
    run_of(alloc, &matches)
}

// ---- `dump`: a record file

// The command.
fn dump_command<'a>(alloc: Global) -> Result<Command<'a>, AllocError>
    ensures { IfOk result (λ command. app_of command ≡ dump_app) }
{
    with(bare(alloc, "dump"), needed_word(alloc, "file"))
}

// Its order.
#[tactic(auto, unfolding(crate::specs::Orders::dump_of))]
fn dump_of(alloc: Global, matches: &ArgMatches) -> Result<Order, WordsFault>
    ensures order { Gives result (dump_of (rows_of (found_of matches.now))) }
    ensures is_order { IfOk result IsOrder }
{
    let file = needed(matches, "file")?;
    Ok(Order::Dump {
        file: name_of(alloc, file)?,
    })
}

// The order of the words behind `dump`.
#[tactic(auto, unfolding(crate::specs::Options::taken_by))]
fn dump_order(alloc: Global, words: &[String]) -> Result<Order, WordsFault>
    ensures order { Gives result (taken_by dump_app dump_of (map string_bytes words.now)) }
    ensures is_order { IfOk result IsOrder }
{
    let matches = parsed(dump_command(alloc)?, words)?;
    dump_of(alloc, &matches)
}

// ---- `gen`: the seed and the seconds of a generated job, the workers that share its work, and the samples of a piece

// The command.
fn gen_command<'a>(alloc: Global) -> Result<Command<'a>, AllocError>
    ensures { IfOk result (λ command. app_of command ≡ gen_app) }
{
    let command = with(bare(alloc, "gen"), needed_option(alloc, "seed"))?;
    let command = with(command, needed_option(alloc, "seconds"))?;
    with_work(alloc, command)
}

// Its order.
#[tactic(auto, unfolding(crate::specs::Orders::gen_of))]
fn gen_of(matches: &ArgMatches) -> Result<Order, WordsFault>
    ensures order { result ≡ gen_of (rows_of (found_of matches.now)) }
    ensures is_order { IfOk result IsOrder }
{
    let seed = needed(matches, "seed")?;
    let seconds = needed(matches, "seconds")?;
    let workers = needed(matches, "workers")?;
    let piece = needed(matches, "piece")?;
    let seed = number_in(seed, 0, u64::MAX)?;
    let seconds = number_in(seconds, 1, 60)?;
    let workers = workers_in(workers)?;
    let piece = piece_in(piece)?;
    Ok(Order::Gen {
        seed,
        seconds: seconds as u32,
        workers,
        piece,
    })
}

// The order of the words behind `gen`.
#[tactic(auto, unfolding(crate::specs::Options::taken_by))]
fn gen_order(alloc: Global, words: &[String]) -> Result<Order, WordsFault>
    ensures order { Gives result (taken_by gen_app gen_of (map string_bytes words.now)) }
    ensures is_order { IfOk result IsOrder }
{
    let matches = parsed(gen_command(alloc)?, words)?;
    gen_of(&matches)
}

// ---- `fringe`: a record file, and the grid of rates over which its fringes are searched

// The command.
fn fringe_command<'a>(alloc: Global) -> Result<Command<'a>, AllocError>
    ensures { IfOk result (λ command. app_of command ≡ fringe_app) }
{
    let command = with(bare(alloc, "fringe"), needed_word(alloc, "file"))?;
    let command = with(command, needed_option(alloc, "rates"))?;
    with(command, needed_option(alloc, "divide"))
}

// Its order.
#[tactic(auto, unfolding(crate::specs::Orders::fringe_of))]
fn fringe_of(alloc: Global, matches: &ArgMatches) -> Result<Order, WordsFault>
    ensures order { Gives result (fringe_of (rows_of (found_of matches.now))) }
    ensures is_order { IfOk result IsOrder }
{
    let file = needed(matches, "file")?;
    let rates = needed(matches, "rates")?;
    let divide = needed(matches, "divide")?;
    let rates = number_in(rates, 0, 4096)?;
    let divide = number_in(divide, 1, 65_536)?;
    Ok(Order::Fringe {
        file: name_of(alloc, file)?,
        rates: rates as u32,
        divide: divide as u32,
    })
}

// The order of the words behind `fringe`.
#[tactic(auto, unfolding(crate::specs::Options::taken_by))]
fn fringe_order(alloc: Global, words: &[String]) -> Result<Order, WordsFault>
    ensures order { Gives result (taken_by fringe_app fringe_of (map string_bytes words.now)) }
    ensures is_order { IfOk result IsOrder }
{
    let matches = parsed(fringe_command(alloc)?, words)?;
    fringe_of(alloc, &matches)
}

// ---- `verify`: a record file, and the certificate of a search of its fringes

// The command.
fn verify_command<'a>(alloc: Global) -> Result<Command<'a>, AllocError>
    ensures { IfOk result (λ command. app_of command ≡ verify_app) }
{
    let command = with(bare(alloc, "verify"), needed_word(alloc, "file"))?;
    with(command, needed_word(alloc, "certificate"))
}

// Its order.
#[tactic(auto, unfolding(crate::specs::Orders::verify_of))]
fn verify_of(alloc: Global, matches: &ArgMatches) -> Result<Order, WordsFault>
    ensures order { Gives result (verify_of (rows_of (found_of matches.now))) }
    ensures is_order { IfOk result IsOrder }
{
    let file = needed(matches, "file")?;
    let certificate = needed(matches, "certificate")?;
    Ok(Order::Verify {
        file: name_of(alloc, file)?,
        certificate: name_of(alloc, certificate)?,
    })
}

// The order of the words behind `verify`.
#[tactic(auto, unfolding(crate::specs::Options::taken_by))]
fn verify_order(alloc: Global, words: &[String]) -> Result<Order, WordsFault>
    ensures order { Gives result (taken_by verify_app verify_of (map string_bytes words.now)) }
    ensures is_order { IfOk result IsOrder }
{
    let matches = parsed(verify_command(alloc)?, words)?;
    verify_of(alloc, &matches)
}

// ---- `bins`: a job, the phase of a pulse, the workers that share its work, and the samples of a piece

// The command.
fn bins_command<'a>(alloc: Global) -> Result<Command<'a>, AllocError>
    ensures { IfOk result (λ command. app_of command ≡ bins_app) }
{
    let command = job_command(alloc, "bins")?;
    let command = with(command, needed_option(alloc, "phase"))?;
    with_work(alloc, command)
}

// Its order.
#[tactic(auto, unfolding(crate::specs::Orders::bins_of))]
fn bins_of(alloc: Global, matches: &ArgMatches) -> Result<Order, WordsFault>
    ensures order { Gives result (bins_of (rows_of (found_of matches.now))) }
    ensures is_order { IfOk result IsOrder }
{
    let job = needed(matches, "job")?;
    let phase = needed(matches, "phase")?;
    let workers = needed(matches, "workers")?;
    let piece = needed(matches, "piece")?;
    let workers = workers_in(workers)?;
    let piece = piece_in(piece)?;
    Ok(Order::Bins {
        job: name_of(alloc, job)?,
        vex: name_given(alloc, matches, "vex")?,
        phase: name_of(alloc, phase)?,
        workers,
        piece,
    })
}

// The order of the words behind `bins`.
#[tactic(auto, unfolding(crate::specs::Options::taken_by))]
fn bins_order(alloc: Global, words: &[String]) -> Result<Order, WordsFault>
    ensures order { Gives result (taken_by bins_app bins_of (map string_bytes words.now)) }
    ensures is_order { IfOk result IsOrder }
{
    let matches = parsed(bins_command(alloc)?, words)?;
    bins_of(alloc, &matches)
}

// ---- `shard`: a job as of `run`, and the numbers of the first integration of a part and of the first one behind it

// The command.
fn shard_command<'a>(alloc: Global) -> Result<Command<'a>, AllocError>
    ensures { IfOk result (λ command. app_of command ≡ shard_app) }
{
    let command = with_work(alloc, cut_command(alloc, "shard")?)?;
    let command = with(command, needed_option(alloc, "from"))?;
    with(command, needed_option(alloc, "to"))
}

// Its order.
#[tactic(auto, unfolding(crate::specs::Orders::shard_of))]
fn shard_of(alloc: Global, matches: &ArgMatches) -> Result<Order, WordsFault>
    ensures order { Gives result (shard_of (rows_of (found_of matches.now))) }
    ensures is_order { IfOk result IsOrder }
{
    let job = needed(matches, "job")?;
    let workers = needed(matches, "workers")?;
    let piece = needed(matches, "piece")?;
    let from = needed(matches, "from")?;
    let to = needed(matches, "to")?;
    let epoch = epoch_given(matches)?;
    let workers = workers_in(workers)?;
    let piece = piece_in(piece)?;
    let (from, to) = part_in(from, to)?;
    Ok(Order::Shard {
        job: name_of(alloc, job)?,
        vex: name_given(alloc, matches, "vex")?,
        epoch,
        workers,
        piece,
        from,
        to,
    })
}

// The order of the words behind `shard`.
#[tactic(auto, unfolding(crate::specs::Options::taken_by))]
fn shard_order(alloc: Global, words: &[String]) -> Result<Order, WordsFault>
    ensures order { Gives result (taken_by shard_app shard_of (map string_bytes words.now)) }
    ensures is_order { IfOk result IsOrder }
{
    let matches = parsed(shard_command(alloc)?, words)?;
    shard_of(alloc, &matches)
}

// ---- `merge`: a job as of `plain`, and the files of the journals of its parts

// The command.
fn merge_command<'a>(alloc: Global) -> Result<Command<'a>, AllocError>
    ensures { IfOk result (λ command. app_of command ≡ merge_app) }
{
    let command = job_command(alloc, "merge")?;
    with(command, needed_words(alloc, "files"))
}

// Its order.
#[tactic(auto, unfolding(crate::specs::Orders::merge_of))]
fn merge_of(alloc: Global, matches: &ArgMatches) -> Result<Order, WordsFault>
    ensures order { Gives result (merge_of (rows_of (found_of matches.now))) }
    ensures is_order { IfOk result IsOrder }
{
    let (job, vex) = job_names_of(alloc, matches)?;
    let files = all_needed(alloc, matches, "files")?;
    Ok(Order::Merge { job, vex, files })
}

// The order of the words behind `merge`.
#[tactic(auto, unfolding(crate::specs::Options::taken_by))]
fn merge_order(alloc: Global, words: &[String]) -> Result<Order, WordsFault>
    ensures order { Gives result (taken_by merge_app merge_of (map string_bytes words.now)) }
    ensures is_order { IfOk result IsOrder }
{
    let matches = parsed(merge_command(alloc)?, words)?;
    merge_of(alloc, &matches)
}
