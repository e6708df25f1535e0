//! Commands as `clap` knows them, by their options and words, and what it makes of the words behind a command's name.
ghost use Rattle.std.specs.Prelude.{◌≡◌, IfOk, map, string_bytes, true, false};
ghost use Rattle.clap.specs.Words.{app_of, rule_of, with_rule, is_simple_and_free};
ghost use Rattle.run_words.specs.Options.{option_rule, needed_option, needed_word, needed_words, bare_app, work_app, rows_in, kind_fault, Parses};

use crate::fault::WordsFault;
use clap::error::ErrorKind;
use clap::{Arg, ArgAction, ArgMatches, Command};
use std::alloc::{AllocError, Global};

/// An option that may be absent.
pub(crate) fn option<'a>(alloc: Global, name: &'a str) -> Arg<'a>
    ensures rule { rule_of result ≡ option_rule name.entry.now }
    ensures local { result.global ≡ false }
{
    Arg::new(alloc, name).long(name).action(ArgAction::Set)
}

/// An option that has to be there.
pub(crate) fn needed_option<'a>(alloc: Global, name: &'a str) -> Arg<'a>
    ensures rule { rule_of result ≡ needed_option name.entry.now }
    ensures local { result.global ≡ false }
{
    Arg::new(alloc, name)
        .long(name)
        .action(ArgAction::Set)
        .required(true)
}

/// A word that has to be there.
pub(crate) fn needed_word<'a>(alloc: Global, name: &'a str) -> Arg<'a>
    ensures rule { rule_of result ≡ needed_word name.entry.now }
    ensures local { result.global ≡ false }
{
    Arg::new(alloc, name).action(ArgAction::Set).required(true)
}

/// Words of which one has to be there, and any number may be.
pub(crate) fn needed_words<'a>(alloc: Global, name: &'a str) -> Arg<'a>
    ensures rule { rule_of result ≡ needed_words name.entry.now }
    ensures local { result.global ≡ false }
{
    Arg::new(alloc, name)
        .action(ArgAction::Append)
        .required(true)
}

/// A command without options, whose name is none of its words.
pub(crate) fn bare<'a>(alloc: Global, name: &'a str) -> Command<'a>
    ensures { app_of result ≡ bare_app name.entry.now }
{
    Command::new(alloc, name).no_binary_name(true)
}

/// The command with an option or a word more.
pub(crate) fn with<'a>(command: Command<'a>, arg: Arg<'a>) -> Result<Command<'a>, AllocError>
    requires { arg.global ≡ false }
    ensures { IfOk result (λ more. app_of more ≡ with_rule (app_of command.entry) (rule_of arg.entry)) }
{
    command.arg(arg)
}

/// The command with `--workers` and `--piece`.
pub(crate) fn with_work<'a>(alloc: Global, command: Command<'a>) -> Result<Command<'a>, AllocError>
    ensures { IfOk result (λ more. app_of more ≡ work_app (app_of command.entry)) }
{
    let command = with(command, needed_option(alloc, "workers"))?;
    with(command, needed_option(alloc, "piece"))
}

// The fault of a kind of error.
fn fault_of_kind(kind: ErrorKind) -> WordsFault
    ensures { result ≡ kind_fault kind }
{
    match kind {
        ErrorKind::OutOfMemory => WordsFault::Memory,
        _ => WordsFault::Option,
    }
}

/// What the words are to the command.
pub(crate) fn parsed<'a>(
    command: Command<'a>,
    words: &'a [String],
) -> Result<ArgMatches<'a>, WordsFault>
    requires { is_simple_and_free (app_of command) ≡ true }
    ensures { Parses (rows_in (app_of command.entry) (map string_bytes words.entry.now)) result }
{
    match command.try_get_matches_from(words) {
        Ok(matches) => Ok(matches),
        Err(error) => Err(fault_of_kind(error.kind())),
    }
}
