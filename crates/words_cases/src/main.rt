//! Cases of the words of a call. Each line of standard input is one list of words, and is printed with the order that it
//! gives, or the fault. The head of the file `stdin` says how the words stand in a line.
#![tactic(auto)]

use anyhow::{Context, Result, bail};
use broken_texts::{Reader, print_broken};
use hex::decode;
use num_time::Name;
use run_words::{Order, read_words};
use std::alloc::Global;
use std::fmt::Write;
use std::io::{BufRead, BufReader};

fn main(rt: HostRuntime) -> Result<()> {
    for line in BufReader::new(rt.alloc(), rt.reader())?.lines(rt.alloc()) {
        read_line(&rt, rt.alloc(), line?.as_str())?;
    }
    Ok(())
}

fn read_line(rt: &impl Print, alloc: Global, line: &str) -> Result<()> {
    if line.is_empty() || line.starts_with('#') {
        return Ok(());
    }
    if let Some(rest) = line.strip_prefix("broken ") {
        let (name, text) = rest.split_once(' ').context("a name and a text")?;
        let text = decode(alloc, text)?;
        return print_broken(rt, alloc, &mut BrokenWords, name, &text);
    }
    let answer = answer_of(alloc, line)?;
    println!(rt; "{line} = {answer}")?;
    Ok(())
}

/// The reader of lines of words that are a good one broken.
#[derive(Drop)]
struct BrokenWords;

impl Reader for BrokenWords {
    fn answer(&mut self, alloc: Global, text: &[u8]) -> Result<String> {
        match str::from_utf8(text) {
            Ok(line) => answer_of(alloc, line),
            Err(_) => Ok(String::from_str(alloc, "no UTF-8")?),
        }
    }
}

// The order that the words of a line give, or the fault.
fn answer_of(alloc: Global, line: &str) -> Result<String> {
    match read_words(alloc, &words_of(alloc, line)?) {
        Ok(order) => order_of(alloc, &order),
        Err(fault) => Ok(format!(in alloc; "{fault}")?),
    }
}

// The words behind the first mark, each up to the next.
fn words_of(alloc: Global, line: &str) -> Result<Vec<String>> {
    let mut words = Vec::new(alloc);
    for word in line.split('|').skip(1) {
        words.push(String::from_str(alloc, word)?)?;
    }
    Ok(words)
}

// An order in words.
fn order_of(alloc: Global, order: &Order) -> Result<String> {
    match order {
        Order::Run {
            job,
            vex,
            epoch,
            workers,
            piece,
        } => {
            let names = cut_of(alloc, "run", job, vex, epoch)?;
            Ok(format!(in alloc; "{names} workers {workers} piece {piece}")?)
        }
        Order::Plain { job, vex } => names_of(alloc, "plain", job, vex),
        Order::Check { job, vex, epoch } => cut_of(alloc, "check", job, vex, epoch),
        Order::Status { job, vex, epoch } => cut_of(alloc, "status", job, vex, epoch),
        Order::Dump { file } => Ok(format!(in alloc;
            "dump file \"{}\"",
            text_of(file)?.escape_debug()
        )?),
        Order::Gen {
            seed,
            seconds,
            workers,
            piece,
        } => Ok(format!(in alloc;
            "gen seed {seed} seconds {seconds} workers {workers} piece {piece}"
        )?),
        Order::Fringe {
            file,
            rates,
            divide,
        } => {
            let file = text_of(file)?.escape_debug();
            Ok(format!(in alloc; "fringe file \"{file}\" rates {rates} divide {divide}")?)
        }
        Order::Verify { file, certificate } => {
            let (file, certificate) = (
                text_of(file)?.escape_debug(),
                text_of(certificate)?.escape_debug(),
            );
            Ok(format!(in alloc; "verify file \"{file}\" certificate \"{certificate}\"")?)
        }
        Order::Bins {
            job,
            vex,
            phase,
            workers,
            piece,
        } => {
            let names = names_of(alloc, "bins", job, vex)?;
            let phase = text_of(phase)?.escape_debug();
            Ok(format!(in alloc; "{names} phase \"{phase}\" workers {workers} piece {piece}")?)
        }
        Order::Shard {
            job,
            vex,
            epoch,
            workers,
            piece,
            from,
            to,
        } => {
            let names = cut_of(alloc, "shard", job, vex, epoch)?;
            Ok(format!(in alloc; "{names} workers {workers} piece {piece} from {from} to {to}")?)
        }
        Order::Merge { job, vex, files } => {
            let mut words = names_of(alloc, "merge", job, vex)?;
            write!(words, " files")?;
            for file in files.items() {
                write!(words, " \"{}\"", text_of(file)?.escape_debug())?;
            }
            Ok(words)
        }
    }
}

// A command with the names of a job's file and of its schedule's.
fn names_of(alloc: Global, command: &str, job: &Name, vex: &Option<Name>) -> Result<String> {
    let mut words = format!(in alloc; "{command} job \"{}\"", text_of(job)?.escape_debug())?;
    if let Some(vex) = vex {
        write!(words, " vex \"{}\"", text_of(vex)?.escape_debug())?;
    }
    Ok(words)
}

// The same, and the samples of an epoch.
fn cut_of(
    alloc: Global,
    command: &str,
    job: &Name,
    vex: &Option<Name>,
    epoch: &Option<u64>,
) -> Result<String> {
    let mut words = names_of(alloc, command, job, vex)?;
    if let Some(epoch) = epoch {
        write!(words, " epoch {epoch}")?;
    }
    Ok(words)
}

fn text_of(name: &Name) -> Result<&str> {
    match str::from_utf8(name.bytes()) {
        Ok(text) => Ok(text),
        Err(_) => bail!("a name that is no text"),
    }
}
