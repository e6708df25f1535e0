//! Cases of the generator and of the summary of a record file. Each line of standard input makes a text or says what is
//! printed of it. The head of the file `stdin` says what the lines mean.
#![tactic(auto)]

use anyhow::{Context, Result, bail, ensure};
use case_texts::{Line, read_table};
use gen_summary::write_totals;
use hex::{decode, encode};
use md5::{Digest, Md5};
use mem_devices::MemSink;
use sample_gen::{generate, job_text};
use std::alloc::Global;
use std::str;
use vis_records::{SinkFault, read_all};

fn main(rt: HostRuntime) -> Result<()> {
    let mut text = Vec::new(rt.alloc());
    read_table(&rt, |line| read_line(&rt, rt.alloc(), line, &mut text))
}

// Prints a line, and below it what it asks.
fn read_line(rt: &impl Print, alloc: Global, line: Line<'_>, text: &mut Vec<u8>) -> Result<()> {
    println!(rt; "{}", line.whole)?;
    let rest = line.rest;
    match line.word {
        "recording" => *text = recording(rt, alloc, rest)?,
        "bytes" => print_bytes(rt, alloc, rest, text)?,
        "job" => *text = job(alloc, rest.parse::<u32>()?)?,
        "lines" => print!(rt; "{}", str::from_utf8(text)?)?,
        "text" => *text = decode(alloc, rest)?,
        "totals" => *text = totals(rt, alloc, text, rest.parse::<u64>()?)?,
        _ => bail!("no such line"),
    }
    Ok(())
}

// The recording of a seed, seconds and a station, and where a further number is given, to a sink that fails at that write.
fn recording(rt: &impl Print, alloc: Global, rest: &str) -> Result<Vec<u8>> {
    let mut words = rest.split_whitespace();
    let seed = words.next().context("a seed")?.parse::<u64>()?;
    let seconds = words.next().context("seconds")?.parse::<u32>()?;
    let station = words.next().context("a station")?.parse::<u32>()?;
    ensure!((1..=60).contains(&seconds), "{seconds} seconds");
    ensure!(station < 4, "station {station}");
    let mut failing = Vec::new(alloc);
    if let Some(call) = words.next() {
        failing.push(call.parse::<u64>()?)?;
    }
    let mut sink = MemSink::new(alloc, 100_000, failing);
    print_answer(rt, generate(seed, seconds, station, &mut sink))?;
    let bytes = sink.bytes().to_vec(alloc)?;
    let digest = Md5::digest(&bytes);
    println!(rt; "{} bytes, md5 {}", bytes.len(), encode(alloc, &digest)?)?;
    Ok(bytes)
}

// Says where a call failed.
fn print_answer(rt: &impl Print, answer: std::result::Result<(), SinkFault>) -> Result<()> {
    if let Err(fault) = answer {
        println!(rt; "{fault}")?;
    }
    Ok(())
}

// So many bytes from a place on.
fn print_bytes(rt: &impl Print, alloc: Global, rest: &str, text: &[u8]) -> Result<()> {
    let (from, count) = rest.split_once(' ').context("a place and a number")?;
    let (_, behind) = text
        .split_at_checked(from.parse::<usize>()?)
        .context("no such place")?;
    let (front, _) = behind
        .split_at_checked(count.parse::<usize>()?)
        .context("too many bytes")?;
    println!(rt; "{}", encode(alloc, front)?)?;
    Ok(())
}

// The job of so many seconds.
fn job(alloc: Global, seconds: u32) -> Result<Vec<u8>> {
    ensure!((1..=60).contains(&seconds), "{seconds} seconds");
    Ok(job_text(alloc, seconds)?)
}

// The summary of a record file.
fn totals(rt: &impl Print, alloc: Global, text: &[u8], bytes: u64) -> Result<Vec<u8>> {
    let vis = read_all(alloc, text)?;
    let mut sink = MemSink::new(alloc, 100_000, Vec::new(alloc));
    print_answer(rt, write_totals(&vis, bytes, &mut sink))?;
    Ok(sink.bytes().to_vec(alloc)?)
}
