//! Cases of the fringe search: certificates of record files, and what the check answers to each line changed. The head of the
//! file `stdin` says what the lines mean.
#![tactic(auto)]

use anyhow::{Context, Result, bail};
use case_texts::{Line, read_table};
use fringe_search::{Grid, amplitude, check_certificate, write_certificate};
use hex::decode;
use mem_devices::MemSink;
use std::alloc::Global;
use vis_records::read_all;

// The bytes of a record file, and the text of its last certificate.
#[derive(Drop)]
struct Case {
    file: Vec<u8>,
    text: Vec<u8>,
}

fn main(rt: HostRuntime) -> Result<()> {
    let mut case = Case {
        file: Vec::new(rt.alloc()),
        text: Vec::new(rt.alloc()),
    };
    read_table(&rt, |line| read_line(&rt, rt.alloc(), line, &mut case))
}

// Reads a line, and prints the answer where it asks.
fn read_line(rt: &impl Print, alloc: Global, line: Line<'_>, case: &mut Case) -> Result<()> {
    match line.word {
        "file" => case.file = decode(alloc, line.rest)?,
        "more" => case.file.extend_from_slice(&decode(alloc, line.rest)?)?,
        "fringe" => print_certificate(rt, alloc, line, case)?,
        "line" => print_changed(rt, alloc, line, case)?,
        "cut" => print_cut(rt, alloc, line, case)?,
        "behind" => print_longer(rt, alloc, line, case)?,
        _ => bail!("no such line"),
    }
    Ok(())
}

// The certificate on a grid, and what the check answers to it; or the first amplitude that is too large.
fn print_certificate(
    rt: &impl Print,
    alloc: Global,
    line: Line<'_>,
    case: &mut Case,
) -> Result<()> {
    let grid = read_grid(line.rest)?;
    let vis = read_all(alloc, &case.file)?;
    if let Some(amplitude) = amplitude(&vis) {
        println!(rt; "{}: amplitude {amplitude}", line.whole)?;
        return Ok(());
    }
    let mut sink = MemSink::new(alloc, 100, Vec::new(alloc));
    write_certificate(&vis, &grid, &mut sink)?;
    case.text = sink.bytes().to_vec(alloc)?;
    print!(rt; "{}", str::from_utf8(&case.text)?)?;
    print_check(rt, alloc, line, &case.file, &case.text)
}

fn read_grid(words: &str) -> Result<Grid> {
    let (rates, divide) = words.split_once(' ').context("two numbers")?;
    let rates = rates.parse::<u32>()?;
    let divide = divide.parse::<u32>()?;
    if rates > 4096 || divide == 0 || divide > 65536 {
        bail!("no such grid");
    }
    Ok(Grid { rates, divide })
}

// What the check answers to a text.
fn print_check(
    rt: &impl Print,
    alloc: Global,
    line: Line<'_>,
    file: &[u8],
    text: &[u8],
) -> Result<()> {
    let vis = read_all(alloc, file)?;
    let None = amplitude(&vis) else {
        bail!("an amplitude is too large");
    };
    match check_certificate(&vis, text) {
        Ok(()) => println!(rt; "{}: right", line.whole)?,
        Err(wrong) => println!(rt; "{}: {wrong}", line.whole)?,
    }
    Ok(())
}

// The answer where a line of the certificate is another one.
fn print_changed(rt: &impl Print, alloc: Global, line: Line<'_>, case: &Case) -> Result<()> {
    let (number, other) = line.rest.split_once(' ').context("a number and a line")?;
    let number = number.parse::<usize>()?;
    let mut text = Vec::new(alloc);
    for (i, own) in str::from_utf8(&case.text)?.lines().enumerate() {
        let put = if i == number { other } else { own };
        text.extend_from_slice(put.as_bytes())?;
        text.push(b'\n')?;
    }
    print_check(rt, alloc, line, &case.file, &text)
}

// The answer to the first bytes of the certificate.
fn print_cut(rt: &impl Print, alloc: Global, line: Line<'_>, case: &Case) -> Result<()> {
    let front = case
        .text
        .get(..line.rest.parse::<usize>()?)
        .context("no such front")?;
    print_check(rt, alloc, line, &case.file, front)
}

// The answer to the certificate with a text behind it.
fn print_longer(rt: &impl Print, alloc: Global, line: Line<'_>, case: &Case) -> Result<()> {
    let mut text = case.text.as_slice().to_vec(alloc)?;
    text.extend_from_slice(line.rest.as_bytes())?;
    print_check(rt, alloc, line, &case.file, &text)
}
