//! Cases of the reader of record files, and of the lines that show one. Each line of standard input makes a text, and is
//! printed with what the text is read to, or the fault. The head of the file `stdin` says what the lines mean.
#![tactic(auto)]

mod broken;

use crate::broken::BrokenFile;
use anyhow::{Context, Result, bail};
use broken_texts::print_broken;
use case_texts::{Line, read_table};
use hex::{decode, encode};
use mem_devices::MemSink;
use std::alloc::Global;
use vis_records::{Vis, dump, read_all};

fn main(rt: HostRuntime) -> Result<()> {
    let mut text = Vec::new(rt.alloc());
    read_table(&rt, |line| read_line(&rt, rt.alloc(), line, &mut text))
}

// Reads a line, and prints the answer where it asks.
fn read_line(rt: &impl Print, alloc: Global, line: Line<'_>, text: &mut Vec<u8>) -> Result<()> {
    match line.word {
        "text" => *text = decode(alloc, line.rest)?,
        "more" => text.extend_from_slice(&decode(alloc, line.rest)?)?,
        "whole" => print_answer(rt, alloc, line, text)?,
        "dump" => print_lines(rt, alloc, line, text)?,
        "byte" => print_changed(rt, alloc, line, text)?,
        "broken" => print_breaks(rt, alloc, line.rest)?,
        _ => bail!("no such line"),
    }
    Ok(())
}

// What a text is read to, or the fault.
fn print_answer(rt: &impl Print, alloc: Global, line: Line<'_>, text: &[u8]) -> Result<()> {
    print!(rt; "{}: ", line.whole)?;
    match read_all(alloc, text) {
        Ok(vis) => print_file(rt, &vis),
        Err(fault) => {
            println!(rt; "{fault}")?;
            Ok(())
        }
    }
}

// The sizes of a file, and its cells.
fn print_file(rt: &impl Print, vis: &Vis) -> Result<()> {
    let head = vis.head();
    let (stations, products, scans) = (
        head.stations().len(),
        head.products().len(),
        head.scans().len(),
    );
    print!(rt;
        "lags {} integration {} rate {}",
        head.lags(),
        head.integration(),
        head.rate()
    )?;
    print!(rt; " stations {stations} products {products} scans {scans} cells")?;
    for cell in vis.cells() {
        print!(rt; " {} {} {}", cell.re, cell.im, cell.count)?;
    }
    println!(rt; "")?;
    Ok(())
}

// The lines that show the text, or the fault; in hexadecimal digits where they are no UTF-8.
fn print_lines(rt: &impl Print, alloc: Global, line: Line<'_>, text: &[u8]) -> Result<()> {
    let vis = match read_all(alloc, text) {
        Ok(vis) => vis,
        Err(fault) => {
            println!(rt; "{}: {fault}", line.whole)?;
            return Ok(());
        }
    };
    let mut sink = MemSink::new(alloc, 100, Vec::new(alloc));
    dump(&vis, &mut sink)?;
    println!(rt; "{}:", line.whole)?;
    match str::from_utf8(sink.bytes()) {
        Ok(lines) => print!(rt; "{lines}")?,
        Err(_) => println!(rt; "{}", encode(alloc, sink.bytes())?)?,
    }
    Ok(())
}

// The answer to the text with another byte at a place.
fn print_changed(rt: &impl Print, alloc: Global, line: Line<'_>, text: &[u8]) -> Result<()> {
    let (place, byte) = line.rest.split_once(' ').context("a place and a byte")?;
    let mut changed = text.to_vec(alloc)?;
    let there = changed
        .get_mut(place.parse::<usize>()?)
        .context("no such place")?;
    *there = u8::from_str_radix(byte, 16)?;
    print_answer(rt, alloc, line, &changed)
}

// The answers to a file that is broken in all ways.
fn print_breaks(rt: &impl Print, alloc: Global, rest: &str) -> Result<()> {
    let (kind, text) = rest.split_once(' ').context("a kind and a text")?;
    let text = decode(alloc, text)?;
    let mut reader = BrokenFile::new(alloc, &text)?;
    print_broken(rt, alloc, &mut reader, kind, &text)
}
