//! Cases of the crates below the job: numbers and times, frames and samples, delays and rotation. Each line
//! of standard input is one call, and is printed with its answer. The head of the file `stdin` says what the
//! lines mean.
#![tactic(auto)]

mod delays;
mod entries;
mod frames;
mod numbers;
mod samples;
mod text;

use crate::delays::read_delay;
use crate::entries::Entries;
use crate::frames::Frame;
use crate::numbers::read_number;
use crate::samples::read_sample;
use anyhow::{Result, bail};
use std::alloc::Global;
use std::io::{BufRead, BufReader};

fn main(rt: HostRuntime) -> Result<()> {
    let mut frame = Frame::new(rt.alloc());
    let mut entries = Entries::new(rt.alloc());
    let mut number = 0u64;
    for line in BufReader::new(rt.alloc(), rt.reader())?.lines(rt.alloc()) {
        number = number.saturating_add(1);
        let read = read_line(&rt, rt.alloc(), line?.as_str(), &mut frame, &mut entries);
        if let Err(fault) = read {
            bail!("line {number}: {fault}");
        }
    }
    Ok(())
}

fn read_line(
    rt: &impl Print,
    alloc: Global,
    line: &str,
    frame: &mut Frame,
    entries: &mut Entries,
) -> Result<()> {
    if line.is_empty() || line.starts_with('#') {
        return Ok(());
    }
    let (word, rest) = line.split_once(' ').unwrap_or((line, ""));
    print!(rt; "{line}: ")?;
    let is_read = read_number(rt, alloc, word, rest)?
        || read_sample(rt, alloc, word, rest)?
        || read_delay(rt, alloc, word, rest)?
        || frame.read(rt, alloc, word, rest)?
        || entries.read(rt, alloc, word, rest)?;
    if !is_read {
        bail!("no such line");
    }
    Ok(())
}
