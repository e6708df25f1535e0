//! Cases of the sums of products of bytes at many lags. Each line of standard input asks for one, and is printed with its answer; a number
//! of rounds repeats it, so that it can be timed. The head of the file `stdin` says what the lines mean.
#![tactic(auto)]

mod case;

use crate::case::Case;
use anyhow::{Result, bail};
use std::io::{BufRead, BufReader};

fn main(rt: HostRuntime) -> Result<()> {
    for line in BufReader::new(rt.alloc(), rt.reader())?.lines(rt.alloc()) {
        let line = line?;
        let line = line.as_str();
        if line.is_empty() || line.starts_with('#') {
            continue;
        }
        let Some(case) = Case::read(line) else {
            bail!("no such line: {line}");
        };
        let (first, last, all) = case.sums();
        println!(rt; "{line}: {first} {last} {all}")?;
    }
    Ok(())
}
