//! Record files that are a good one broken.

use anyhow::Result;
use broken_texts::Reader;
use mem_devices::MemSink;
use std::alloc::Global;
use std::fmt::Write;
use vis_records::{Vis, dump, read_all};

/// The reader of such files, and the lines that show the good one.
#[derive(Drop)]
pub struct BrokenFile {
    good: Vec<u8>,
}

impl BrokenFile {
    pub fn new(alloc: Global, text: &[u8]) -> Result<BrokenFile> {
        let vis = read_all(alloc, text)?;
        let good = lines_of(alloc, &vis)?;
        Ok(BrokenFile { good })
    }
}

impl Reader for BrokenFile {
    fn answer(&mut self, alloc: Global, text: &[u8]) -> Result<String> {
        match read_all(alloc, text) {
            Ok(vis) => other_lines(alloc, &self.good, &lines_of(alloc, &vis)?),
            Err(fault) if fault.at == text.len() as u64 => {
                Ok(format!(in alloc; "{} at the end", fault.kind)?)
            }
            Err(fault) => Ok(format!(in alloc; "{fault}")?),
        }
    }
}

// The lines that show a file.
fn lines_of(alloc: Global, vis: &Vis) -> Result<Vec<u8>> {
    let mut sink = MemSink::new(alloc, 100, Vec::new(alloc));
    dump(vis, &mut sink)?;
    Ok(sink.bytes().to_vec(alloc)?)
}

// The lines that are others than in the good file.
fn other_lines(alloc: Global, good: &[u8], lines: &[u8]) -> Result<String> {
    let mut answer = String::new(alloc);
    let mut there = good.split(|&byte| byte == b'\n');
    for line in lines.split(|&byte| byte == b'\n') {
        if there.next() != Some(line) {
            let word = if answer.is_empty() { "with" } else { " and" };
            write!(answer, "{word} {}", line.escape_ascii())?;
        }
    }
    if there.next().is_some() {
        answer.push_str(" and no more")?;
    }
    if answer.is_empty() {
        answer.push_str("the same")?;
    }
    Ok(answer)
}
