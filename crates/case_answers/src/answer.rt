//! What a call answers.

use anyhow::Result;
use hex::encode;
use md5::{Digest, Md5};
use std::alloc::Global;
use vis_records::read_all;

/// The status of a call, its note, and what it appended to the output.
#[derive(PartialEq, Drop)]
pub struct Answer {
    pub status: u8,
    pub note: Vec<u8>,
    pub output: Vec<u8>,
}

impl Answer {
    /// Whether it is that of a device's fault, with a first part of a whole output.
    pub fn is_fault(&self, status: u8, note: &[u8], whole: &[u8]) -> bool {
        self.status == status && self.note.as_slice() == note && whole.starts_with(&self.output)
    }

    /// Whether it is that of a fault of the journal, with a first part of a whole output.
    pub fn is_journal_fault(&self, whole: &[u8]) -> bool {
        self.status == 8
            && self.note.starts_with(b"vlbi: journal fault")
            && whole.starts_with(&self.output)
    }

    /// Prints the status, the note without its line's end, and the output.
    pub fn print(&self, rt: &impl Print, alloc: Global) -> Result<()> {
        print!(rt; " {}", self.status)?;
        print_note(rt, alloc, &self.note)?;
        print_output(rt, alloc, &self.output)?;
        println!(rt; "")?;
        Ok(())
    }
}

// A note of one line as it stands, and any other in hexadecimal digits.
fn print_note(rt: &impl Print, alloc: Global, note: &[u8]) -> Result<()> {
    if note.is_empty() {
        return Ok(());
    }
    match line_of(note) {
        Some(line) => print!(rt; " {line}")?,
        None => print!(rt; " note {}", encode(alloc, note)?)?,
    }
    Ok(())
}

// The one line of a text.
fn line_of(note: &[u8]) -> Option<&str> {
    let line = std::str::from_utf8(note).ok()?.strip_suffix('\n')?;
    if line.contains('\n') {
        None
    } else {
        Some(line)
    }
}

// The length of an output, the lines of a text, or the cells of a record file, and the bytes or where they are many their
// digest.
fn print_output(rt: &impl Print, alloc: Global, output: &[u8]) -> Result<()> {
    if output.is_empty() {
        return Ok(());
    }
    print!(rt; " {} bytes", output.len())?;
    if let Some(text) = text_of(output) {
        for line in text.lines() {
            print!(rt; " | {line}")?;
        }
        return Ok(());
    }
    print_cells(rt, alloc, output)?;
    print_bytes(rt, alloc, output, 200)
}

// Up to so many bytes, or the digest of more.
fn print_bytes(rt: &impl Print, alloc: Global, bytes: &[u8], most: usize) -> Result<()> {
    if bytes.len() <= most {
        print!(rt; " hex {}", encode(alloc, bytes)?)?;
    } else {
        let digest: [u8; 16] = Md5::digest(bytes);
        print!(rt; " md5 {}", encode(alloc, digest)?)?;
    }
    Ok(())
}

// A text of whole lines.
fn text_of(output: &[u8]) -> Option<&str> {
    let text = std::str::from_utf8(output).ok()?;
    if text.ends_with('\n') && !text.contains('\0') {
        Some(text)
    } else {
        None
    }
}

// The cells of a record file that has few: `re`, `im` and `count` of each.
fn print_cells(rt: &impl Print, alloc: Global, output: &[u8]) -> Result<()> {
    if let Ok(vis) = read_all(alloc, output)
        && vis.cells().len() <= 64
    {
        print!(rt; " cells")?;
        for cell in vis.cells() {
            print!(rt; " {},{},{}", cell.re, cell.im, cell.count)?;
        }
    }
    Ok(())
}

/// Prints the length of a journal, and its bytes or where they are many their digest.
pub fn print_journal(rt: &impl Print, alloc: Global, name: &str, journal: &[u8]) -> Result<()> {
    print!(rt; "{name}, journal: {} bytes", journal.len())?;
    print_bytes(rt, alloc, journal, 400)?;
    println!(rt; "")?;
    Ok(())
}
