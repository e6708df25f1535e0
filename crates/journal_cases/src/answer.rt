//! What is printed.

use crate::job::{Brought, Job, ReadEpoch};
use anyhow::Result;
use checkpoint_journal::{OpenFault, Seen};
use hex::encode;
use md5::{Digest, Md5};
use mem_devices::MemDisk;
use piece_plan::EpochPlan;
use std::alloc::{AllocError, Global};
use std::fmt::{self, Write};

/// How many epochs a journal keeps, and where the next one begins, in words.
#[derive(Clone, Copy)]
pub struct SeenWords(pub Seen);

impl fmt::Display for SeenWords {
    fn fmt<W: fmt::Write>(&self, f: &mut fmt::Formatter<W>) -> fmt::Result {
        match self.0.next {
            Some(at) => write!(f, "{}, next {} {} {}", self.0.kept, at.scan, at.m, at.from),
            None => write!(f, "{}, next none", self.0.kept),
        }
    }
}

/// Why a journal is not opened, in words. Where the length of the file is there, the place that it is counts as the end.
#[derive(Clone, Copy)]
pub struct FaultWords {
    pub fault: OpenFault,
    pub end: Option<u64>,
}

impl fmt::Display for FaultWords {
    fn fmt<W: fmt::Write>(&self, f: &mut fmt::Formatter<W>) -> fmt::Result {
        match self.fault {
            OpenFault::Disk => f.write_str("disk fault"),
            OpenFault::Memory => f.write_str("no memory"),
            OpenFault::Other(differs) => {
                if self.end == Some(differs.at) {
                    f.write_str("other at the end")?;
                } else {
                    write!(f, "other at {}", differs.at)?;
                }
                f.write_str(", kept ")?;
                write_byte(f, differs.kept)?;
                f.write_str(", ours ")?;
                write_byte(f, differs.ours)
            }
        }
    }
}

fn write_byte<W: fmt::Write>(f: &mut fmt::Formatter<W>, byte: Option<u8>) -> fmt::Result {
    match byte {
        Some(byte) => write!(f, "{byte:02x}"),
        None => f.write_str("none"),
    }
}

/// Why a journal is not opened, in words.
pub fn fault_words(alloc: Global, fault: OpenFault) -> Result<String, AllocError> {
    let words = FaultWords { fault, end: None };
    format!(in alloc; "{words}")
}

/// The range of an epoch, in words.
#[derive(Clone, Copy)]
pub struct RangeWords(pub EpochPlan);

impl fmt::Display for RangeWords {
    fn fmt<W: fmt::Write>(&self, f: &mut fmt::Formatter<W>) -> fmt::Result {
        write!(
            f,
            "{}:{}:{}-{}",
            self.0.scan, self.0.m, self.0.from, self.0.to
        )
    }
}

/// The ranges of epochs in words, and where their cells are not those that are made from it.
pub fn epochs_words(alloc: Global, epochs: &[ReadEpoch]) -> Result<String, AllocError> {
    let mut words = String::new(alloc);
    for (i, epoch) in epochs.iter().enumerate() {
        words.push_str(if i == 0 { ": " } else { " " })?;
        write!(words, "{}", RangeWords(epoch.range))?;
        if epoch.other {
            words.push_str(" of other cells")?;
        }
    }
    Ok(words)
}

/// The range of an epoch and its cells, in words.
pub fn cells_words(alloc: Global, epoch: &ReadEpoch) -> Result<String, AllocError> {
    let mut words = format!(in alloc; "{}", RangeWords(epoch.range))?;
    for cell in &epoch.cells {
        write!(words, " {},{},{}", cell.re, cell.im, cell.count)?;
    }
    Ok(words)
}

/// What a look at a disk finds, in words.
pub fn look_words(alloc: Global, job: &Job, disk: &mut MemDisk) -> Result<String, AllocError> {
    match job.look(alloc, disk) {
        Ok(seen) => format!(in alloc; "look {}", SeenWords(seen)),
        Err(fault) => format!(in alloc; "look: {}", FaultWords { fault, end: None }),
    }
}

/// How a journal was brought on, in words.
pub fn brought_words(alloc: Global, brought: Brought) -> Result<String, AllocError> {
    match brought {
        Brought::Refused(fault) => fault_words(alloc, fault),
        Brought::Opened {
            first,
            seen,
            failed,
        } => {
            let end = if failed { ", failed" } else { "" };
            format!(in alloc; "opened {first}, kept {}{end}", SeenWords(seen))
        }
    }
}

/// The length of a file and its digest, in words.
pub fn digest_words(alloc: Global, bytes: &[u8]) -> Result<String> {
    let digest = encode(alloc, &Md5::digest(bytes))?;
    Ok(format!(in alloc; "{} bytes, {digest}", bytes.len())?)
}

/// Prints the length of a file, and its bytes.
pub fn print_file(rt: &impl Print, alloc: Global, bytes: &[u8]) -> Result<()> {
    println!(rt; "file: {} bytes {}", bytes.len(), encode(alloc, bytes)?)?;
    Ok(())
}
