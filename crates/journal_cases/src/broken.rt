//! Journals that are a good one broken.

use crate::answer::{FaultWords, SeenWords, epochs_words};
use crate::job::{Job, disk_of, seen_of};
use anyhow::{Result, bail};
use broken_texts::Reader;
use checkpoint_journal::{OpenFault, Seen};
use std::alloc::{AllocError, Global};

/// The reader of such journals of a job, and the journal of that job that keeps no epoch.
#[derive(Drop)]
pub struct BrokenJournal<'a> {
    job: &'a Job,
    new: Vec<u8>,
}

impl<'a> BrokenJournal<'a> {
    pub fn new(alloc: Global, job: &'a Job) -> Result<BrokenJournal<'a>> {
        let mut disk = disk_of(alloc, &[])?;
        if let Err(fault) = job.open(alloc, &mut disk) {
            bail!("{fault}");
        }
        let new = disk.bytes().to_vec(alloc)?;
        Ok(BrokenJournal { job, new })
    }

    // What a look finds, and whether it writes.
    fn looked(&self, alloc: Global, text: &[u8]) -> Result<String> {
        let mut disk = disk_of(alloc, text)?;
        let mut answer = match self.job.look(alloc, &mut disk) {
            Ok(seen) => kept_words(alloc, seen)?,
            Err(fault) => fault_of(alloc, fault, text)?,
        };
        if disk.bytes() != text {
            answer.push_str(", written")?;
        }
        Ok(answer)
    }

    // What stands in the file after an opening.
    fn left(&self, alloc: Global, text: &[u8], file: &[u8]) -> Result<String, AllocError> {
        if file == text {
            return String::from_str(alloc, "the file stays");
        }
        if file == self.new.as_slice() {
            return String::from_str(alloc, "a new file");
        }
        let first = first_change(text, file);
        let last = last_change(text, file);
        format!(in alloc; "bytes {first} to {last} written")
    }
}

impl Reader for BrokenJournal<'_> {
    fn answer(&mut self, alloc: Global, text: &[u8]) -> Result<String> {
        let mut disk = disk_of(alloc, text)?;
        let (opened, epochs) = match self.job.open(alloc, &mut disk) {
            Ok(mut journal) => {
                let seen = seen_of(&journal);
                let epochs = self.job.read_rest(alloc, &mut disk, &mut journal)?;
                (kept_words(alloc, seen)?, epochs_words(alloc, &epochs)?)
            }
            Err(fault) => (fault_of(alloc, fault, text)?, String::new(alloc)),
        };
        let left = self.left(alloc, text, disk.bytes())?;
        let looked = self.looked(alloc, text)?;
        if looked == opened {
            Ok(format!(in alloc; "{opened}{epochs}, {left}")?)
        } else {
            Ok(format!(in alloc; "{opened}{epochs}, {left}, look: {looked}")?)
        }
    }
}

// How many epochs a journal keeps, and where the next one begins.
fn kept_words(alloc: Global, seen: Seen) -> Result<String, AllocError> {
    format!(in alloc; "kept {}", SeenWords(seen))
}

// Why a journal is not opened.
fn fault_of(alloc: Global, fault: OpenFault, text: &[u8]) -> Result<String, AllocError> {
    let words = FaultWords {
        fault,
        end: Some(text.len() as u64),
    };
    format!(in alloc; "{words}")
}

// The first place where a file is another than it was.
fn first_change(before: &[u8], after: &[u8]) -> usize {
    let most = before.len().max(after.len());
    (0..most)
        .find(|&i| before.get(i) != after.get(i))
        .unwrap_or(most)
}

// The last such place.
fn last_change(before: &[u8], after: &[u8]) -> usize {
    let most = before.len().max(after.len());
    (0..most)
        .rev()
        .find(|&i| before.get(i) != after.get(i))
        .unwrap_or(most)
}
