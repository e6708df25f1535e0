//! What each stop and each fault of the disk leaves.

use crate::answer::{
    SeenWords, brought_words, digest_words, epochs_words, fault_words, look_words,
};
use crate::job::{Brought, Job, MOST_EPOCHS, failing_disk, seen_of, stopped_disk};
use anyhow::{Result, bail};
use mem_devices::MemDisk;
use std::alloc::{AllocError, Global};
use std::fmt::Write;

// More calls of a disk than a case makes.
const MOST_CALLS: u64 = 1_000;

// What the bytes are that a crash may change.
const FILLS: [u8; 3] = [0, 1, 7];

// What a call of a disk does: it stops the disk, or it fails.
#[derive(Clone, Copy)]
enum Trouble {
    Stop,
    Fail,
}

/// Runs on a file that a disk stops or fails: the job, the file, the samples of an epoch, and those of an epoch that is appended
/// afterwards.
#[derive(Clone, Copy)]
pub struct Runs<'a> {
    pub alloc: Global,
    pub job: &'a Job,
    pub file: &'a [u8],
    pub samples: u64,
    pub other: u64,
}

impl Runs<'_> {
    /// Prints how the journal in the file is brought on with the disk stopped after 0, 1, 2 .. calls, until nothing stops it, and
    /// behind each stop six images that a crash may leave. Equal answers in a row are printed once.
    pub fn print_stops(&self, rt: &impl Print) -> Result<()> {
        println!(rt; "stops {}, then {}", self.samples, self.other)?;
        let mut last = String::new(self.alloc);
        for stop in 0..MOST_CALLS {
            let (brought, _) = self.brought(Trouble::Stop, stop)?;
            let words = self.stop_words(stop, brought)?;
            if words != last {
                print!(rt; "{words}")?;
            }
            if brought.is_done() {
                return Ok(());
            }
            last = words;
        }
        bail!("too many stops")
    }

    /// Prints how the journal in the file is brought on with call 0, 1, 2 .. of the disk failing, until there is none, and behind
    /// each fault the six images and the same disk. Equal answers in a row are printed once.
    pub fn print_fails(&self, rt: &impl Print) -> Result<()> {
        println!(rt; "fails {}, then {}", self.samples, self.other)?;
        let mut last = String::new(self.alloc);
        for call in 0..MOST_CALLS {
            let (brought, disk) = self.brought(Trouble::Fail, call)?;
            if brought.is_done() {
                println!(rt; "  {}", brought_words(self.alloc, brought)?)?;
                return Ok(());
            }
            let words = self.fail_words(call, brought, disk)?;
            if words != last {
                print!(rt; "{words}")?;
            }
            last = words;
        }
        bail!("too many calls")
    }

    // How the journal is brought on with this trouble at a call of the disk, and the disk after it.
    fn brought(&self, trouble: Trouble, call: u64) -> Result<(Brought, MemDisk)> {
        let mut disk = match trouble {
            Trouble::Stop => stopped_disk(self.alloc, self.file, call)?,
            Trouble::Fail => failing_disk(self.alloc, self.file, call)?,
        };
        let brought = self
            .job
            .bring(self.alloc, &mut disk, self.samples, MOST_EPOCHS)?;
        Ok((brought, disk))
    }

    // The six images that a crash may leave behind it.
    fn images(&self, trouble: Trouble, call: u64) -> Result<Vec<MemDisk>> {
        let mut images = Vec::new(self.alloc);
        for fill in FILLS {
            for long in [false, true] {
                let (_, disk) = self.brought(trouble, call)?;
                images.push(disk.crash(self.alloc, fill, long)?)?;
            }
        }
        Ok(images)
    }

    // How the journal was brought on with the disk stopped, and what it is in each image.
    fn stop_words(&self, stop: u64, brought: Brought) -> Result<String> {
        let mut words = format!(in self.alloc; "  {}\n", brought_words(self.alloc, brought)?)?;
        let mut answers = Vec::new(self.alloc);
        for image in self.images(Trouble::Stop, stop)? {
            answers.push(self.again(image)?)?;
        }
        write_images(&mut words, &answers)?;
        Ok(words)
    }

    // The same with a call of the disk that failed, and what the journal is on that disk then.
    fn fail_words(&self, call: u64, brought: Brought, disk: MemDisk) -> Result<String> {
        let mut words = format!(in self.alloc; "  {}\n", brought_words(self.alloc, brought)?)?;
        let mut answers = Vec::new(self.alloc);
        for mut image in self.images(Trouble::Fail, call)? {
            answers.push(look_words(self.alloc, self.job, &mut image)?)?;
        }
        write_images(&mut words, &answers)?;
        writeln!(words, "    the same disk: {}", self.again(disk)?)?;
        Ok(words)
    }

    // What the journal is on a disk, and the file when epochs of the other length are appended.
    fn again(&self, mut disk: MemDisk) -> Result<String> {
        let mut words = look_words(self.alloc, self.job, &mut disk)?;
        match self.job.open(self.alloc, &mut disk) {
            Ok(mut journal) => {
                let seen = seen_of(&journal);
                let epochs = self.job.read_rest(self.alloc, &mut disk, &mut journal)?;
                self.job.append_rest(self.alloc, &mut disk, &mut journal, self.other, MOST_EPOCHS)?;
                let ranges = epochs_words(self.alloc, &epochs)?;
                write!(words, ", opened {}{ranges}", SeenWords(seen))?;
                let file = digest_words(self.alloc, disk.bytes())?;
                write!(words, ", then {} epochs, {file}", journal.kept())?;
            }
            Err(fault) => write!(words, ", {}", fault_words(self.alloc, fault)?)?,
        }
        Ok(words)
    }
}

// What is said of each of the six images, in one line where it is the same.
fn write_images(words: &mut String, answers: &[String]) -> Result<(), AllocError> {
    if let Some(first) = answers.first() {
        if answers.iter().all(|answer| answer == first) {
            return writeln!(words, "    each image: {first}");
        }
    }
    for (i, answer) in answers.iter().enumerate() {
        let fill = FILLS.get(i / 2).copied().unwrap_or(0);
        let length = if i % 2 == 0 { "short" } else { "long" };
        writeln!(words, "    fill {fill} {length}: {answer}")?;
    }
    Ok(())
}
