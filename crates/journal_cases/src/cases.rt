//! What the lines ask.

use crate::answer::{SeenWords, brought_words, fault_words, look_words, print_file};
use crate::broken::BrokenJournal;
use crate::job::{Job, MOST_EPOCHS, disk_of, seen_of};
use crate::old::old_journal;
use crate::reading::{print_mixed, print_read, print_retried};
use crate::table::Runs;
use crate::texts::{append_line, numbers_of};
use anyhow::{Context, Result, bail};
use broken_texts::print_broken;
use case_texts::{append_runs, set_byte};
use mem_devices::MemDisk;
use std::alloc::Global;
use std::mem;

/// The texts and the recordings that the lines have described since the last job, that job, and the file.
#[derive(Drop)]
pub struct Cases {
    alloc: Global,
    schedule: Vec<u8>,
    text: Vec<u8>,
    recordings: Vec<u64>,
    job: Option<Job>,
    file: Vec<u8>,
}

impl Cases {
    pub fn new(alloc: Global) -> Cases {
        Cases {
            alloc,
            schedule: Vec::new(alloc),
            text: Vec::new(alloc),
            recordings: Vec::new(alloc),
            job: None,
            file: Vec::new(alloc),
        }
    }

    /// Reads a line, and prints the answer where it asks.
    pub fn read(&mut self, rt: &impl Print, word: &str, rest: &str) -> Result<()> {
        match word {
            "case" => self.begin(rt, rest)?,
            "show" => print_file(rt, self.alloc, &self.file)?,
            "look" => self.look(rt)?,
            "open" => self.open(rt)?,
            "run" => self.run(rt, rest)?,
            "stops" => self.runs(rest)?.print_stops(rt)?,
            "fails" => self.runs(rest)?.print_fails(rt)?,
            "read" => self.read_back(rt)?,
            "mixed" => self.mixed(rt, rest)?,
            "retry" => print_retried(rt, self.alloc, self.job()?, &self.file)?,
            "broken" => self.broken(rt)?,
            _ => self.describe(word, rest)?,
        }
        Ok(())
    }

    // A line of a job or a file.
    fn describe(&mut self, word: &str, rest: &str) -> Result<()> {
        match word {
            "schedule" => append_line(&mut self.schedule, rest)?,
            "line" => append_line(&mut self.text, rest)?,
            "text" => self.text.extend_from_slice(rest.as_bytes())?,
            "recordings" => self.recordings = numbers_of(self.alloc, rest)?,
            "job" => self.end_job(rest)?,
            "part" => self.take_part(rest)?,
            "old" => self.make_old(rest)?,
            "bytes" => append_runs(&mut self.file, rest)?,
            "byte" => set_byte(&mut self.file, rest)?,
            "cut" => self.file.truncate(rest.parse::<usize>()?),
            _ => bail!("no such line"),
        }
        Ok(())
    }

    // Another case.
    fn begin(&mut self, rt: &impl Print, name: &str) -> Result<()> {
        *self = Cases::new(self.alloc);
        println!(rt; "{name}")?;
        Ok(())
    }

    // The texts and the recordings are those of a job.
    fn end_job(&mut self, rest: &str) -> Result<()> {
        let schedule = mem::replace(&mut self.schedule, Vec::new(self.alloc));
        let text = mem::replace(&mut self.text, Vec::new(self.alloc));
        let recordings = mem::replace(&mut self.recordings, Vec::new(self.alloc));
        self.job = Some(Job::new(self.alloc, &schedule, &text, &recordings, rest)?);
        Ok(())
    }

    // The job becomes a part of it.
    fn take_part(&mut self, rest: &str) -> Result<()> {
        let (from, to) = rest.split_once(' ').context("two numbers")?;
        let part = self
            .job()?
            .part(self.alloc, from.parse::<u64>()?, to.parse::<u64>()?)?;
        self.job = Some(part);
        Ok(())
    }

    // The file is an old journal of the job.
    fn make_old(&mut self, rest: &str) -> Result<()> {
        let count = rest.parse::<u64>()?;
        let job = self.job()?;
        self.file = old_journal(self.alloc, job.identity.bytes(), &job.plan, count)?;
        Ok(())
    }

    // What journals of the job are that are the file broken.
    fn broken(&self, rt: &impl Print) -> Result<()> {
        let mut reader = BrokenJournal::new(self.alloc, self.job()?)?;
        print_broken(rt, self.alloc, &mut reader, "journal", &self.file)
    }

    fn job(&self) -> Result<&Job> {
        Ok(self.job.as_ref().context("no job")?)
    }

    // Runs on the file by epochs of two lengths.
    fn runs(&self, rest: &str) -> Result<Runs<'_>> {
        let (samples, other) = rest.split_once(' ').context("two lengths")?;
        Ok(Runs {
            alloc: self.alloc,
            job: self.job()?,
            file: &self.file,
            samples: samples.parse::<u64>()?,
            other: other.parse::<u64>()?,
        })
    }

    // The file is what a disk holds.
    fn keep(&mut self, disk: &MemDisk) -> Result<()> {
        self.file = disk.bytes().to_vec(self.alloc)?;
        Ok(())
    }

    fn look(&mut self, rt: &impl Print) -> Result<()> {
        let mut disk = disk_of(self.alloc, &self.file)?;
        println!(rt; "{}", look_words(self.alloc, self.job()?, &mut disk)?)?;
        self.keep(&disk)
    }

    fn open(&mut self, rt: &impl Print) -> Result<()> {
        let mut disk = disk_of(self.alloc, &self.file)?;
        match self.job()?.open(self.alloc, &mut disk) {
            Ok(journal) => println!(rt; "opened {}", SeenWords(seen_of(&journal)))?,
            Err(fault) => println!(rt; "{}", fault_words(self.alloc, fault)?)?,
        }
        self.keep(&disk)
    }

    fn run(&mut self, rt: &impl Print, rest: &str) -> Result<()> {
        let numbers = numbers_of(self.alloc, rest)?;
        let samples = numbers.first().copied().context("a length")?;
        let most = numbers.get(1).copied().unwrap_or(MOST_EPOCHS);
        let mut disk = disk_of(self.alloc, &self.file)?;
        let brought = self.job()?.bring(self.alloc, &mut disk, samples, most)?;
        println!(rt; "{}", brought_words(self.alloc, brought)?)?;
        self.keep(&disk)
    }

    fn read_back(&mut self, rt: &impl Print) -> Result<()> {
        let mut disk = disk_of(self.alloc, &self.file)?;
        print_read(rt, self.alloc, self.job()?, &mut disk)?;
        self.keep(&disk)
    }

    fn mixed(&mut self, rt: &impl Print, rest: &str) -> Result<()> {
        let samples = rest.parse::<u64>()?;
        let mut disk = disk_of(self.alloc, &self.file)?;
        print_mixed(rt, self.alloc, self.job()?, &mut disk, samples)?;
        self.keep(&disk)
    }
}
