//! A job, and its journal on a disk in memory.
ghost use Rattle.std.specs.Prelude.{◌≡◌, ◌<◌, ◌^◌, length, IfOk, IfSome, OnOk, Some};
ghost use Rattle.journal_cases.specs.{Few.{AreFew}, Standing.{StandsIn}};

use crate::epoch::{cells_of, epoch_sums};
use crate::plan::plan_of;
use anyhow::{Result, bail};
use checkpoint_journal::{
    AppendFault, Identity, Journal, OpenFault, ReadFault, Seen, job_identity, shard_identity,
};
use corr_model::Cell;
use mem_devices::MemDisk;
use piece_plan::{EpochPlan, JobPlan};
use plan_places::{Place, cut};
use std::alloc::Global;

/// More epochs than the job of a case has.
pub const MOST_EPOCHS: u64 = 1_000;

/// A job, or a part of one: its identity and its plan.
#[derive(Drop)]
pub struct Job {
    pub identity: Identity,
    pub plan: JobPlan,
    ghost short: { length identity < 2 ^ 62 },
    ghost few: { AreFew plan },
}

/// How a journal was brought on: it was not opened, or so many epochs were kept in it at first and so many at the end, where the next
/// one begins, and whether it failed.
#[derive(Clone, Copy, PartialEq, Eq)]
pub enum Brought {
    Refused(OpenFault),
    Opened {
        first: u64,
        seen: Seen,
        failed: bool,
    },
}

impl Brought {
    /// Whether nothing failed.
    pub fn is_done(&self) -> bool {
        match self {
            Brought::Refused(_) => false,
            Brought::Opened { failed, .. } => !*failed,
        }
    }
}

/// An epoch that was read back, with its cells, and whether they are other ones than those that are made from its range.
#[derive(Drop, PartialEq, Eq)]
pub struct ReadEpoch {
    pub range: EpochPlan,
    pub cells: Vec<Cell>,
    pub other: bool,
}

/// What a reading gives: an epoch, none where all were read, or a fault of the disk.
#[derive(Drop)]
pub enum Reading {
    Epoch(ReadEpoch),
    End,
    Failed,
}

impl Job {
    /// The job of these texts and recordings, with the plan of the line's words.
    pub fn new(
        alloc: Global,
        schedule: &[u8],
        text: &[u8],
        recordings: &[u64],
        rest: &str,
    ) -> Result<Job> {
        let identity = job_identity(alloc, schedule, text, recordings)?;
        if identity.bytes().len() > 1_000_000 {
            bail!("too long a job");
        }
        Ok(Job {
            identity,
            plan: plan_of(alloc, rest)?,
        })
    }

    /// The part of the job that has its integrations from number `from` up to, not including, `to`, counted from 0 through all scans.
    pub fn part(&self, alloc: Global, from: u64, to: u64) -> Result<Job> {
        let _epochs = self.plan.epochs();
        let identity = shard_identity(alloc, &self.identity, from, to)?;
        if identity.bytes().len() > 1_000_000 {
            bail!("too long a job");
        }
        Ok(Job {
            identity,
            plan: self.plan.limited(alloc, from, to)?,
        })
    }

    /// What a look at the disk finds.
    pub fn look(&self, alloc: Global, disk: &mut MemDisk) -> Result<Seen, OpenFault> {
        Journal::look(alloc, disk, &self.identity, &self.plan)
    }

    /// Opens the journal.
    pub fn open(&self, alloc: Global, disk: &mut MemDisk) -> Result<Journal, OpenFault>
        ensures { IfOk result (λ journal. StandsIn self.now.plan journal disk.new) }
    {
        Journal::open_on(alloc, disk, &self.identity, &self.plan)
    }

    /// Opens the journal, and appends epochs of so many samples, at most so many of them, until the disk fails.
    pub fn bring(
        &self,
        alloc: Global,
        disk: &mut MemDisk,
        samples: u64,
        most: u64,
    ) -> Result<Brought> {
        match self.open(alloc, disk) {
            Ok(mut journal) => {
                let first = journal.kept();
                self.append_rest(alloc, disk, &mut journal, samples, most)?;
                Ok(Brought::Opened {
                    first,
                    seen: seen_of(&journal),
                    failed: journal.has_failed(),
                })
            }
            Err(fault) => Ok(Brought::Refused(fault)),
        }
    }

    /// Appends epochs of so many samples until the journal covers the job, at most so many of them, or until the disk fails.
    pub fn append_rest(
        &self,
        alloc: Global,
        disk: &mut MemDisk,
        journal: &mut Journal,
        samples: u64,
        most: u64,
    ) -> Result<()>
        requires stands { StandsIn self.now.plan journal.old disk.old }
    {
        for _ in 0..most {
            let Some(place) = journal.next_place() else {
                break;
            };
            let appended = self.append(alloc, disk, journal, &place, samples)?;
            if appended.is_none() {
                break;
            }
        }
        Ok(())
    }

    /// Appends the next epoch, which begins at this place and has so many samples or goes up to its integration's end. None where the
    /// disk fails.
    pub fn append(
        &self,
        alloc: Global,
        disk: &mut MemDisk,
        journal: &mut Journal,
        at: &Place,
        samples: u64,
    ) -> Result<Option<EpochPlan>>
        requires stands { StandsIn self.now.plan journal.old disk.old }
        requires next { journal.old.end.next ≡ Some at.now }
        ensures stands { IfOk result
            (λ done. IfSome done (λ _. StandsIn self.now.plan journal.new disk.new)) }
    {
        if samples == 0 || samples > 4_194_304 {
            bail!("no such epoch");
        }
        let e = cut(&self.plan, at, samples);
        let cells = cells_of(alloc, &e)?;
        let sums = epoch_sums(alloc, &cells)?;
        match journal.append(disk, &self.plan, &e, &sums) {
            Ok(()) => Ok(Some(e)),
            Err(AppendFault::Disk) => Ok(None),
        }
    }

    /// Reads the next epoch.
    pub fn read(&self, alloc: Global, disk: &mut MemDisk, journal: &mut Journal) -> Result<Reading>
        requires stands { StandsIn self.now.plan journal.old disk.old }
        ensures stands { OnOk result (StandsIn self.now.plan journal.new disk.new) }
    {
        let mut cells = vec![in alloc; Cell::ZERO; 1000]?;
        match journal.read_next(disk, &self.plan, &mut cells) {
            Ok(Some(range)) => {
                cells.truncate(range.cells() as usize);
                let other = cells != cells_of(alloc, &range)?;
                Ok(Reading::Epoch(ReadEpoch {
                    range,
                    cells,
                    other,
                }))
            }
            Ok(None) => Ok(Reading::End),
            Err(ReadFault::Disk) => Ok(Reading::Failed),
        }
    }

    /// Reads all epochs that are left to be read.
    pub fn read_rest(
        &self,
        alloc: Global,
        disk: &mut MemDisk,
        journal: &mut Journal,
    ) -> Result<Vec<ReadEpoch>>
        requires stands { StandsIn self.now.plan journal.old disk.old }
        ensures stands { OnOk result (StandsIn self.now.plan journal.new disk.new) }
    {
        let mut epochs = Vec::new(alloc);
        for _ in 0..MOST_EPOCHS {
            match self.read(alloc, disk, journal)? {
                Reading::Epoch(epoch) => epochs.push(epoch)?,
                Reading::End => break,
                Reading::Failed => bail!("the disk failed"),
            }
        }
        Ok(epochs)
    }

    /// Goes back to the first epoch, and reads all.
    pub fn read_again(
        &self,
        alloc: Global,
        disk: &mut MemDisk,
        journal: &mut Journal,
    ) -> Result<Vec<ReadEpoch>>
        requires stands { StandsIn self.now.plan journal.old disk.old }
        ensures stands { OnOk result (StandsIn self.now.plan journal.new disk.new) }
    {
        journal.rewind();
        self.read_rest(alloc, disk, journal)
    }
}

/// What a journal keeps.
pub fn seen_of(journal: &Journal) -> Seen {
    Seen {
        kept: journal.kept(),
        next: journal.next_place(),
    }
}

/// A disk with these bytes.
pub fn disk_of(alloc: Global, bytes: &[u8]) -> Result<MemDisk> {
    let file = bytes.to_vec(alloc)?;
    Ok(MemDisk::new(alloc, file, Vec::new(alloc), None)?)
}

/// A disk with these bytes of which one call fails.
pub fn failing_disk(alloc: Global, bytes: &[u8], call: u64) -> Result<MemDisk> {
    let failing = vec![in alloc; call]?;
    Ok(MemDisk::new(alloc, bytes.to_vec(alloc)?, failing, None)?)
}

/// A disk with these bytes that stops after so many calls.
pub fn stopped_disk(alloc: Global, bytes: &[u8], stop: u64) -> Result<MemDisk> {
    Ok(MemDisk::new(alloc, bytes.to_vec(alloc)?, Vec::new(alloc), Some(stop))?)
}
