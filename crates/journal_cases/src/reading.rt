//! What is read back of a journal.
ghost use Rattle.std.specs.Prelude.{OnOk};
ghost use Rattle.journal_cases.specs.Standing.{StandsIn};

use crate::answer::{RangeWords, SeenWords, cells_words, epochs_words, fault_words};
use crate::job::{Job, MOST_EPOCHS, ReadEpoch, Reading, disk_of, failing_disk, seen_of};
use anyhow::{Result, bail};
use checkpoint_journal::{Journal, OpenFault};
use mem_devices::MemDisk;
use std::alloc::Global;
use std::fmt::Write;

// More calls of a disk than a case makes.
const MOST_CALLS: u64 = 1_000;

/// Prints the epochs of the journal on a disk with their cells, and what is read when the reading begins anew.
pub fn print_read(rt: &impl Print, alloc: Global, job: &Job, disk: &mut MemDisk) -> Result<()> {
    match job.open(alloc, disk) {
        Ok(mut journal) => {
            println!(rt; "read {}", SeenWords(seen_of(&journal)))?;
            let epochs = job.read_rest(alloc, disk, &mut journal)?;
            for epoch in &epochs {
                println!(rt; "  {}", cells_words(alloc, epoch)?)?;
            }
            let again = job.read_again(alloc, disk, &mut journal)?;
            if again == epochs {
                println!(rt; "  again: the same")?;
            } else {
                println!(rt; "  again{}", epochs_words(alloc, &again)?)?;
            }
        }
        Err(fault) => println!(rt; "read: {}", fault_words(alloc, fault)?)?,
    }
    Ok(())
}

/// Prints what is appended to the journal on a disk and read back by turns, until it covers the job.
pub fn print_mixed(
    rt: &impl Print,
    alloc: Global,
    job: &Job,
    disk: &mut MemDisk,
    samples: u64,
) -> Result<()> {
    match job.open(alloc, disk) {
        Ok(mut journal) => {
            println!(rt; "mixed {}", SeenWords(seen_of(&journal)))?;
            print!(rt; "{}", mixed_words(alloc, job, disk, &mut journal, samples)?)?;
            let rest = job.read_rest(alloc, disk, &mut journal)?;
            println!(rt; "  then read{}", epochs_words(alloc, &rest)?)?;
            let all = job.read_again(alloc, disk, &mut journal)?;
            println!(rt; "  again{}", epochs_words(alloc, &all)?)?;
        }
        Err(fault) => println!(rt; "mixed: {}", fault_words(alloc, fault)?)?,
    }
    Ok(())
}

// Each epoch that is appended, and the one that is read behind it, in words.
fn mixed_words(
    alloc: Global,
    job: &Job,
    disk: &mut MemDisk,
    journal: &mut Journal,
    samples: u64,
) -> Result<String>
    requires stands { StandsIn job.now.plan journal.old disk.old }
    ensures stands { OnOk result (StandsIn job.now.plan journal.new disk.new) }
{
    let mut words = String::new(alloc);
    for _ in 0..MOST_EPOCHS {
        let Some(place) = journal.next_place() else {
            break;
        };
        let Some(appended) = job.append(alloc, disk, journal, &place, samples)? else {
            bail!("the disk failed");
        };
        let Reading::Epoch(epoch) = job.read(alloc, disk, journal)? else {
            bail!("nothing is read");
        };
        let range = RangeWords(epoch.range);
        writeln!(words, "  appended {}, read {range}", RangeWords(appended))?;
    }
    Ok(words)
}

/// Prints the epochs of the journal in a file, and whether they are read behind each fault of the disk as well.
pub fn print_retried(rt: &impl Print, alloc: Global, job: &Job, file: &[u8]) -> Result<()> {
    let mut disk = disk_of(alloc, file)?;
    let Ok(mut journal) = job.open(alloc, &mut disk) else {
        bail!("the journal is not opened");
    };
    let epochs = job.read_rest(alloc, &mut disk, &mut journal)?;
    print!(rt; "retried{}", epochs_words(alloc, &epochs)?)?;
    let mut faults = 0u64;
    for call in 0..MOST_CALLS {
        let mut disk = failing_disk(alloc, file, call)?;
        match job.open(alloc, &mut disk) {
            Ok(mut journal) => {
                let retried = retry(alloc, job, &mut disk, &mut journal)?;
                if retried.epochs != epochs {
                    println!(rt;
                        ", behind fault {call}{}",
                        epochs_words(alloc, &retried.epochs)?
                    )?;
                    return Ok(());
                }
                if retried.faults == 0 {
                    break;
                }
                faults = faults.saturating_add(retried.faults);
            }
            Err(OpenFault::Disk) => {}
            Err(_) => bail!("the journal is not opened"),
        }
    }
    let end = if faults == 0 {
        ", without a fault"
    } else {
        ", behind each fault the same"
    };
    println!(rt; "{end}")?;
    Ok(())
}

// What was read of a journal, and how often the disk failed.
#[derive(Drop)]
struct Retried {
    epochs: Vec<ReadEpoch>,
    faults: u64,
}

// Reads all epochs, each again where the disk fails.
fn retry(alloc: Global, job: &Job, disk: &mut MemDisk, journal: &mut Journal) -> Result<Retried>
    requires stands { StandsIn job.now.plan journal.old disk.old }
{
    let mut retried = Retried {
        epochs: Vec::new(alloc),
        faults: 0,
    };
    for _ in 0..MOST_EPOCHS {
        match job.read(alloc, disk, journal)? {
            Reading::Epoch(epoch) => retried.epochs.push(epoch)?,
            Reading::End => break,
            Reading::Failed => retried.faults = retried.faults.saturating_add(1),
        }
    }
    Ok(retried)
}
