//! Calls of the program over files and a journal in memory.

use anyhow::{Result, bail};
use case_answers::Answer;
use dev_traits::{Disk, Gate, Shelf};
use meet_devices::{NotingGate, Told, meet};
use mem_devices::{CountingGate, MemDisk, MemShelf, MemSink};
use std::alloc::Global;
use std::thread::Threads;
use std::time::Clock;
use vlbi_core::run;

/// A device that may fail: the shelf, the journal's disk, or the output.
#[derive(Clone, Copy, PartialEq, Eq)]
pub enum Device {
    Shelf,
    Disk,
    Output,
}

impl Device {
    /// The device of that name.
    pub fn named(name: &str) -> Result<Device> {
        match name {
            "shelf" => Ok(Device::Shelf),
            "disk" => Ok(Device::Disk),
            "output" => Ok(Device::Output),
            _ => bail!("no such device"),
        }
    }

    /// What one of its calls is named.
    pub fn call_name(self) -> &'static str {
        match self {
            Device::Shelf => "read",
            Device::Disk => "disk call",
            Device::Output => "write",
        }
    }
}

/// The calls of the devices that fail: those of the shelf, of the journal's disk, and the writes of the output, of which one
/// takes so many bytes; and after how many calls the disk stops, if it does.
#[derive(Drop)]
pub struct Faults {
    pub reads: Vec<u64>,
    pub disk: Vec<u64>,
    pub writes: Vec<u64>,
    pub most: usize,
    pub stop: Option<u64>,
}

impl Faults {
    /// None, with an output that takes so many bytes in one write.
    pub fn none(alloc: Global, most: usize) -> Faults {
        Faults {
            reads: Vec::new(alloc),
            disk: Vec::new(alloc),
            writes: Vec::new(alloc),
            most,
            stop: None,
        }
    }

    /// That one call of a device, with such an output.
    pub fn one(alloc: Global, most: usize, device: Device, number: u64) -> Result<Faults> {
        let mut faults = Faults::none(alloc, most);
        match device {
            Device::Shelf => faults.reads.push(number)?,
            Device::Disk => faults.disk.push(number)?,
            Device::Output => faults.writes.push(number)?,
        }
        Ok(faults)
    }
}

/// What a call with these words answers, how many pieces passed the gate, and the journal's disk after it.
#[derive(Drop)]
pub struct Called {
    pub answer: Answer,
    pub pieces: u64,
    pub disk: MemDisk,
}

/// What a call is given: its words, the files of its shelf, and the bytes that its journal begins with.
#[derive(Drop)]
pub struct Given<'a> {
    pub words: &'a [String],
    pub files: Vec<(String, Vec<u8>)>,
    pub journal: &'a [u8],
}

/// Calls the program.
pub fn call<R: Threads + Sync>(
    rt: &R,
    alloc: Global,
    given: Given,
    faults: Faults,
) -> Result<Called> {
    let mut disk = MemDisk::new(
        alloc,
        given.journal.to_vec(alloc)?,
        faults.disk,
        faults.stop,
    )?;
    let mut shelf = MemShelf::new(given.files, faults.reads);
    let mut out = MemSink::new(alloc, faults.most.max(1), faults.writes);
    let gate = CountingGate::new();
    let words = given.words;
    let answer = answered(rt, alloc, words, &mut shelf, &mut disk, &mut out, &gate)?;
    Ok(Called {
        answer,
        pieces: gate.calls(),
        disk,
    })
}

/// Where the refusal came, in a program one of whose allocations is refused: before a call or behind it, with how often memory was
/// taken there until then; or in it, or nowhere, with whether the journal's disk and the output say that their last call found no memory,
/// and the disk.
#[derive(Drop)]
pub enum Refused {
    Before(u64),
    Behind(u64, Answer),
    Elsewhere {
        answer: Answer,
        journal: bool,
        output: bool,
        disk: MemDisk,
    },
}

/// Takes memory so many times, calls the program, and takes memory again. So an allocation that is refused by its number is one of the
/// call, whichever the numbers are that go before.
pub fn call_refused<R: Threads + Sync>(
    rt: &R,
    alloc: Global,
    given: Given,
    times: u64,
) -> Result<Refused> {
    let mut disk = MemDisk::new(alloc, given.journal.to_vec(alloc)?, Vec::new(alloc), None)?;
    let mut shelf = MemShelf::new(given.files, Vec::new(alloc));
    let mut out = MemSink::new(alloc, 1_000_000, Vec::new(alloc));
    let mut notes = MemSink::new(alloc, 4096, Vec::new(alloc));
    let gate = CountingGate::new();
    let before = take_memory(alloc, times);
    if before < times {
        return Ok(Refused::Before(before));
    }
    let status = run(
        rt,
        alloc,
        given.words,
        &mut shelf,
        &mut disk,
        &mut out,
        &mut notes,
        &gate,
    );
    let behind = take_memory(alloc, MOST_BEHIND);
    let answer = Answer {
        status,
        note: notes.bytes().to_vec(alloc)?,
        output: out.bytes().to_vec(alloc)?,
    };
    if behind < MOST_BEHIND {
        return Ok(Refused::Behind(behind, answer));
    }
    Ok(Refused::Elsewhere {
        answer,
        journal: disk.refused(),
        output: out.refused(),
        disk,
    })
}

// More than the number of an allocation that is refused.
const MOST_BEHIND: u64 = 10_000;

// Takes memory and gives it back so many times, or until it is refused; answers how often there was some.
fn take_memory(alloc: Global, times: u64) -> u64 {
    for number in 0..times {
        let mut block = Vec::new(alloc);
        if block.push(0u8).is_err() {
            return number;
        }
    }
    times
}

/// Calls the program with these words, over these files and an empty journal. Once the journal is written to, the first read
/// past byte `from` of a file and the first piece wait for one another. Answers what the call answers, and whether they met.
pub fn call_meeting<R: Threads + Sync>(
    rt: &R,
    alloc: Global,
    words: &[String],
    files: Vec<(String, Vec<u8>)>,
    from: u64,
) -> Result<(Answer, bool)> {
    let (mut shelf, mut disk, gate) = meet(alloc, files, from)?;
    let mut out = MemSink::new(alloc, 1_000_000, Vec::new(alloc));
    let answer = answered(rt, alloc, words, &mut shelf, &mut disk, &mut out, &gate)?;
    Ok((answer, gate.met()))
}

/// Calls the program with these words, over these files and an empty journal. The first pieces are held until so many have come.
/// Answers what the call answers, and what the gate was told, up to a thousand pieces.
pub fn call_noted<R: Threads + Clock + Sync>(
    rt: &R,
    alloc: Global,
    words: &[String],
    files: Vec<(String, Vec<u8>)>,
    together: u64,
) -> Result<(Answer, Vec<Told>)> {
    let mut disk = MemDisk::new(alloc, Vec::new(alloc), Vec::new(alloc), None)?;
    let mut shelf = MemShelf::new(files, Vec::new(alloc));
    let mut out = MemSink::new(alloc, 1_000_000, Vec::new(alloc));
    let gate = NotingGate::new(alloc, rt, together, 1000)?;
    let answer = answered(rt, alloc, words, &mut shelf, &mut disk, &mut out, &gate)?;
    let told = gate.told(alloc)?;
    Ok((answer, told))
}

// What a call over these devices answers.
fn answered<R: Threads + Sync, F: Shelf + Send, D: Disk + Send, G: Gate + Sync>(
    rt: &R,
    alloc: Global,
    words: &[String],
    shelf: &mut F,
    disk: &mut D,
    out: &mut MemSink,
    gate: &G,
) -> Result<Answer> {
    let mut notes = MemSink::new(alloc, 4096, Vec::new(alloc));
    let status = run(rt, alloc, words, shelf, disk, out, &mut notes, gate);
    Ok(Answer {
        status,
        note: notes.bytes().to_vec(alloc)?,
        output: out.bytes().to_vec(alloc)?,
    })
}
