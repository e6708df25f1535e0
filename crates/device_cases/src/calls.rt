//! Calls of disks, shelves and sinks.

use crate::answer::{Answer, FAILED, NO_FILE, done, number, print_answer, read};
use anyhow::{Context, Result, bail};
use dev_traits::{Disk, Shelf, Sink, write_all};
use std::alloc::Global;

/// What a disk answers to a call; a write is one of the buffer.
pub fn disk_answer<D: Disk>(disk: &mut D, call: &str, buf: &mut [u8]) -> Result<Answer> {
    let Some((word, at)) = call.split_once(' ') else {
        return match call {
            "len" => Ok(number(disk.len())),
            "sync" => Ok(done(disk.sync())),
            _ => bail!("no such call of a disk"),
        };
    };
    let at = at.parse::<u64>()?;
    match word {
        "read" => Ok(read(disk.read_at(at, buf))),
        "write" if at < 100 && buf.len() < 100 => Ok(done(disk.write_at(at, buf))),
        "cut" => Ok(done(disk.cut(at))),
        _ => bail!("no such call of a disk"),
    }
}

/// The size of a file on a shelf, or where a place stands behind its name what a read from there answers.
pub fn shelf_answer<F: Shelf>(shelf: &mut F, file: &str, buf: &mut [u8]) -> Result<Answer> {
    if let Some((name, at)) = file.split_once(' ') {
        return Ok(read(shelf.read_at(name, at.parse::<u64>()?, buf)));
    }
    Ok(match shelf.size(file) {
        Ok(Some(size)) => Answer::Number(size),
        Ok(None) => NO_FILE,
        Err(_) => FAILED,
    })
}

/// Prints what a sink answers to calls, one after another: to `all` bytes, or to one write of the first so many of them.
pub fn print_writes<S: Sink>(
    rt: &impl Print,
    alloc: Global,
    sink: &mut S,
    calls: &str,
    bytes: &[u8],
) -> Result<()> {
    for call in calls.split(' ') {
        let answer = if call == "all" {
            done(write_all(sink, bytes))
        } else {
            let front = bytes.get(..call.parse::<usize>()?).context("more bytes")?;
            match sink.write(front) {
                Ok(n) => Answer::Number(n as u64),
                Err(_) => FAILED,
            }
        };
        print_answer(rt, alloc, call, answer, bytes)?;
    }
    Ok(())
}
