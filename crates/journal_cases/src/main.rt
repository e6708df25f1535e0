//! Cases of the journal of a job whose records carry the range of their epoch. Standard input describes jobs and files, and asks what
//! the journal is in such a file, what is appended to it and read back, and what it keeps after each stop and fault of the disk; the
//! answers are printed. The head of the file `stdin` says what the lines mean.
#![tactic(auto)]

mod answer;
mod board;
mod broken;
mod cases;
mod epoch;
mod job;
mod old;
mod plan;
mod reading;
mod table;
mod texts;

use crate::cases::Cases;
use anyhow::Result;
use case_texts::read_table;

fn main(rt: HostRuntime) -> Result<()> {
    let mut cases = Cases::new(rt.alloc());
    read_table(&rt, |line| cases.read(&rt, line.word, line.rest))
}
