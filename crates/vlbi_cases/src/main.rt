//! Cases of whole calls. Standard input describes files in memory and calls of the program over them; the status, the note
//! and the output of each call are printed. The head of the file `stdin` says what the lines mean.
#![tactic(auto)]

mod calls;
mod cases;

use crate::cases::Cases;
use anyhow::Result;
use case_texts::read_table;

fn main(rt: HostRuntime) -> Result<()> {
    let mut cases = Cases::new(rt.alloc());
    read_table(&rt, |line| cases.read(&rt, line.word, line.rest))
}
