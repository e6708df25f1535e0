//! Cases of the index of a station's frames. Standard input describes files, byte by byte or frame by frame,
//! and asks for their index on a shelf in memory, on one that reads real files, or on one that gives too little;
//! each answer is printed behind its line. The head of the file `stdin` says what the lines mean.
#![tactic(auto)]

mod broken;
mod bytes;
mod cases;
mod shapes;
mod short;
mod sizes;

use crate::cases::Cases;
use anyhow::Result;
use case_texts::read_table;

fn main(rt: HostRuntime) -> Result<()> {
    let mut cases = Cases::new(rt.alloc());
    read_table(&rt, |line| {
        if line.word == "disk" {
            cases.index_on_disk(&rt, line.rest)
        } else {
            cases.read(&rt, line.word, line.rest)
        }
    })
}
