//! Cases of the devices of the operating system: disks, shelves and sinks over real files and writers, and over files and a writer that fall
//! short or fail. Each line of standard input is printed with what it answers. The head of the file `stdin` says what the lines mean.
#![tactic(auto)]

mod answer;
mod calls;
mod devices;
mod slow;
mod writers;

use crate::answer::print_answer;
use crate::devices::Devices;
use anyhow::Result;
use case_texts::read_table;

fn main(rt: HostRuntime) -> Result<()> {
    let mut devices = Devices::new(&rt);
    read_table(&rt, |line| {
        let answer = devices.answer(line.word, line.rest)?;
        print_answer(&rt, rt.alloc(), line.whole, answer, &devices.buf)
    })
}
