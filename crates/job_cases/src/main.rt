//! Cases of the crate that reads jobs. Each line of standard input is a text and what is asked of it, and is printed with
//! the answer. The head of the file `stdin` says what the lines mean.
#![tactic(auto)]

mod answers;
mod jobs;

use crate::answers::Jobs;
use anyhow::Result;
use case_texts::print_answers;

fn main(rt: HostRuntime) -> Result<()> {
    print_answers(&rt, &Jobs)
}
