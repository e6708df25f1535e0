//! Answers, as they are printed.

use anyhow::Result;
use dev_traits::Failed;
use hex::encode;
use std::alloc::Global;

/// What a call answered: a word, a number, or how many bytes of the buffer a read has filled.
#[derive(Clone, Copy)]
pub enum Answer {
    Word(&'static str),
    Number(u64),
    Read(usize),
}

pub const DONE: Answer = Answer::Word("done");

pub const FAILED: Answer = Answer::Word("failed");

pub const NO_FILE: Answer = Answer::Word("no file");

/// The answer of a call that gives nothing.
pub fn done(answer: std::result::Result<(), Failed>) -> Answer {
    match answer {
        Ok(()) => DONE,
        Err(_) => FAILED,
    }
}

/// The answer of a call that gives a number.
pub fn number(answer: std::result::Result<u64, Failed>) -> Answer {
    match answer {
        Ok(n) => Answer::Number(n),
        Err(_) => FAILED,
    }
}

/// The answer of a read.
pub fn read(answer: std::result::Result<usize, Failed>) -> Answer {
    match answer {
        Ok(n) => Answer::Read(n),
        Err(_) => FAILED,
    }
}

/// Prints a line with its answer, and behind that of a read the buffer.
pub fn print_answer(
    rt: &impl Print,
    alloc: Global,
    line: &str,
    answer: Answer,
    buf: &[u8],
) -> Result<()> {
    match answer {
        Answer::Word(word) => println!(rt; "{line}: {word}")?,
        Answer::Number(n) => println!(rt; "{line}: {n}")?,
        Answer::Read(n) => println!(rt; "{line}: {n} [{}]", encode(alloc, buf)?)?,
    }
    Ok(())
}
