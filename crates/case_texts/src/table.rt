//! Tables of cases, as they stand on standard input.

use crate::lines::{Answers, told};
use crate::pieces::Pieces;
use anyhow::{Result, bail};
use std::io::{BufRead, BufReader};

/// A line of a table: the whole of it, its first word, and the text behind the blank that ends the word.
#[derive(Clone, Copy)]
pub struct Line<'a> {
    pub whole: &'a str,
    pub word: &'a str,
    pub rest: &'a str,
}

/// Reads standard input line by line, and hands on each line that is neither blank nor a comment, which begins with `#`.
/// It ends at the first fault, and tells it with the number of its line.
pub fn read_table<R: Input + AllocGlobal, F: FnMut(Line<'_>) -> Result<()>>(
    rt: &R,
    mut read: F,
) -> Result<()>
    requires { F.IsAlwaysCallable read }
{
    let mut number = 0u64;
    for line in BufReader::new(rt.alloc(), rt.reader())?.lines(rt.alloc()) {
        number = number.saturating_add(1);
        let line = line?;
        let whole = line.as_str();
        if whole.is_empty() || whole.starts_with('#') {
            continue;
        }
        let (word, rest) = whole.split_once(' ').unwrap_or((whole, ""));
        if let Err(fault) = read(Line { whole, word, rest }) {
            bail!("line {number}: {fault}");
        }
    }
    Ok(())
}

/// Prints each line of a table of texts that asks something, with the answer behind it; the other lines have the pieces of the texts.
pub fn print_answers<R: Input + Print + AllocGlobal, A: Answers>(
    rt: &R,
    answers: &A,
) -> Result<()> {
    let mut pieces = Pieces::new(rt.alloc());
    read_table(rt, |line| {
        if let Some(told) = told(rt.alloc(), &mut pieces, line, answers)? {
            println!(rt; "{}: {told}", line.whole)?;
        }
        Ok(())
    })
}
