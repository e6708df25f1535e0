//! Lines of a table.

use crate::breaks::broken;
use crate::pieces::{Marked, Pieces};
use crate::table::Line;
use anyhow::{Context, Result};
use std::alloc::Global;

/// What answers texts.
pub trait Answers {
    /// The answer to what a word asks of a text; a fault at the marked byte is told as one at `@`.
    fn answer(&self, alloc: Global, word: &str, text: &Marked) -> Result<String>;
}

/// The answer to a line: to what its first word asks of the text behind it, and behind `broken` that of the text broken too. None of a line
/// that has a piece, which is kept.
pub fn told<A: Answers>(
    alloc: Global,
    pieces: &mut Pieces,
    line: Line<'_>,
    answers: &A,
) -> Result<Option<String>> {
    if pieces.keep(alloc, line.whole)? {
        return Ok(None);
    }
    if line.word != "broken" {
        let text = pieces.text(alloc, line.rest)?;
        return Ok(Some(answers.answer(alloc, line.word, &text)?));
    }
    let (word, rest) = line.rest.split_once(' ').context("a word behind broken")?;
    let text = pieces.text(alloc, rest)?;
    Ok(Some(broken(alloc, word, &text.bytes, answers)?))
}
