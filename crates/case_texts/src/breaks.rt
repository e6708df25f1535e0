//! Texts that are broken.

use crate::lines::Answers;
use crate::pieces::Marked;
use crate::runs::Runs;
use anyhow::Result;
use broken_texts::Way;
use std::alloc::Global;

/// The answer to what a word asks of a text, and below it, in runs, those to the text broken: to each front of it, whose end is marked, and
/// to the text with each byte, which is marked, set to 00, to FF and to the next one.
pub fn broken<A: Answers>(alloc: Global, word: &str, text: &[u8], answers: &A) -> Result<String> {
    let whole = Marked {
        bytes: Vec::from_slice(alloc, text)?,
        mark: None,
    };
    let mut runs = Runs::new(alloc, answers.answer(alloc, word, &whole)?)?;
    for way in [Way::Cut, Way::Zero, Way::Full, Way::More] {
        put_broken(alloc, &mut runs, word, text, answers, way)?;
    }
    Ok(runs.told())
}

// The same in one way.
fn put_broken<A: Answers>(
    alloc: Global,
    runs: &mut Runs,
    word: &str,
    text: &[u8],
    answers: &A,
    way: Way,
) -> Result<()> {
    for at in 0..text.len() {
        let broken = Marked {
            bytes: way.broken(alloc, text, at)?,
            mark: Some(at as u64),
        };
        runs.put(way.word(), at, answers.answer(alloc, word, &broken)?)?;
    }
    runs.close(way.word())
}
