//! Readers, and what they answer to broken texts.
ghost use Rattle.std.specs.Prelude.{◌≤◌, length};

use crate::way::Way;
use anyhow::Result;
use std::alloc::Global;

/// What reads a text.
pub trait Reader {
    /// What it answers to a text, in one line.
    fn answer(&mut self, alloc: Global, text: &[u8]) -> Result<String>;
}

/// Prints the length of a text, and what a reader answers to each prefix of it, the whole among them, and to the text with
/// each byte changed to 0, to 255 and to one more. Equal answers to texts in a row are one line: `00 at 3 to 9: ..`.
pub fn print_broken<R: Reader>(
    rt: &impl Print,
    alloc: Global,
    reader: &mut R,
    name: &str,
    text: &[u8],
) -> Result<()> {
    println!(rt; "broken {name}, {} bytes", text.len())?;
    print_runs(rt, alloc, reader, Way::Cut, text, text.len())?;
    if let Some(last) = text.len().checked_sub(1) {
        for way in [Way::Zero, Way::Full, Way::More] {
            print_runs(rt, alloc, reader, way, text, last)?;
        }
    }
    Ok(())
}

// Prints the answers to the text broken at the places from 0 to the last.
fn print_runs<R: Reader>(
    rt: &impl Print,
    alloc: Global,
    reader: &mut R,
    way: Way,
    text: &[u8],
    last: usize,
) -> Result<()>
    requires { last ≤ length text.now }
{
    let mut from = 0;
    let mut answer = reader.answer(alloc, &way.broken(alloc, text, 0)?)?;
    for place in 0..last {
        let next = reader.answer(alloc, &way.broken(alloc, text, place + 1)?)?;
        if next != answer {
            print_run(rt, way, from, place, &answer)?;
            from = place + 1;
            answer = next;
        }
    }
    print_run(rt, way, from, last, &answer)
}

// Prints the answer to the text broken at the places of a run.
fn print_run(rt: &impl Print, way: Way, from: usize, to: usize, answer: &str) -> Result<()> {
    print!(rt; "{} {from}", way.word())?;
    if from < to {
        print!(rt; " to {to}")?;
    }
    println!(rt; ": {answer}")?;
    Ok(())
}
