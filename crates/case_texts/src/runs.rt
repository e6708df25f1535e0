//! Runs of equal answers.

use anyhow::Result;
use std::alloc::{AllocError, Global};

/// The answer to a text and what was told below it so far, and the run that goes on: the places from its first to its last, and their answer.
#[derive(Drop)]
pub struct Runs {
    alloc: Global,
    whole: String,
    told: String,
    run: Option<Run>,
}

#[derive(Drop)]
struct Run {
    first: usize,
    last: usize,
    answer: String,
}

impl Runs {
    pub fn new(alloc: Global, whole: String) -> Result<Runs, AllocError> {
        Ok(Runs {
            alloc,
            told: whole.clone()?,
            whole,
            run: None,
        })
    }

    /// What was told.
    pub fn told(self) -> String {
        self.told
    }

    /// Adds the answer at the next place, under the name that the runs before it have.
    pub fn put(&mut self, name: &str, at: usize, answer: String) -> Result<()> {
        if let Some(run) = &mut self.run
            && run.answer == answer
        {
            run.last = at;
            return Ok(());
        }
        self.close(name)?;
        self.run = Some(Run {
            first: at,
            last: at,
            answer,
        });
        Ok(())
    }

    /// Tells the run that goes on.
    pub fn close(&mut self, name: &str) -> Result<()> {
        let Some(run) = self.run.take() else {
            return Ok(());
        };
        let line = format!(in self.alloc; "\n  {name} {}", run.first)?;
        self.told.push_str(line.as_str())?;
        if run.first < run.last {
            self.told
                .push_str(format!(in self.alloc; " to {}", run.last)?.as_str())?;
        }
        self.told.push_str(": ")?;
        put_difference(
            self.alloc,
            &mut self.told,
            self.whole.as_str(),
            run.answer.as_str(),
        )
    }
}

// The words between blanks in which an answer differs from that of the whole text, and the places of those in whose stead
// they stand; the answer itself where it shares no word with it at either end.
fn put_difference(alloc: Global, out: &mut String, whole: &str, answer: &str) -> Result<()> {
    if whole == answer {
        out.push_str("the same")?;
        return Ok(());
    }
    let (old, new) = (whole.split(' ').count(), answer.split(' ').count());
    let front = alike_in_front(whole, answer);
    let most = old.min(new).saturating_sub(front);
    let back = alike_behind(whole, answer).min(most);
    let shared = front.saturating_add(back);
    if shared == 0 {
        out.push_str(answer)?;
        return Ok(());
    }
    let end = old.saturating_sub(back);
    if shared == new {
        out.push_str(format!(in alloc; "without {front}..{end}")?.as_str())?;
        return Ok(());
    }
    out.push_str(format!(in alloc; "{front}..{end} is")?.as_str())?;
    put_words(out, answer, front, new.saturating_sub(shared))
}

// How many words two texts begin with alike.
fn alike_in_front(one: &str, other: &str) -> usize {
    let pairs = one.split(' ').zip(other.split(' '));
    pairs.take_while(|(a, b)| a == b).count()
}

// How many words two texts end with alike.
fn alike_behind(one: &str, other: &str) -> usize {
    let pairs = one.rsplit(' ').zip(other.rsplit(' '));
    pairs.take_while(|(a, b)| a == b).count()
}

// The words from a place on, so many of them, each behind a blank.
fn put_words(out: &mut String, text: &str, front: usize, count: usize) -> Result<()> {
    for word in text.split(' ').skip(front).take(count) {
        out.push(' ')?;
        out.push_str(word)?;
    }
    Ok(())
}
