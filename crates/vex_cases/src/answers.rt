//! What is asked of a text.

ghost use Rattle.std.specs.Prelude.{◌+◌, ◌≤◌, length, All};

use crate::files::{put_file, put_places};
use crate::scans::put_scans;
use anyhow::{Result, bail};
use case_texts::{Answers, Marked, put_text};
use std::alloc::{AllocError, Global};
use std::fmt::Debug;
use vex_lex::{Token, tokens};
use vex_reader::read;
use vex_schedule::schedule;

/// What is asked of texts of schedules.
#[derive(Clone, Copy)]
pub struct Schedules;

impl Answers for Schedules {
    fn answer(&self, alloc: Global, word: &str, text: &Marked) -> Result<String> {
        let mut out = String::new(alloc);
        match word {
            "tokens" => match tokens(alloc, &text.bytes) {
                Ok(tokens) => put_tokens(alloc, &mut out, &tokens)?,
                Err(fault) => put_fault(alloc, &mut out, fault.kind, fault.at, text)?,
            },
            "texts" => {
                let tokens = tokens(alloc, &text.bytes)?;
                put_texts(alloc, &mut out, &text.bytes, &tokens)?;
            }
            "read" => match read(alloc, &text.bytes) {
                Ok(file) => put_file(alloc, &mut out, &file)?,
                Err(fault) => put_fault(alloc, &mut out, fault.kind, fault.at, text)?,
            },
            "places" => put_places(alloc, &mut out, &read(alloc, &text.bytes)?)?,
            "schedule" => put_schedule(alloc, &mut out, text)?,
            _ => bail!("no such line"),
        }
        Ok(out)
    }
}

// The kind of a fault and its place: the marked one, or its byte.
fn put_fault(
    alloc: Global,
    out: &mut String,
    kind: impl Debug + Drop,
    at: u64,
    text: &Marked,
) -> Result<(), AllocError> {
    let told = if text.mark == Some(at) {
        format!(in alloc; "{kind:?} at @")?
    } else {
        format!(in alloc; "{kind:?} at byte {at}")?
    };
    out.push_str(told.as_str())
}

fn put_tokens(alloc: Global, out: &mut String, tokens: &[Token]) -> Result<(), AllocError> {
    for token in tokens {
        let (kind, at, len) = (token.kind, token.at, token.len);
        out.push_str(format!(in alloc; "{kind:?} {at} {len}, ")?.as_str())?;
    }
    Ok(())
}

// The texts of some tokens, each in brackets.
fn put_texts(
    alloc: Global,
    out: &mut String,
    text: &[u8],
    tokens: &[Token],
) -> Result<(), AllocError>
    requires { All (λ token. token.at + token.len ≤ length text.now) tokens.now }
{
    for token in tokens {
        out.push('[')?;
        put_text(alloc, out, token.text(text))?;
        out.push(']')?;
    }
    Ok(())
}

fn put_schedule(alloc: Global, out: &mut String, text: &Marked) -> Result<(), AllocError> {
    let file = match read(alloc, &text.bytes) {
        Ok(file) => file,
        Err(fault) => return put_fault(alloc, out, fault.kind, fault.at, text),
    };
    match schedule(alloc, &file) {
        Ok(list) => put_scans(alloc, out, &list),
        Err(fault) => put_fault(alloc, out, fault.kind, fault.at, text),
    }
}
