//! What is asked of a text.

use crate::jobs::put_job;
use anyhow::{Result, bail};
use case_texts::{Answers, Marked};
use job_text::read_job;
use std::alloc::Global;

/// What is asked of texts of jobs.
#[derive(Clone, Copy)]
pub struct Jobs;

impl Answers for Jobs {
    fn answer(&self, alloc: Global, word: &str, text: &Marked) -> Result<String> {
        match word {
            "job" => told_job(alloc, &text.bytes, false),
            "inline" => told_job(alloc, &text.bytes, true),
            _ => bail!("no such line"),
        }
    }
}

fn told_job(alloc: Global, text: &[u8], inline: bool) -> Result<String> {
    if text.len() > u32::MAX as usize {
        bail!("too long a text");
    }
    match read_job(alloc, text, inline) {
        Ok(job) => {
            let mut out = String::new(alloc);
            put_job(alloc, &mut out, &job)?;
            Ok(out)
        }
        Err(fault) => Ok(format!(in alloc; "{fault}")?),
    }
}
