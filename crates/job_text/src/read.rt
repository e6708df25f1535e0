//! The job of a text.
ghost use Rattle.std.specs.Prelude.{◌≡◌, ◌<◌, ◌^◌, [], length, IfOk, OnOk, MatchResult};
ghost use Rattle.std.specs.Str.Lines.{lines};
ghost use Rattle.job_text.specs.{Said.{said_by}, Answer.{Gives, Reads, job_in}, Sound.{IsSaid}, Ranges.{IsJob}, Numbers.{job_from}};

use crate::draft::Draft;
use crate::fault::{JobFault, JobKind};
use crate::job::Job;
use crate::numbers::Numbers;
use crate::rows::take_line;
use job_lines::Lines;
use std::alloc::Global;

// Takes the lines of a text.
fn take_lines(alloc: Global, draft: &mut Draft, text: &[u8], inline: bool) -> Result<(), JobFault>
    requires short { length text.now < 2 ^ 32 }
    requires empty { draft.old ≡ said_by [] }
    ensures read { Reads inline (lines text.now) result draft.new }
    ensures sound { OnOk result (IsSaid draft.new) }
{
    let mut left = Lines::of(text);
    let mut number = 0;
    'lines: while let Some(line) = left.next_line() {
        number += 1;
        take_line(alloc, draft, inline, line, number)?;
    }
    Ok(())
}

// Takes the lines of a text, and gives its job's numbers.
fn take_text(
    alloc: Global,
    draft: &mut Draft,
    text: &[u8],
    inline: bool,
) -> Result<Numbers, JobFault>
    requires short { length text.now < 2 ^ 32 }
    requires empty { draft.old ≡ said_by [] }
    ensures value { MatchResult result (λ numbers. Gives (Ok (job_from draft.new numbers)) (job_in inline text.now)) (λ fault. Gives (Err fault) (job_in inline text.now)) }
    ensures sound { IfOk result (λ numbers. IsJob (job_from draft.new numbers)) }
{
    take_lines(alloc, draft, text, inline)?;
    match draft.numbers(inline) {
        Some(numbers) => Ok(numbers),
        None => Err(JobFault {
            kind: JobKind::Missing,
            line: 0,
        }),
    }
}

/// The job of a text, which is read beside a schedule or, `inline`, without one, or the first fault.
pub fn read_job(alloc: Global, text: &[u8], inline: bool) -> Result<Job, JobFault>
    requires short { length text.now < 2 ^ 32 }
    ensures { Gives result (job_in inline text.now) }
{
    let mut draft = Draft::new(alloc);
    match take_text(alloc, &mut draft, text, inline) {
        Ok(numbers) => Ok(draft.into_job(numbers)),
        Err(fault) => Err(fault),
    }
}
