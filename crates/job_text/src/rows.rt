//! The lines of a job, each taken behind the others.
ghost use Rattle.std.specs.Prelude.{◌≡◌, ◌&&◌, not, map, OnOk};
ghost use Rattle.std.specs.{List.{All}, Str.{IsUtf8}};
ghost use Rattle.job_lines.specs.{Words.{is_inline}, Rows.{row_from, row_of}};
ghost use Rattle.job_text.specs.{Values.{field}, Faults.{word_fault, fields_fault, line_fault}, Growing.{Takes, TakesAt, grown, grown_by, fault_in}, Sound.{IsSaid}};

use crate::draft::Draft;
use crate::fault::{JobFault, JobKind};
use job_lines::{Word, are_written, fields_of, is_clean, word_of};
use std::alloc::Global;

// A fault of this kind in a line; want of memory is at none.
fn fault_in(kind: JobKind, number: u32) -> JobFault
    ensures { result ≡ fault_in kind number }
{
    match kind {
        JobKind::Memory => JobFault { kind, line: 0 },
        _ => JobFault { kind, line: number },
    }
}

// Whether a word of scans stands in a job that is read beside a schedule.
fn is_out_of_place(word: Word, inline: bool) -> bool
    ensures { result ≡ (is_inline word && not inline) }
{
    word.is_inline() && !inline
}

// Takes the fields behind a word.
fn take_word(
    alloc: Global,
    draft: &mut Draft,
    inline: bool,
    word: Word,
    fields: &[&[u8]],
) -> Result<(), JobKind>
    requires { IsUtf8 (field (map (λ field. field.now) fields.now) 1) }
    ensures taken { Takes (word_fault inline draft.old word (map (λ field. field.now) fields.now)) (grown draft.old word (map (λ field. field.now) fields.now)) result draft.new }
    ensures sound { OnOk result (IsSaid draft.old → IsSaid draft.new) }
{
    if is_out_of_place(word, inline) {
        return Err(JobKind::Unknown);
    }
    if !are_written(word.needed(), word.further(), fields) {
        return Err(JobKind::Line);
    }
    draft.take_row(alloc, word, fields)
}

// Takes the fields of a line.
fn take_fields(
    alloc: Global,
    draft: &mut Draft,
    inline: bool,
    fields: &[&[u8]],
) -> Result<(), JobKind>
    requires { All IsUtf8 (map (λ field. field.now) fields.now) }
    ensures taken { Takes (fields_fault inline draft.old (map (λ field. field.now) fields.now)) (grown_by draft.old (row_from (map (λ field. field.now) fields.now))) result draft.new }
    ensures sound { OnOk result (IsSaid draft.old → IsSaid draft.new) }
{
    let Some((first, fields)) = fields.split_first() else {
        return Ok(());
    };
    let Some(word) = word_of(first) else {
        return Err(JobKind::Unknown);
    };
    take_word(alloc, draft, inline, word, fields)
}

// Takes a line, or answers the kind of its fault.
fn take_clean(alloc: Global, draft: &mut Draft, inline: bool, line: &[u8]) -> Result<(), JobKind>
    ensures taken { Takes (line_fault inline draft.old line.now) (grown_by draft.old (row_of line.now)) result draft.new }
    ensures sound { OnOk result (IsSaid draft.old → IsSaid draft.new) }
{
    if !is_clean(line) {
        return Err(JobKind::Line);
    }
    let fields = fields_of(alloc, line)?;
    take_fields(alloc, draft, inline, &fields)
}

/// Takes a line by its number, counted from 1.
pub(crate) fn take_line(
    alloc: Global,
    draft: &mut Draft,
    inline: bool,
    line: &[u8],
    number: u32,
) -> Result<(), JobFault>
    ensures taken { TakesAt (line_fault inline draft.old line.now) (grown_by draft.old (row_of line.now)) number result draft.new }
    ensures sound { OnOk result (IsSaid draft.old → IsSaid draft.new) }
{
    match take_clean(alloc, draft, inline, line) {
        Ok(()) => Ok(()),
        Err(kind) => Err(fault_in(kind, number)),
    }
}
