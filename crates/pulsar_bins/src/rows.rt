//! The lines of a text of phases, each taken behind the others.
ghost use Rattle.std.specs.Prelude.{◌≡◌, map, OnOk};
ghost use Rattle.job_lines.specs.Rows.{row_by};
ghost use Rattle.pulsar_bins.specs.{Words.{word_of, row_of}, Faults.{word_fault, fields_fault, line_fault}, Growing.{Takes, TakesAt, grown, grown_by, fault_in}, Bins.{IsSaid}};

use crate::fault::{BinsFault, BinsKind};
use crate::said::Said;
use crate::word::{Word, word_of};
use job_lines::{are_written, fields_of, is_clean};
use std::alloc::Global;

// A fault of this kind in a line; want of memory is at none.
fn fault_in(kind: BinsKind, number: u32) -> BinsFault
    ensures { result ≡ fault_in kind number }
{
    match kind {
        BinsKind::Memory => BinsFault { kind, line: 0 },
        _ => BinsFault { kind, line: number },
    }
}

// Takes the fields behind a word.
#[tactic(auto, unfolding(crate::specs::Faults::word_fault))]
fn take_word(alloc: Global, said: &mut Said, word: Word, fields: &[&[u8]]) -> Result<(), BinsKind>
    ensures taken { Takes (word_fault said.old word (map (λ field. field.now) fields.now)) (grown said.old word (map (λ field. field.now) fields.now)) result said.new }
    ensures sound { OnOk result (IsSaid said.old → IsSaid said.new) }
{
    if !are_written(word.needed(), word.further(), fields) {
        return Err(BinsKind::Line);
    }
    said.take_row(alloc, word, fields)
}

// Takes the fields of a line.
#[tactic(auto, unfolding(crate::specs::Faults::fields_fault))]
fn take_fields(alloc: Global, said: &mut Said, fields: &[&[u8]]) -> Result<(), BinsKind>
    ensures taken { Takes (fields_fault said.old (map (λ field. field.now) fields.now)) (grown_by said.old (row_by word_of (map (λ field. field.now) fields.now))) result said.new }
    ensures sound { OnOk result (IsSaid said.old → IsSaid said.new) }
{
    let Some((first, fields)) = fields.split_first() else {
        return Ok(());
    };
    let Some(word) = word_of(first) else {
        return Err(BinsKind::Line);
    };
    take_word(alloc, said, word, fields)
}

// Takes a line, or answers the kind of its fault.
#[tactic(auto, unfolding(crate::specs::Faults::line_fault))]
fn take_clean(alloc: Global, said: &mut Said, line: &[u8]) -> Result<(), BinsKind>
    ensures taken { Takes (line_fault said.old line.now) (grown_by said.old (row_of line.now)) result said.new }
    ensures sound { OnOk result (IsSaid said.old → IsSaid said.new) }
{
    if !is_clean(line) {
        return Err(BinsKind::Line);
    }
    let fields = fields_of(alloc, line)?;
    take_fields(alloc, said, &fields)
}

/// Takes a line by its number, counted from 1.
pub(crate) fn take_line(
    alloc: Global,
    said: &mut Said,
    line: &[u8],
    number: u32,
) -> Result<(), BinsFault>
    ensures taken { TakesAt (line_fault said.old line.now) (grown_by said.old (row_of line.now)) number result said.new }
    ensures sound { OnOk result (IsSaid said.old → IsSaid said.new) }
{
    match take_clean(alloc, said, line) {
        Ok(()) => Ok(()),
        Err(kind) => Err(fault_in(kind, number)),
    }
}
