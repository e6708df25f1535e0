//! The bins of a text.
ghost use Rattle.std.specs.Prelude.{◌≡◌, ◌<◌, ◌^◌, [], length, OnOk};
ghost use Rattle.std.specs.Str.Lines.{lines};
ghost use Rattle.pulsar_bins.specs.{Said.{said_by}, Bins.{IsSaid}, Answer.{Gives, Reads, bins_in}};

use crate::bins::Bins;
use crate::fault::{BinsFault, BinsKind};
use crate::rows::take_line;
use crate::said::Said;
use job_lines::Lines;
use std::alloc::Global;

// Takes the lines of a text.
fn take_lines(alloc: Global, said: &mut Said, text: &[u8]) -> Result<(), BinsFault>
    requires short { length text.now < 2 ^ 32 }
    requires empty { said.old ≡ said_by [] }
    ensures read { Reads (lines text.now) result said.new }
    ensures sound { OnOk result (IsSaid said.new) }
{
    let mut left = Lines::of(text);
    let mut number = 0;
    'lines: while let Some(line) = left.next_line() {
        number += 1;
        take_line(alloc, said, line, number)?;
    }
    Ok(())
}

/// The bins of a text of phases, or its first fault.
pub fn read_bins(alloc: Global, text: &[u8]) -> Result<Bins, BinsFault>
    requires { length text.now < 2 ^ 32 }
    ensures { Gives result (bins_in text.now) }
{
    let mut said = Said::new(alloc);
    take_lines(alloc, &mut said, text)?;
    match said.into_bins(alloc) {
        Some(bins) => Ok(bins),
        None => Err(BinsFault {
            kind: BinsKind::Missing,
            line: 0,
        }),
    }
}
