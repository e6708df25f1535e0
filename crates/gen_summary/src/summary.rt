//! The summary of a record file.
ghost use Rattle.std.specs.Prelude.{◌≡◌, length};
ghost use Rattle.corr_model.specs.Records.{places_of};
ghost use Rattle.sink_text.specs.{Appends.{Appends}, Written.{Puts}};
ghost use Rattle.gen_summary.specs.Totals.{line, totals_text};

use crate::totals::totals_of;
use dev_traits::Sink;
use itoa::Buffer;
use sink_text::Stretch;
use vis_records::{SinkFault, Vis, end};

/// Appends five lines on a record file of so many bytes: the number of its records, its length in bytes, and the sums of
/// all cells' pairs, real parts and imaginary parts. Where the sink fails, what was appended before stays.
pub fn write_totals<S: Sink>(vis: &Vis, bytes: u64, out: &mut S) -> Result<(), SinkFault>
    ensures { Appends (S.told out.old) (S.told out.new) (totals_text vis.now bytes) (S.faults out.old) (S.faults out.new) result }
{
    let totals = totals_of(vis.cells());
    let mut lines = Stretch::new();
    put_line(
        "records",
        Buffer::new().format(records_of(vis)),
        &mut lines,
        out,
    );
    put_line("bytes", Buffer::new().format(bytes), &mut lines, out);
    put_line("pairs", Buffer::new().format(totals.pairs), &mut lines, out);
    put_line("re", Buffer::new().format(totals.re), &mut lines, out);
    put_line("im", Buffer::new().format(totals.im), &mut lines, out);
    end(lines, out)
}

// Puts a line of a word and a number.
fn put_line<S: Sink>(word: &str, number: &str, lines: &mut Stretch, out: &mut S)
    ensures { Puts (line word.now number.now) lines.old lines.new (S.told out.old) (S.told out.new) (S.faults out.old) (S.faults out.new) }
{
    lines.put(word.as_bytes(), out);
    lines.put(b" ", out);
    lines.put(number.as_bytes(), out);
    lines.put(b"\n", out);
}

// The number of records.
fn records_of(vis: &Vis) -> u64
    ensures { result ≡ length (places_of vis.now.head) }
{
    let lags = vis.head().lags() as usize;
    (vis.cells().len() / lags) as u64
}
