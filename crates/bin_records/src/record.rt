//! The records of the text of bins, and its end.
ghost use Rattle.std.specs.Prelude.{◌≡◌};
ghost use Rattle.sink_text.specs.{Appends.{Appends}, Written.{Puts}};
ghost use Rattle.bin_records.specs.{Fronts.{record_front}, Texts.{bin_record_text, bin_end_text}};

use corr_model::{Cell, RecordAt};
use dev_traits::Sink;
use sink_text::Stretch;
use vis_records::{SinkFault, end, put_cells, put_u32, put_u64, write_end};

/// Appends the record of a bin with its cells by rising lag, in stretches of up to 8,192 bytes. Where the sink fails, what was
/// appended before stays.
pub fn write_bin_record<S: Sink>(
    at: &RecordAt,
    bin: u32,
    cells: &[Cell],
    out: &mut S,
) -> Result<(), SinkFault>
    ensures { Appends (S.told out.old) (S.told out.new) (bin_record_text at.now bin cells.now) (S.faults out.old) (S.faults out.new) result }
{
    let mut stretch = Stretch::new();
    put_place(at, bin, &mut stretch, out);
    put_cells(cells, &mut stretch, out);
    end(stretch, out)
}

/// Appends the end of the text of bins. `count` is the number of records before it.
#[tactic(auto, unfolding(crate::specs::Texts::bin_end_text))]
pub fn write_bin_end<S: Sink>(count: u64, out: &mut S) -> Result<(), SinkFault>
    ensures { Appends (S.told out.old) (S.told out.new) (bin_end_text count) (S.faults out.old) (S.faults out.new) result }
{
    write_end(count, out)
}

// Puts a record's mark and numbers.
fn put_place<S: Sink>(at: &RecordAt, bin: u32, stretch: &mut Stretch, out: &mut S)
    ensures { Puts (record_front at.now bin) stretch.old stretch.new (S.told out.old) (S.told out.new) (S.faults out.old) (S.faults out.new) }
{
    stretch.put(&[2], out);
    put_u32(at.scan, stretch, out);
    put_u64(at.m, stretch, out);
    put_u32(at.product, stretch, out);
    put_u32(at.baseline, stretch, out);
    put_u32(bin, stretch, out);
}
