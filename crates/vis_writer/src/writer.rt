//! The writer of a record file.
ghost use Rattle.std.specs.Prelude.{◌≡◌, ◌<◌, ◌≤◌, length, slice_get, Some};
ghost use Rattle.corr_model.specs.Records.{IsHead, vis_text};
ghost use Rattle.vis_records.specs.Heads.{scan_of};
ghost use Rattle.sink_text.specs.Appends.{Appends};
ghost use Rattle.vis_writer.specs.{Cells.{all_cells, integrations_of, cells_of, cells_at, widest}, Writes.{Writes, of_sink}};
ghost use Rattle.vis_writer.specs.Texts.{integration_text, integration_at, scan_text_by, scans_text, text_at};

use crate::records::{record_count, write_products};
use crate::{CellSource, WriteFault};
use corr_model::Cell;
use dev_traits::Sink;
use vis_records::{SinkFault, VisHead, VisScan, write_end, write_head};

/// Appends the record file of `head`: the head, every record in the order scan, integration, product and baseline with
/// the source's cells, and the end. `buffer` holds the cells of one integration at a time; there is room in it for those
/// of any integration of the head. The end has the lowest 64 bits of the number of records.
pub fn write_records<C: CellSource, S: Sink>(
    head: &VisHead,
    source: &mut C,
    buffer: &mut [Cell],
    out: &mut S,
) -> Result<(), WriteFault<C::Fault>>
    requires head { C.head source.old ≡ head.now }
    requires room { widest head.now ≤ length buffer.old }
    ensures { Writes C.head C.cells C.steady C.fails (λ of. vis_text head.now (all_cells head.now of)) source.old source.new (S.told out.old) (S.told out.new) (S.faults out.old) (S.faults out.new) result }
{
    sunk(write_head(head, out))?;
    write_scans(head, source, buffer, out)?;
    sunk(write_end(record_count(head), out))
}

// Appends the records of all scans.
fn write_scans<C: CellSource, S: Sink>(
    head: &VisHead,
    source: &mut C,
    buffer: &mut [Cell],
    out: &mut S,
) -> Result<(), WriteFault<C::Fault>>
    requires head { C.head source.old ≡ head.now }
    requires room { widest head.now ≤ length buffer.old }
    ensures { Writes C.head C.cells C.steady C.fails (λ of. scans_text head.now of) source.old source.new (S.told out.old) (S.told out.new) (S.faults out.old) (S.faults out.new) result }
{
    for number in 0..head.scans().len() {
        write_scan_at(head, number as u32, source, buffer, out)?;
    }
    Ok(())
}

// Appends the records of one scan of the head, by its number.
fn write_scan_at<C: CellSource, S: Sink>(
    head: &VisHead,
    number: u32,
    source: &mut C,
    buffer: &mut [Cell],
    out: &mut S,
) -> Result<(), WriteFault<C::Fault>>
    requires head { C.head source.old ≡ head.now }
    requires inside { number < length head.now.scans }
    requires room { widest head.now ≤ length buffer.old }
    ensures { Writes C.head C.cells C.steady C.fails (λ of. text_at head.now of number) source.old source.new (S.told out.old) (S.told out.new) (S.faults out.old) (S.faults out.new) result }
{
    let scan = &head.scans()[number as usize];
    write_scan(head, number, scan, source, buffer, out)
}

// Appends the records of a scan, whose number in the head this is.
fn write_scan<C: CellSource, S: Sink>(
    head: &VisHead,
    number: u32,
    scan: &VisScan,
    source: &mut C,
    buffer: &mut [Cell],
    out: &mut S,
) -> Result<(), WriteFault<C::Fault>>
    requires head { C.head source.old ≡ head.now }
    requires ranges { IsHead head.now }
    requires scan { slice_get head.now.scans number ≡ Some (scan_of scan.now) }
    requires room { cells_of head.now (scan_of scan.now) ≤ length buffer.old }
    ensures { Writes C.head C.cells C.steady C.fails (λ of. scan_text_by head.now of number (scan_of scan.now)) source.old source.new (S.told out.old) (S.told out.new) (S.faults out.old) (S.faults out.new) result }
{
    for m in 0..scan.samples.div_ceil(head.integration()) {
        write_integration(head, number, scan, m, source, buffer, out)?;
    }
    Ok(())
}

// Appends the records of integration `m` of a scan.
fn write_integration<C: CellSource, S: Sink>(
    head: &VisHead,
    number: u32,
    scan: &VisScan,
    m: u64,
    source: &mut C,
    buffer: &mut [Cell],
    out: &mut S,
) -> Result<(), WriteFault<C::Fault>>
    requires head { C.head source.old ≡ head.now }
    requires scan { slice_get head.now.scans number ≡ Some (scan_of scan.now) }
    requires inside { m < integrations_of head.now (scan_of scan.now) }
    requires room { cells_of head.now (scan_of scan.now) ≤ length buffer.old }
    ensures { Writes C.head C.cells C.steady C.fails (λ of. integration_text head.now number (scan_of scan.now) of m) source.old source.new (S.told out.old) (S.told out.new) (S.faults out.old) (S.faults out.new) result }
{
    let size = head.products().len() * scan.baselines.items().len() * head.lags() as usize;
    let cells = &mut buffer[..size];
    match source.fill(number, m, cells) {
        Ok(()) => sunk(write_products(head, number, scan, m, cells, out)),
        Err(fault) => Err(WriteFault::Source(fault)),
    }
}

/// Appends the records of integration `m` of a scan, by its number in the head. `cells` are those of the integration, by product,
/// then by baseline, then by rising lag.
pub fn write_integration_at<S: Sink>(
    head: &VisHead,
    number: u32,
    m: u64,
    cells: &[Cell],
    out: &mut S,
) -> Result<(), SinkFault>
    requires inside { number < length head.now.scans }
    requires room { length cells.now ≡ cells_at head.now number }
    ensures { Appends (S.told out.old) (S.told out.new) (integration_at head.now number m cells.now) (S.faults out.old) (S.faults out.new) result }
{
    let scan = &head.scans()[number as usize];
    write_products(head, number, scan, m, cells, out)
}

/// The sink's answer as one of both.
pub fn sunk<F>(written: Result<(), SinkFault>) -> Result<(), WriteFault<F>>
    ensures { result ≡ of_sink written }
{
    match written {
        Ok(()) => Ok(()),
        Err(SinkFault::Sink) => Err(WriteFault::Sink),
    }
}
