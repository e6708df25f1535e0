//! The records of one integration, and the number of all records.
ghost use Rattle.std.specs.Prelude.{◌≡◌, ◌*◌, ◌<◌, ◌≤◌, ◌^◌, ◌%◌, length};
ghost use Rattle.corr_model.specs.Records.{IsHead, baseline_places, places_of, product_places, records_text};
ghost use Rattle.sink_text.specs.Appends.{Appends};
ghost use Rattle.vis_writer.specs.Cells.{widest, cells_of, integrations_of, records_of};
ghost use Rattle.vis_records.specs.Heads.{scan_of};

use corr_model::{Cell, RecordAt};
use dev_traits::Sink;
use vis_records::{SinkFault, VisHead, VisScan, write_record};

/// Appends the records of integration `m` of a scan, whose number in the head this is, with their cells.
pub fn write_products<S: Sink>(
    head: &VisHead,
    number: u32,
    scan: &VisScan,
    m: u64,
    cells: &[Cell],
    out: &mut S,
) -> Result<(), SinkFault>
    requires room { length cells.now ≡ cells_of head.now (scan_of scan.now) }
    requires few { length scan.now.baselines ≤ 528 }
    ensures { Appends (S.told out.old) (S.told out.new) (records_text head.now.lags (product_places head.now number (scan_of scan.now) m) cells.now) (S.faults out.old) (S.faults out.new) result }
{
    let lags = head.lags() as usize;
    let width = scan.baselines.items().len() * lags;
    for product in 0..head.products().len() {
        let row = &cells[product * width..product * width + width];
        write_baselines(number, scan, m, product as u32, lags, row, out)?;
    }
    Ok(())
}

// Appends the records of a product.
fn write_baselines<S: Sink>(
    number: u32,
    scan: &VisScan,
    m: u64,
    product: u32,
    lags: usize,
    cells: &[Cell],
    out: &mut S,
) -> Result<(), SinkFault>
    requires lags { lags ≤ 1024 }
    requires room { length cells.now ≡ length scan.now.baselines * lags }
    requires few { length scan.now.baselines ≤ 528 }
    ensures { Appends (S.told out.old) (S.told out.new) (records_text lags (baseline_places number (scan_of scan.now) m product) cells.now) (S.faults out.old) (S.faults out.new) result }
{
    for baseline in 0..scan.baselines.items().len() {
        let at = RecordAt {
            scan: number,
            m,
            product,
            baseline: baseline as u32,
        };
        write_record(&at, &cells[baseline * lags..baseline * lags + lags], out)?;
    }
    Ok(())
}

/// The most cells that an integration of the head has: a buffer for `write_records` has room for so many.
pub fn widest(head: &VisHead) -> usize
    ensures { result ≡ widest head.now }
{
    let mut most = 0;
    let scans = head.scans();
    for scan in scans {
        most = most.max(width_of(head, scan));
    }
    most
}

// The number of cells of each of a scan's integrations.
fn width_of(head: &VisHead, scan: &VisScan) -> usize
    requires { length scan.now.baselines ≤ 528 }
    ensures { result ≡ cells_of head.now (scan_of scan.now) }
{
    head.products().len() * scan.baselines.items().len() * head.lags() as usize
}

/// The lowest 64 bits of the number of a head's records.
pub fn record_count(head: &VisHead) -> u64
    ensures { result ≡ length (places_of head.now) % 2 ^ 64 }
{
    let mut count = 0u64;
    let scans = head.scans();
    for number in 0..scans.len() {
        count = count.wrapping_add(scan_count(head, &scans[number]));
    }
    count
}

// The number of a scan's records.
fn scan_count(head: &VisHead, scan: &VisScan) -> u64
    requires ranges { IsHead head.now }
    requires few { length scan.now.baselines ≤ 528 }
    requires samples { scan.now.samples ≤ 2 ^ 40 }
    ensures { result ≡ integrations_of head.now (scan_of scan.now) * records_of head.now (scan_of scan.now) }
{
    let records = head.products().len() as u64 * scan.baselines.items().len() as u64;
    scan.samples.div_ceil(head.integration()) * records
}
