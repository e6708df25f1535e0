//! The records of a record file, read from the front.
#![tactic(auto, using(crate::proofs::PartLemmas::turns), unfolding(crate::specs::Parts::chain))]

ghost use Rattle.std.specs.Prelude.{◌≡◌, ◌≤◌, ◌<◌, ◌^◌, length, OnOk, IfOk, IfErr};
ghost use Rattle.std.specs.List.{range_with_len};
ghost use Rattle.corr_model.specs.Records.{IsHead, baseline_places, product_places, scan_places, places_of};
ghost use Rattle.vis_records.specs.{Heads.{scan_of}, Parts.{Took, StopsBy, in_turn, one_more}, Reading.{place, cell, record_due, end_due}};

use crate::fault::{Stop, VisKind};
use crate::head::{VisHead, VisScan};
use crate::rest::Rest;
use corr_model::{Cell, RecordAt};

// All records that a head asks for, behind the cells that are there.
pub(crate) fn read_records(
    rest: &mut Rest<'_>,
    head: &VisHead,
    cells: &mut Vec<Cell>,
) -> Result<(), Stop>
    ensures took { OnOk result (in_turn (record_due head.now.lags) cells.old.items (places_of head.now) rest.old ≡ Took cells.new.items rest.new) }
    ensures stops { IfErr result (StopsBy (in_turn (record_due head.now.lags) cells.old.items (places_of head.now) rest.old)) }
{
    let scans = head.scans();
    for i in 0..scans.len() {
        read_scan_records(rest, head, i as u32, &scans[i], cells)?;
    }
    Ok(())
}

// The records of a scan.
fn read_scan_records(
    rest: &mut Rest<'_>,
    head: &VisHead,
    number: u32,
    scan: &VisScan,
    cells: &mut Vec<Cell>,
) -> Result<(), Stop>
    requires head { IsHead head.now }
    requires few { length scan.now.baselines ≤ 528 }
    ensures took { OnOk result (in_turn (record_due head.now.lags) cells.old.items (scan_places head.now number (scan_of scan.now)) rest.old ≡ Took cells.new.items rest.new) }
    ensures stops { IfErr result (StopsBy (in_turn (record_due head.now.lags) cells.old.items (scan_places head.now number (scan_of scan.now)) rest.old)) }
{
    let count = scan.samples.div_ceil(head.integration());
    for m in 0..count {
        read_integration(rest, head, number, scan, m, cells)?;
    }
    Ok(())
}

// The records of an integration.
fn read_integration(
    rest: &mut Rest<'_>,
    head: &VisHead,
    number: u32,
    scan: &VisScan,
    m: u64,
    cells: &mut Vec<Cell>,
) -> Result<(), Stop>
    requires few { length scan.now.baselines ≤ 528 }
    ensures took { OnOk result (in_turn (record_due head.now.lags) cells.old.items (product_places head.now number (scan_of scan.now) m) rest.old ≡ Took cells.new.items rest.new) }
    ensures stops { IfErr result (StopsBy (in_turn (record_due head.now.lags) cells.old.items (product_places head.now number (scan_of scan.now) m) rest.old)) }
{
    let count = head.products().len();
    for i in 0..count {
        read_product(rest, head.lags(), number, scan, m, i as u32, cells)?;
    }
    Ok(())
}

// The records of a product in an integration.
fn read_product(
    rest: &mut Rest<'_>,
    lags: u32,
    number: u32,
    scan: &VisScan,
    m: u64,
    product: u32,
    cells: &mut Vec<Cell>,
) -> Result<(), Stop>
    requires few { length scan.now.baselines ≤ 528 }
    ensures took { OnOk result (in_turn (record_due lags) cells.old.items (baseline_places number (scan_of scan.now) m product) rest.old ≡ Took cells.new.items rest.new) }
    ensures stops { IfErr result (StopsBy (in_turn (record_due lags) cells.old.items (baseline_places number (scan_of scan.now) m product) rest.old)) }
{
    let count = scan.baselines.items().len();
    for i in 0..count {
        let at = RecordAt {
            scan: number,
            m,
            product,
            baseline: i as u32,
        };
        read_record(rest, lags, &at, cells)?;
    }
    Ok(())
}

// The record that is due.
fn read_record(
    rest: &mut Rest<'_>,
    lags: u32,
    at: &RecordAt,
    cells: &mut Vec<Cell>,
) -> Result<(), Stop>
    ensures took { OnOk result (record_due lags cells.old.items at.now rest.old ≡ Took cells.new.items rest.new) }
    ensures stops { IfErr result (StopsBy (record_due lags cells.old.items at.now rest.old)) }
{
    read_place(rest, at)?;
    read_cells(rest, lags, cells)?;
    Ok(())
}

// The mark and the numbers of the record that is due.
fn read_place(rest: &mut Rest<'_>, at: &RecordAt) -> Result<u64, Stop>
    ensures took { IfOk result (λ n. place at.now rest.old ≡ Took n rest.new) }
    ensures stops { IfErr result (StopsBy (place at.now rest.old)) }
{
    let (scan, product, baseline) = (at.scan as u64, at.product as u64, at.baseline as u64);
    let mark = rest.field(1, 1, 1, VisKind::Order)?;
    let first = rest.field(4, scan, scan, VisKind::Order)?;
    let second = rest.field(8, at.m, at.m, VisKind::Order)?;
    let third = rest.field(4, product, product, VisKind::Order)?;
    let fourth = rest.field(4, baseline, baseline, VisKind::Order)?;
    Ok(fourth)
}

// So many cells.
fn read_cells(rest: &mut Rest<'_>, lags: u32, cells: &mut Vec<Cell>) -> Result<(), Stop>
    ensures took { OnOk result (in_turn (one_more (λ _. cell)) cells.old.items (range_with_len 0 lags) rest.old ≡ Took cells.new.items rest.new) }
    ensures stops { IfErr result (StopsBy (in_turn (one_more (λ _. cell)) cells.old.items (range_with_len 0 lags) rest.old)) }
{
    for i in 0..lags {
        let one = read_cell(rest)?;
        cells.push(one)?;
    }
    Ok(())
}

// A cell.
fn read_cell(rest: &mut Rest<'_>) -> Result<Cell, Stop>
    ensures took { IfOk result (λ c. cell rest.old ≡ Took c rest.new) }
    ensures stops { IfErr result (StopsBy (cell rest.old)) }
{
    let re = rest.signed_word()?;
    let im = rest.signed_word()?;
    let count = rest.word()?;
    Ok(Cell { re, im, count })
}

// The end of so many records, and nothing behind it.
pub(crate) fn read_end(rest: &mut Rest<'_>, count: u64) -> Result<u64, Stop>
    ensures took { IfOk result (λ n. end_due count rest.old ≡ Took n rest.new) }
    ensures stops { IfErr result (StopsBy (end_due count rest.old)) }
{
    let mark = rest.field(1, 255, 255, VisKind::Order)?;
    let said = rest.field(8, count, count, VisKind::Order)?;
    let left = rest.len();
    if left == 0 {
        Ok(0)
    } else {
        Err(Stop {
            kind: VisKind::AfterEnd,
            left,
        })
    }
}
