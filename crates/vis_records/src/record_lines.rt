//! The lines of the records of a record file.
ghost use Rattle.std.specs.Prelude.{◌≡◌, ◌≤◌, ◌<◌, ◌^◌, ◌∷◌, [], length, take, drop, pos, ◌-ℤ◌};
ghost use Rattle.corr_model.specs.Records.{IsHead, baseline_places, product_places, scan_places, places_of};
ghost use Rattle.sink_text.specs.Written.{Puts};
ghost use Rattle.vis_records.specs.{Dumped.{cell_line, record_lines, records_lines}, Dumping.{PutsRecords}, Heads.{scan_of}};

use crate::head::{VisHead, VisScan};
use corr_model::{Cell, RecordAt};
use dev_traits::Sink;
use sink_text::{Piece, Stretch};

// Puts the lines of all records of a head, with their cells.
pub(crate) fn put_records<S: Sink>(head: &VisHead, cells: &[Cell], lines: &mut Stretch, out: &mut S)
    ensures { Puts (records_lines head.now.lags (places_of head.now) cells.now) lines.old lines.new (S.told out.old) (S.told out.new) (S.faults out.old) (S.faults out.new) }
{
    let scans = head.scans();
    let mut left = cells;
    for i in 0..scans.len() {
        left = put_scan(head, i as u32, &scans[i], left, lines, out);
    }
}

// Puts the lines of a scan's records, and gives the cells behind theirs.
fn put_scan<'a, S: Sink>(
    head: &VisHead,
    number: u32,
    scan: &VisScan,
    cells: &'a [Cell],
    lines: &mut Stretch,
    out: &mut S,
) -> &'a [Cell]
    requires head { IsHead head.now }
    requires few { length scan.now.baselines ≤ 528 }
    ensures { PutsRecords head.now.lags (scan_places head.now number (scan_of scan.now)) cells.entry.now result.now lines.old lines.new (S.told out.old) (S.told out.new) (S.faults out.old) (S.faults out.new) }
{
    let count = scan.samples.div_ceil(head.integration());
    let mut left = cells;
    for m in 0..count {
        left = put_integration(head, number, scan, m, left, lines, out);
    }
    left
}

// Puts the lines of an integration's records, and gives the cells behind theirs.
fn put_integration<'a, S: Sink>(
    head: &VisHead,
    number: u32,
    scan: &VisScan,
    m: u64,
    cells: &'a [Cell],
    lines: &mut Stretch,
    out: &mut S,
) -> &'a [Cell]
    requires few { length scan.now.baselines ≤ 528 }
    ensures { PutsRecords head.now.lags (product_places head.now number (scan_of scan.now) m) cells.entry.now result.now lines.old lines.new (S.told out.old) (S.told out.new) (S.faults out.old) (S.faults out.new) }
{
    let count = head.products().len();
    let mut left = cells;
    for i in 0..count {
        left = put_product(head.lags(), number, scan, m, i as u32, left, lines, out);
    }
    left
}

// Puts the lines of the records of a product in an integration, and gives the cells behind theirs.
fn put_product<'a, S: Sink>(
    lags: u32,
    number: u32,
    scan: &VisScan,
    m: u64,
    product: u32,
    cells: &'a [Cell],
    lines: &mut Stretch,
    out: &mut S,
) -> &'a [Cell]
    requires few { length scan.now.baselines ≤ 528 }
    ensures { PutsRecords lags (baseline_places number (scan_of scan.now) m product) cells.entry.now result.now lines.old lines.new (S.told out.old) (S.told out.new) (S.faults out.old) (S.faults out.new) }
{
    let count = scan.baselines.items().len();
    let mut left = cells;
    for i in 0..count {
        let at = RecordAt {
            scan: number,
            m,
            product,
            baseline: i as u32,
        };
        left = put_record(lags, &at, left, lines, out);
    }
    left
}

// Puts the lines of a record, and gives the cells behind its own.
fn put_record<'a, S: Sink>(
    lags: u32,
    at: &RecordAt,
    cells: &'a [Cell],
    lines: &mut Stretch,
    out: &mut S,
) -> &'a [Cell]
    ensures { PutsRecords lags (at.now ∷ []) cells.entry.now result.now lines.old lines.new (S.told out.old) (S.told out.new) (S.faults out.old) (S.faults out.new) }
{
    let (own, left) = split_cells(cells, lags as usize);
    put_cells(lags, at, own, lines, out);
    left
}

// The first cells, as many as there are lags, and those behind them.
#[tactic(auto, using(std::proofs::lemmas::List::take_min, std::proofs::lemmas::List::drop_min))]
fn split_cells<'a>(cells: &'a [Cell], lags: usize) -> (&'a [Cell], &'a [Cell])
    ensures own { result.0.now ≡ take lags cells.entry.now }
    ensures left { result.1.now ≡ drop lags cells.entry.now }
{
    cells.split_at(lags.min(cells.len()))
}

// Puts the lines of a record's cells.
fn put_cells<S: Sink>(lags: u32, at: &RecordAt, cells: &[Cell], lines: &mut Stretch, out: &mut S)
    requires { length cells.now ≤ lags }
    ensures { Puts (record_lines lags at.now cells.now) lines.old lines.new (S.told out.old) (S.told out.new) (S.faults out.old) (S.faults out.new) }
{
    let middle = lags / 2;
    for (i, cell) in cells.iter().enumerate() {
        put_cell(at, lag_of(i, middle), cell, lines, out);
    }
}

// The lag of a record's cell, where that of cell `middle` is 0.
fn lag_of(i: usize, middle: u32) -> i64
    requires { i < 2 ^ 32 }
    ensures { result ≡ pos i -ℤ pos middle }
{
    i as i64 - i64::from(middle)
}

// Puts the line of a cell.
fn put_cell<S: Sink>(at: &RecordAt, lag: i64, cell: &Cell, lines: &mut Stretch, out: &mut S)
    ensures { Puts (cell_line at.now lag cell.now) lines.old lines.new (S.told out.old) (S.told out.new) (S.faults out.old) (S.faults out.new) }
{
    lines.put_pieces(
        &[
            Piece::Number(u64::from(at.scan)),
            Piece::Text(" "),
            Piece::Number(at.m),
            Piece::Text(" "),
            Piece::Number(u64::from(at.product)),
            Piece::Text(" "),
            Piece::Number(u64::from(at.baseline)),
            Piece::Text(" "),
            Piece::Signed(lag),
            Piece::Text(" "),
            Piece::Signed(cell.re),
            Piece::Text(" "),
            Piece::Signed(cell.im),
            Piece::Text(" "),
            Piece::Number(cell.count),
            Piece::Text("\n"),
        ],
        out,
    );
}
