//! The text that shows a record file: the lines of its head, then a line for each cell.
ghost use Rattle.std.specs.Prelude.{map};
ghost use Rattle.sink_text.specs.{Appends.{Appends}, Written.{Puts}};
ghost use Rattle.vis_records.specs.{Dumped.{baseline_line, dump_text, head_lines, numbered, product_line, scan_lines, sizes_line, station_line}, Heads.{baseline_of, product_of, scan_of}};

use crate::head::{VisBaseline, VisHead, VisProduct, VisScan};
use crate::record_lines::put_records;
use crate::vis::Vis;
use crate::writer::{SinkFault, end};
use dev_traits::Sink;
use num_time::Name;
use sink_text::{Piece, Stretch};

/// Appends the lines that show a record file, in stretches of up to 8,192 bytes: its sizes, stations, products and
/// scans with their baselines, and each cell, in the order of the records and by rising lag, from minus half the
/// number of lags on. Numbers are decimal, names stand as they are. Where the sink fails, what was appended before
/// stays.
pub fn dump<S: Sink>(vis: &Vis, out: &mut S) -> Result<(), SinkFault>
    ensures { Appends (S.told out.old) (S.told out.new) (dump_text vis.now) (S.faults out.old) (S.faults out.new) result }
{
    let head = vis.head();
    let mut lines = Stretch::new();
    put_head(head, &mut lines, out);
    put_records(head, vis.cells(), &mut lines, out);
    end(lines, out)
}

// Puts the lines of a head.
fn put_head<S: Sink>(head: &VisHead, lines: &mut Stretch, out: &mut S)
    ensures { Puts (head_lines head.now) lines.old lines.new (S.told out.old) (S.told out.new) (S.faults out.old) (S.faults out.new) }
{
    put_sizes(head, lines, out);
    put_stations(head.stations(), lines, out);
    put_products(head.products(), lines, out);
    put_scans(head.scans(), lines, out);
}

// Puts the line of the lags, the integration and the rate.
fn put_sizes<S: Sink>(head: &VisHead, lines: &mut Stretch, out: &mut S)
    ensures { Puts (sizes_line head.now) lines.old lines.new (S.told out.old) (S.told out.new) (S.faults out.old) (S.faults out.new) }
{
    lines.put_pieces(
        &[
            Piece::Text("lags "),
            Piece::Number(u64::from(head.lags())),
            Piece::Text(" integration "),
            Piece::Number(head.integration()),
            Piece::Text(" rate "),
            Piece::Number(head.rate()),
            Piece::Text("\n"),
        ],
        out,
    );
}

// Puts each station's line.
fn put_stations<S: Sink>(stations: &[Name], lines: &mut Stretch, out: &mut S)
    ensures { Puts (numbered station_line stations.now) lines.old lines.new (S.told out.old) (S.told out.new) (S.faults out.old) (S.faults out.new) }
{
    for (i, key) in stations.iter().enumerate() {
        put_station(i, key, lines, out);
    }
}

// Puts the line of a station.
fn put_station<S: Sink>(number: usize, key: &Name, lines: &mut Stretch, out: &mut S)
    ensures { Puts (station_line number key.now) lines.old lines.new (S.told out.old) (S.told out.new) (S.faults out.old) (S.faults out.new) }
{
    lines.put_pieces(
        &[
            Piece::Text("station "),
            Piece::Number(number as u64),
            Piece::Text(" "),
            Piece::Bytes(key.bytes()),
            Piece::Text("\n"),
        ],
        out,
    );
}

// Puts each product's line.
#[tactic(auto, using(crate::proofs::NumberedLines::numbered_each))]
fn put_products<S: Sink>(products: &[VisProduct], lines: &mut Stretch, out: &mut S)
    ensures { Puts (numbered product_line (map product_of products.now)) lines.old lines.new (S.told out.old) (S.told out.new) (S.faults out.old) (S.faults out.new) }
{
    for (i, product) in products.iter().enumerate() {
        put_product(i, product, lines, out);
    }
}

// Puts the line of a product.
fn put_product<S: Sink>(number: usize, product: &VisProduct, lines: &mut Stretch, out: &mut S)
    ensures { Puts (product_line number (product_of product.now)) lines.old lines.new (S.told out.old) (S.told out.new) (S.faults out.old) (S.faults out.new) }
{
    lines.put_pieces(
        &[
            Piece::Text("product "),
            Piece::Number(number as u64),
            Piece::Text(" "),
            Piece::Bytes(product.x.bytes()),
            Piece::Text(" "),
            Piece::Bytes(product.y.bytes()),
            Piece::Text("\n"),
        ],
        out,
    );
}

// Puts each scan's lines.
#[tactic(auto, using(crate::proofs::NumberedLines::numbered_each))]
fn put_scans<S: Sink>(scans: &[VisScan], lines: &mut Stretch, out: &mut S)
    ensures { Puts (numbered scan_lines (map scan_of scans.now)) lines.old lines.new (S.told out.old) (S.told out.new) (S.faults out.old) (S.faults out.new) }
{
    for (i, scan) in scans.iter().enumerate() {
        put_scan(i, scan, lines, out);
    }
}

// Puts the lines of a scan: its own, and those of its baselines.
fn put_scan<S: Sink>(number: usize, scan: &VisScan, lines: &mut Stretch, out: &mut S)
    ensures { Puts (scan_lines number (scan_of scan.now)) lines.old lines.new (S.told out.old) (S.told out.new) (S.faults out.old) (S.faults out.new) }
{
    lines.put_pieces(
        &[
            Piece::Text("scan "),
            Piece::Number(number as u64),
            Piece::Text(" "),
            Piece::Bytes(scan.name.bytes()),
            Piece::Text(" "),
            Piece::Number(scan.second),
            Piece::Text(" "),
            Piece::Number(scan.samples),
            Piece::Text("\n"),
        ],
        out,
    );
    put_baselines(number, scan.baselines.items(), lines, out);
}

// Puts the line of each of a scan's baselines.
fn put_baselines<S: Sink>(scan: usize, baselines: &[VisBaseline], lines: &mut Stretch, out: &mut S)
    ensures { Puts (numbered (baseline_line scan) (map baseline_of baselines.now)) lines.old lines.new (S.told out.old) (S.told out.new) (S.faults out.old) (S.faults out.new) }
{
    for (i, baseline) in baselines.iter().enumerate() {
        put_baseline(scan, i, baseline, lines, out);
    }
}

// Puts the line of a baseline.
fn put_baseline<S: Sink>(
    scan: usize,
    number: usize,
    baseline: &VisBaseline,
    lines: &mut Stretch,
    out: &mut S,
)
    ensures { Puts (baseline_line scan number (baseline_of baseline.now)) lines.old lines.new (S.told out.old) (S.told out.new) (S.faults out.old) (S.faults out.new) }
{
    lines.put_pieces(
        &[
            Piece::Text("baseline "),
            Piece::Number(scan as u64),
            Piece::Text(" "),
            Piece::Number(number as u64),
            Piece::Text(" "),
            Piece::Number(u64::from(baseline.a)),
            Piece::Text(" "),
            Piece::Number(u64::from(baseline.b)),
            Piece::Text("\n"),
        ],
        out,
    );
}
