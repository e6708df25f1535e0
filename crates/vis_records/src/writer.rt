//! The writer of the record file: a head, the records, an end. Each call appends its text to a sink.
#![tactic(auto, using(crate::proofs::WrittenEach::each))]

ghost use Rattle.std.specs.Prelude.{◌≡◌, ◌≤◌, length, flat_map};
ghost use Rattle.std.specs.List.{All};
ghost use Rattle.corr_model.specs.Records.{head_text, record_text, end_text, name_text, product_text, scan_text, baseline_text, cell_text, IsName};
ghost use Rattle.corr_model.proofs.RecordLemmas.{record_front};
ghost use Rattle.sink_text.specs.{Appends.{Appends}, Written.{Puts, Ends}};
ghost use Rattle.vis_records.specs.Heads.{product_of, scan_of, baseline_of, sizes_text, AreNames, IsShort};

use crate::head::{VisBaseline, VisHead, VisProduct, VisScan};
use crate::numbers::{put_i64, put_name, put_u32, put_u64};
use corr_model::{Cell, RecordAt};
use dev_traits::Sink;
use num_time::Name;
use sink_text::Stretch;
use thiserror::Error;

/// The sink that the record file goes to has failed.
#[derive(Clone, Copy, Debug, PartialEq, Eq, Error)]
pub enum SinkFault {
    #[error("the output failed")]
    Sink,
}

/// Appends the head of a record file, in stretches of up to 8,192 bytes. Where the sink fails, what was appended
/// before stays.
pub fn write_head<S: Sink>(head: &VisHead, out: &mut S) -> Result<(), SinkFault>
    ensures { Appends (S.told out.old) (S.told out.new) (head_text head.now) (S.faults out.old) (S.faults out.new) result }
{
    let mut stretch = Stretch::new();
    put_sizes(head, &mut stretch, out);
    put_names(head.stations(), &mut stretch, out);
    put_u32(head.products().len() as u32, &mut stretch, out);
    put_products(head.products(), &mut stretch, out);
    put_u32(head.scans().len() as u32, &mut stretch, out);
    put_scans(head.scans(), &mut stretch, out);
    end(stretch, out)
}

/// Appends a record with its cells by rising lag, in stretches of up to 8,192 bytes: with up to 340 lags in one
/// write, where the sink takes it whole. Where the sink fails, what was appended before stays.
pub fn write_record<S: Sink>(at: &RecordAt, cells: &[Cell], out: &mut S) -> Result<(), SinkFault>
    ensures { Appends (S.told out.old) (S.told out.new) (record_text at.now cells.now) (S.faults out.old) (S.faults out.new) result }
{
    let mut stretch = Stretch::new();
    put_place(at, &mut stretch, out);
    put_cells(cells, &mut stretch, out);
    end(stretch, out)
}

/// Appends the end of the record file. `count` is the number of records before it.
pub fn write_end<S: Sink>(count: u64, out: &mut S) -> Result<(), SinkFault>
    ensures { Appends (S.told out.old) (S.told out.new) (end_text count) (S.faults out.old) (S.faults out.new) result }
{
    let mut stretch = Stretch::new();
    stretch.put(&[255], out);
    put_u64(count, &mut stretch, out);
    end(stretch, out)
}

/// Hands over what is held.
pub fn end<S: Sink>(stretch: Stretch, out: &mut S) -> Result<(), SinkFault>
    ensures { Ends stretch (S.told out.old) (S.told out.new) (S.faults out.old) (S.faults out.new) result }
{
    match stretch.finish(out) {
        Ok(()) => Ok(()),
        Err(_) => Err(SinkFault::Sink),
    }
}

// Puts the mark, the sizes and the number of stations.
fn put_sizes<S: Sink>(head: &VisHead, stretch: &mut Stretch, out: &mut S)
    ensures { Puts (sizes_text head.now) stretch.old stretch.new (S.told out.old) (S.told out.new) (S.faults out.old) (S.faults out.new) }
{
    stretch.put(b"VLBIVIS1", out);
    put_u32(head.lags(), stretch, out);
    put_u64(head.integration(), stretch, out);
    put_u64(head.rate(), stretch, out);
    put_u32(head.stations().len() as u32, stretch, out);
}

/// Puts names, each with its length before it.
pub fn put_names<S: Sink>(names: &[Name], stretch: &mut Stretch, out: &mut S)
    requires { All IsName names.now }
    ensures { Puts (flat_map name_text names.now) stretch.old stretch.new (S.told out.old) (S.told out.new) (S.faults out.old) (S.faults out.new) }
{
    for name in names {
        put_name(name, stretch, out);
    }
}

/// Puts products, each by its two names.
pub fn put_products<S: Sink>(products: &[VisProduct], stretch: &mut Stretch, out: &mut S)
    requires { All AreNames products.now }
    ensures { Puts (flat_map (λ p. product_text (product_of p)) products.now) stretch.old stretch.new (S.told out.old) (S.told out.new) (S.faults out.old) (S.faults out.new) }
{
    for product in products {
        put_product(product, stretch, out);
    }
}

// Puts a product's two names.
fn put_product<S: Sink>(product: &VisProduct, stretch: &mut Stretch, out: &mut S)
    requires { AreNames product.now }
    ensures { Puts (product_text (product_of product.now)) stretch.old stretch.new (S.told out.old) (S.told out.new) (S.faults out.old) (S.faults out.new) }
{
    put_name(&product.x, stretch, out);
    put_name(&product.y, stretch, out);
}

/// Puts scans, each with its baselines.
pub fn put_scans<S: Sink>(scans: &[VisScan], stretch: &mut Stretch, out: &mut S)
    requires { All IsShort scans.now }
    ensures { Puts (flat_map (λ s. scan_text (scan_of s)) scans.now) stretch.old stretch.new (S.told out.old) (S.told out.new) (S.faults out.old) (S.faults out.new) }
{
    for scan in scans {
        put_scan(scan, stretch, out);
    }
}

// Puts a scan with its baselines.
fn put_scan<S: Sink>(scan: &VisScan, stretch: &mut Stretch, out: &mut S)
    requires { IsShort scan.now }
    ensures { Puts (scan_text (scan_of scan.now)) stretch.old stretch.new (S.told out.old) (S.told out.new) (S.faults out.old) (S.faults out.new) }
{
    put_name(&scan.name, stretch, out);
    put_u64(scan.second, stretch, out);
    put_u64(scan.samples, stretch, out);
    put_u32(scan.baselines.items().len() as u32, stretch, out);
    put_baselines(scan.baselines.items(), stretch, out);
}

// Puts baselines.
fn put_baselines<S: Sink>(baselines: &[VisBaseline], stretch: &mut Stretch, out: &mut S)
    ensures { Puts (flat_map (λ b. baseline_text (baseline_of b)) baselines.now) stretch.old stretch.new (S.told out.old) (S.told out.new) (S.faults out.old) (S.faults out.new) }
{
    for baseline in baselines {
        put_baseline(baseline, stretch, out);
    }
}

// Puts a baseline's two stations.
fn put_baseline<S: Sink>(baseline: &VisBaseline, stretch: &mut Stretch, out: &mut S)
    ensures { Puts (baseline_text (baseline_of baseline.now)) stretch.old stretch.new (S.told out.old) (S.told out.new) (S.faults out.old) (S.faults out.new) }
{
    put_u32(baseline.a, stretch, out);
    put_u32(baseline.b, stretch, out);
}

// Puts a record's mark and numbers.
fn put_place<S: Sink>(at: &RecordAt, stretch: &mut Stretch, out: &mut S)
    ensures { Puts (record_front at.now) stretch.old stretch.new (S.told out.old) (S.told out.new) (S.faults out.old) (S.faults out.new) }
{
    stretch.put(&[1], out);
    put_u32(at.scan, stretch, out);
    put_u64(at.m, stretch, out);
    put_u32(at.product, stretch, out);
    put_u32(at.baseline, stretch, out);
}

/// Puts cells, each by its three numbers.
pub fn put_cells<S: Sink>(cells: &[Cell], stretch: &mut Stretch, out: &mut S)
    ensures { Puts (flat_map cell_text cells.now) stretch.old stretch.new (S.told out.old) (S.told out.new) (S.faults out.old) (S.faults out.new) }
{
    for cell in cells {
        put_cell(cell, stretch, out);
    }
}

// Puts a cell's three numbers.
fn put_cell<S: Sink>(cell: &Cell, stretch: &mut Stretch, out: &mut S)
    ensures { Puts (cell_text cell.now) stretch.old stretch.new (S.told out.old) (S.told out.new) (S.faults out.old) (S.faults out.new) }
{
    put_i64(cell.re, stretch, out);
    put_i64(cell.im, stretch, out);
    put_u64(cell.count, stretch, out);
}
