//! The cells of a scan, a product and a baseline.
ghost use Rattle.std.specs.Prelude.{◌≡◌, ◌+◌, ◌≤◌, ◌<◌, ◌^◌, ◌*◌, ℕ, length, drop, slice_index_or};
ghost use Rattle.corr_model.specs.Records.{IsHead};
ghost use Rattle.fringe_search.specs.Layout.{IsSeriesAt, no_cell, cell_at, integrations_of, records_before, records_each, records_of, scan_at, series_of};

use crate::places::{SeriesAt, baselines, products, scan};
use corr_model::Cell;
use std::marker::Model;
use vis_records::{Vis, VisHead};

// The cells of a series: of each integration those of all lags. Places count cells.
#[derive(Debug, Drop)]
pub(crate) struct CellSeries<'a> {
    cells: &'a [Cell],
    first: usize,
    stride: usize,
    integrations: u64,
    lags: u32,
}

impl<'a> Model for CellSeries<'a> {
    ghost use Rattle.fringe_search.specs.Layout.{Series, IsWithin};

    ghost Value = { Series };

    ghost view = { λ s. record { cells = s.cells.now; first = s.first; stride = s.stride; integrations = s.integrations; lags = s.lags } };

    ghost invariant = { λ s. IsWithin (record { cells = s.cells.now; first = s.first; stride = s.stride; integrations = s.integrations; lags = s.lags }) };
}

impl<'a> CellSeries<'a> {
    // The series of a scan, a product and a baseline.
    pub fn of(vis: &'a Vis, at: SeriesAt) -> Self
        requires { IsSeriesAt vis.now.head at }
        ensures { result ≡ series_of vis.entry.now at }
    {
        let head = vis.head();
        let cells = cells_from(vis, at.scan);
        let first = first_place(head, at);
        let stride = stride(head, at.scan);
        let integrations = integrations(head, at.scan);
        let lags = head.lags();
        CellSeries {
            cells,
            first,
            stride,
            integrations,
            lags,
        }
    }

    // How many lags there are.
    pub fn lags(&self) -> u32
        ensures value { result ≡ self.now.lags }
        ensures some { 0 < self.now.lags }
        ensures few { self.now.lags ≤ 1024 }
    {
        self.lags
    }

    // How many integrations there are.
    pub fn integrations(&self) -> u64
        ensures value { result ≡ self.now.integrations }
        ensures few { self.now.integrations ≤ 2 ^ 40 }
    {
        self.integrations
    }

    // The same series once more.
    pub fn again(&self) -> CellSeries<'a>
        ensures { result ≡ self.now }
    {
        CellSeries {
            cells: self.cells,
            first: self.first,
            stride: self.stride,
            integrations: self.integrations,
            lags: self.lags,
        }
    }

    // The series of these cells, one of each integration, at one lag.
    pub fn of_lag(cells: &'a [Cell], integrations: u64) -> Self
        requires room { integrations ≤ length cells.now }
        requires few { integrations ≤ 2 ^ 40 }
        ensures { result ≡ record { cells = cells.entry.now; first = 0; stride = 1; integrations = integrations; lags = 1 } }
    {
        CellSeries {
            cells,
            first: 0,
            stride: 1,
            integrations,
            lags: 1,
        }
    }

    // Copies the cells of a lag, by the lag's number, into a list, in the order of the integrations.
    pub fn gather(&self, lag: u32, cells: &mut [Cell])
        requires room { self.now.integrations ≤ length cells.old }
        requires lag { lag < self.now.lags }
        ensures { (m : ℕ) → m < self.now.integrations → slice_index_or cells.new m no_cell ≡ cell_at self.now m lag }
    {
        for m in 0..self.integrations() {
            cells[m as usize] = self.cell(m, lag);
        }
    }

    // The cell of an integration at a lag, by the lag's number.
    pub fn cell(&self, m: u64, lag: u32) -> Cell
        requires m { m < self.now.integrations }
        requires lag { lag < self.now.lags }
        ensures { result ≡ cell_at self.now m lag }
    {
        self.cells[self.first + m as usize * self.stride + lag as usize]
    }
}

// The cells of a scan and of those behind it.
fn cells_from<'a>(vis: &'a Vis, scan: u32) -> &'a [Cell]
    requires { scan < length vis.now.head.scans }
    ensures { result.now ≡ drop (vis.entry.now.head.lags * records_before vis.entry.now.head scan) vis.entry.now.cells }
{
    let cells = vis.cells();
    let count = cells.len();
    let start = start_of(vis.head(), scan, count);
    &cells[start..]
}

// Where a scan's cells begin.
fn start_of(head: &VisHead, scan: u32, count: usize) -> usize
    requires scan { scan < length head.now.scans }
    requires some { 1 ≤ head.now.lags }
    requires count { count ≡ head.now.lags * records_before head.now (length head.now.scans) }
    ensures value { result ≡ head.now.lags * records_before head.now scan }
    ensures within { result ≤ count }
{
    head.lags() as usize * records_before(head, scan)
}

// Where the cells of a product and a baseline begin among those of an integration.
fn first_place(head: &VisHead, at: SeriesAt) -> usize
    requires { IsSeriesAt head.now at }
    ensures { result ≡ head.now.lags * (at.product * length (scan_at head.now at.scan).baselines + at.baseline) }
{
    head.lags() as usize * number_of(at, baselines(head, at.scan)) as usize
}

// Which record of an integration one is.
fn number_of(at: SeriesAt, baselines: u32) -> u32
    requires product { at.product < 256 }
    requires baseline { at.baseline < 528 }
    requires baselines { baselines ≤ 528 }
    ensures value { result ≡ at.product * baselines + at.baseline }
    ensures few { result < 2 ^ 18 }
{
    at.product * baselines + at.baseline
}

// How many cells an integration has.
fn stride(head: &VisHead, scan: u32) -> usize
    requires { scan < length head.now.scans }
    ensures { result ≡ head.now.lags * records_each head.now (scan_at head.now scan) }
{
    head.lags() as usize * each(head, scan) as usize
}

// How many records an integration of a scan has.
fn each(head: &VisHead, scan: u32) -> u32
    requires { scan < length head.now.scans }
    ensures value { result ≡ records_each head.now (scan_at head.now scan) }
    ensures few { result < 2 ^ 18 }
    ensures head { IsHead head.now }
{
    products(head) * baselines(head, scan)
}

// How many integrations a scan has.
fn integrations(head: &VisHead, number: u32) -> u64
    requires { number < length head.now.scans }
    ensures value { result ≡ integrations_of head.now (scan_at head.now number) }
    ensures few { result ≤ 2 ^ 40 }
{
    let scan = scan(head, number);
    let samples = scan.samples;
    let integration = head.integration();
    samples.div_ceil(integration)
}

// How many records a scan has.
fn records(head: &VisHead, scan: u32) -> u64
    requires { scan < length head.now.scans }
    ensures { result ≡ records_of head.now (scan_at head.now scan) }
{
    integrations(head, scan) * u64::from(each(head, scan))
}

// How many records the scans before one have.
fn records_before(head: &VisHead, scan: u32) -> usize
    requires scan { scan < length head.now.scans }
    requires few { records_before head.now (length head.now.scans) < 2 ^ 64 }
    ensures { result ≡ records_before head.now scan }
{
    let mut before = 0;
    for i in 0..scan {
        before += records(head, i) as usize;
    }
    before
}
