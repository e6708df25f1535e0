//! The scans, products and baselines of a head, in their order.
ghost use Rattle.std.specs.Prelude.{◌≡◌, ◌+◌, ◌≤◌, ◌<◌, ◌∷◌, length, MatchOption};
ghost use Rattle.corr_model.specs.Records.{IsHead};
ghost use Rattle.vis_records.specs.Heads.{scan_of};
ghost use Rattle.fringe_search.specs.{Layout.{IsSeriesAt, scan_at, series_in}, InOrder.{scans_from, series_from, series_next}};

use vis_records::{VisHead, VisScan};

/// A scan, a product and a baseline of it, by their numbers in a head, each counted from 0.
#[derive(Clone, Copy, Debug)]
pub(crate) struct SeriesAt {
    pub scan: u32,
    pub product: u32,
    pub baseline: u32,
}

// The first one of all.
pub(crate) fn first(head: &VisHead) -> Option<SeriesAt>
    ensures first { series_in head.now ≡ series_next head.now result }
    ensures within { MatchOption result (Unit {0}) (IsSeriesAt head.now) }
{
    scan_from(head, 0)
}

// The one behind another.
pub(crate) fn after(head: &VisHead, at: SeriesAt) -> Option<SeriesAt>
    requires { IsSeriesAt head.now at }
    ensures rest { series_from head.now at ≡ at ∷ series_next head.now result }
    ensures within { MatchOption result (Unit {0}) (IsSeriesAt head.now) }
{
    let count = baselines(head, at.scan);
    let next = at.baseline + 1;
    if next < count {
        Some(SeriesAt {
            scan: at.scan,
            product: at.product,
            baseline: next,
        })
    } else {
        product_after(head, at)
    }
}

// The one behind the last baseline of a product.
fn product_after(head: &VisHead, at: SeriesAt) -> Option<SeriesAt>
    requires at { IsSeriesAt head.now at }
    requires last { length (scan_at head.now at.scan).baselines ≤ at.baseline + 1 }
    requires some { 1 ≤ length (scan_at head.now at.scan).baselines }
    ensures rest { series_from head.now at ≡ at ∷ series_next head.now result }
    ensures within { MatchOption result (Unit {0}) (IsSeriesAt head.now) }
{
    let count = products(head);
    let next = at.product + 1;
    if next < count {
        Some(SeriesAt {
            scan: at.scan,
            product: next,
            baseline: 0,
        })
    } else {
        scan_from(head, at.scan + 1)
    }
}

// The first one of a scan, where there is that scan.
fn scan_from(head: &VisHead, scan: u32) -> Option<SeriesAt>
    requires { scan ≤ length head.now.scans }
    ensures rest { scans_from head.now scan ≡ series_next head.now result }
    ensures within { MatchOption result (Unit {0}) (IsSeriesAt head.now) }
{
    let count = head.scans().len();
    if (scan as usize) < count {
        Some(SeriesAt {
            scan,
            product: 0,
            baseline: 0,
        })
    } else {
        None
    }
}

// How many products there are.
pub(crate) fn products(head: &VisHead) -> u32
    ensures value { result ≡ length head.now.products }
    ensures some { 1 ≤ result }
    ensures few { result ≤ 256 }
    ensures head { IsHead head.now }
{
    head.products().len() as u32
}

// A scan, by its number.
pub(crate) fn scan<'a>(head: &'a VisHead, number: u32) -> &'a VisScan
    requires { number < length head.now.scans }
    ensures is { scan_of result.now ≡ scan_at head.entry.now number }
    ensures head { IsHead head.entry.now }
{
    let scans = head.scans();
    let i = number as usize;
    &scans[i]
}

// How many baselines a scan has.
pub(crate) fn baselines(head: &VisHead, number: u32) -> u32
    requires { number < length head.now.scans }
    ensures value { result ≡ length (scan_at head.now number).baselines }
    ensures some { 1 ≤ result }
    ensures few { result ≤ 528 }
    ensures head { IsHead head.now }
{
    let scan = scan(head, number);
    let items = scan.baselines.items();
    items.len() as u32
}
