//! Whether the sums of a record file are within what the search can add.
ghost use Rattle.std.specs.Prelude.{◌<◌, MatchOption};
ghost use Rattle.fringe_search.specs.Peaks.{AreSmall, IsFirstLarge, IsFirstLargeOf, IsSmall};

use crate::places::{after, first};
use crate::series::CellSeries;
use crate::sums::amplitude_of;
use vis_records::Vis;

// The first amplitude of 2^49 or more in a series.
fn first_large(series: &CellSeries) -> Option<u128>
    ensures { MatchOption result (IsSmall series.now) (IsFirstLargeOf series.now) }
{
    for lag in 0..series.lags() {
        let amplitude = amplitude_of(series, lag);
        if amplitude >= 1 << 49 {
            return Some(amplitude);
        }
    }
    None
}

/// The first amplitude of 2^49 or more, by scan, product, baseline and rising lag: the sum over a lag's cells of the
/// magnitudes of their real and imaginary parts. The calls of this crate search only where there is none.
pub fn amplitude(vis: &Vis) -> Option<u128>
    ensures { MatchOption result (AreSmall vis.now) (IsFirstLarge vis.now) }
{
    let head = vis.head();
    let mut next = first(head);
    while let Some(at) = next {
        if let Some(amplitude) = first_large(&CellSeries::of(vis, at)) {
            return Some(amplitude);
        }
        next = after(head, at);
    }
    None
}
