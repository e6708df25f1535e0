//! Why a lag has no better point than the peak.
ghost use Rattle.std.specs.Prelude.{◌<◌, ◌↔◌, IsTrue};
ghost use Rattle.fringe_search.specs.{Layout.{IsLagOf}, Peaks.{IsAhead, IsSmall}, Best.{IsPoint}, Certificates.{IsTrueMark}};

use crate::grid::Grid;
use crate::peak::{Point, point_from, rate_at, room};
use crate::series::CellSeries;
use crate::sums::bound_of;

/// The reason: its bound, or each rate of the grid.
#[derive(Clone, Copy, Debug)]
pub(crate) enum Mark {
    Bound,
    Grid,
}

// Whether a lag's reason is true beside a peak.
pub(crate) fn is_true_mark(
    series: &CellSeries,
    grid: &Grid,
    peak: &Point,
    lag: u32,
    mark: Mark,
) -> bool
    requires lag { lag < series.now.lags }
    requires small { IsSmall series.now }
    requires peak { IsPoint series.now grid.now peak.now }
    ensures { IsTrue result ↔ IsTrueMark series.now grid.now peak.now.lag peak.now.rate lag mark }
{
    match mark {
        Mark::Bound => bound_of(series, lag) < peak.power,
        Mark::Grid => leads_lag(series, grid, peak, lag),
    }
}

// Whether a point leads each rate of a lag, whose cells are gathered first where there is room for them.
fn leads_lag(series: &CellSeries, grid: &Grid, peak: &Point, lag: u32) -> bool
    requires lag { lag < series.now.lags }
    requires small { IsSmall series.now }
    requires peak { IsPoint series.now grid.now peak.now }
    ensures { IsTrue result ↔ IsTrueMark series.now grid.now peak.now.lag peak.now.rate lag Mark.Grid }
{
    let mut cells = room();
    let integrations = series.integrations();
    if integrations > cells.len() as u64 {
        return leads_from(series, &series.again(), lag, grid, peak, lag);
    }
    series.gather(lag, &mut cells);
    let gathered = CellSeries::of_lag(&cells, integrations);
    leads_from(series, &gathered, 0, grid, peak, lag)
}

// The same, from the cells of the lag in another series.
fn leads_from(
    series: &CellSeries,
    cells: &CellSeries,
    number: u32,
    grid: &Grid,
    peak: &Point,
    lag: u32,
) -> bool
    requires lag { lag < series.now.lags }
    requires cells { IsLagOf series.now lag cells.now number }
    requires small { IsSmall series.now }
    requires peak { IsPoint series.now grid.now peak.now }
    ensures { IsTrue result ↔ IsTrueMark series.now grid.now peak.now.lag peak.now.rate lag Mark.Grid }
{
    for n in 0..2 * grid.rates + 1 {
        let rate = rate_at(grid.rates, n);
        if !leads(peak, &point_from(series, cells, number, grid, lag, rate)) {
            return false;
        }
    }
    true
}

// Whether a point leads another.
fn leads(peak: &Point, other: &Point) -> bool
    ensures { IsTrue result ↔ IsAhead peak.now.power peak.now.lag peak.now.rate other.now.power other.now.lag other.now.rate }
{
    if other.power == peak.power {
        peak.lag < other.lag || (peak.lag == other.lag && peak.rate <= other.rate)
    } else {
        other.power < peak.power
    }
}
