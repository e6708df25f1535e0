//! The search for the peak.
ghost use Rattle.std.specs.Prelude.{◌≡◌, ◌+◌, ◌*◌, ◌<◌, ◌≤◌, ◌-ℤ◌, pos, length};
ghost use Rattle.corr_model.specs.Lags.{lag_of};
ghost use Rattle.fringe_search.specs.{Layout.{IsSeriesAt, IsLagOf, series_of}, Peaks.{IsRate, IsPeak, IsSmall, AreSmall}, Best.{IsPoint, IsBest}};

use crate::grid::{Grid, Peak};
use crate::places::SeriesAt;
use crate::series::CellSeries;
use crate::sums::{Sum, bound_of, power, sum_at};
use corr_model::Cell;
use vis_records::Vis;

// A lag, by its number, and a rate, with the sum and its power.
#[derive(Clone, Copy, Debug)]
pub(crate) struct Point {
    pub lag: u32,
    pub rate: i32,
    pub sum: Sum,
    pub power: u128,
}

// Rate n of the grid, from the least one on.
pub(crate) fn rate_at(rates: u32, n: u32) -> i32
    requires rates { rates ≤ 4096 }
    requires n { n ≤ 2 * rates }
    ensures value { result ≡ pos n -ℤ pos rates }
    ensures rate { IsRate rates result }
{
    n as i32 - rates as i32
}

// The lag of this number.
pub(crate) fn lag_at(lags: u32, number: u32) -> i32
    requires lags { lags ≤ 1024 }
    requires number { number < lags }
    ensures { result ≡ lag_of lags number }
{
    number as i32 - (lags / 2) as i32
}

// How many integrations of a lag are gathered.
const GATHERED: usize = 4096;

// The cells of a lag, side by side, where there are few.
pub(crate) fn room() -> [Cell; GATHERED]
    ensures { length result ≡ 4096 }
{
    [Cell {
        re: 0,
        im: 0,
        count: 0,
    }; GATHERED]
}

pub(crate) fn point_at(series: &CellSeries, grid: &Grid, lag: u32, rate: i32) -> Point
    requires lag { lag < series.now.lags }
    requires rate { IsRate grid.now.rates rate }
    requires small { IsSmall series.now }
    ensures point { IsPoint series.now grid.now result }
    ensures lag { result.lag ≡ lag }
    ensures rate { result.rate ≡ rate }
{
    point_from(series, &series.again(), lag, grid, lag, rate)
}

// The same, from the cells of the lag in another series.
pub(crate) fn point_from(
    series: &CellSeries,
    cells: &CellSeries,
    number: u32,
    grid: &Grid,
    lag: u32,
    rate: i32,
) -> Point
    requires lag { lag < series.now.lags }
    requires cells { IsLagOf series.now lag cells.now number }
    requires rate { IsRate grid.now.rates rate }
    requires small { IsSmall series.now }
    ensures point { IsPoint series.now grid.now result }
    ensures lag { result.lag ≡ lag }
    ensures rate { result.rate ≡ rate }
{
    let sum = sum_at(cells, grid, number, rate);
    Point {
        lag,
        rate,
        sum,
        power: power(sum),
    }
}

// The point of greater power, the first where both are equal.
fn better(best: Point, next: Point) -> Point
    ensures taken { best.power < next.power → result ≡ next }
    ensures kept { next.power ≤ best.power → result ≡ best }
{
    if best.power < next.power { next } else { best }
}

// The best point so far after all rates of a lag. Its cells are gathered first, so that the sum of each rate walks through them
// side by side, where there is room for them.
fn best_of_lag(series: &CellSeries, grid: &Grid, lag: u32, best: Point) -> Point
    requires lag { lag < series.now.lags }
    requires small { IsSmall series.now }
    requires best { IsBest series.now grid.now lag 0 best }
    ensures best { IsBest series.now grid.now (lag + 1) 0 result }
{
    let mut cells = room();
    let integrations = series.integrations();
    if integrations > cells.len() as u64 {
        return best_from(series, &series.again(), lag, grid, lag, best);
    }
    series.gather(lag, &mut cells);
    let gathered = CellSeries::of_lag(&cells, integrations);
    best_from(series, &gathered, 0, grid, lag, best)
}

// The same, from the cells of the lag in another series.
fn best_from(
    series: &CellSeries,
    cells: &CellSeries,
    number: u32,
    grid: &Grid,
    lag: u32,
    best: Point,
) -> Point
    requires lag { lag < series.now.lags }
    requires cells { IsLagOf series.now lag cells.now number }
    requires small { IsSmall series.now }
    requires best { IsBest series.now grid.now lag 0 best }
    ensures best { IsBest series.now grid.now (lag + 1) 0 result }
{
    let mut best = best;
    for n in 0..2 * grid.rates + 1 {
        let rate = rate_at(grid.rates, n);
        best = better(best, point_from(series, cells, number, grid, lag, rate));
    }
    best
}

// The same, where a lag is passed over whose bound is less than the best power.
fn after_lag(series: &CellSeries, grid: &Grid, lag: u32, best: Point) -> Point
    requires lag { lag < series.now.lags }
    requires small { IsSmall series.now }
    requires best { IsBest series.now grid.now lag 0 best }
    ensures best { IsBest series.now grid.now (lag + 1) 0 result }
{
    if bound_of(series, lag) < best.power {
        best
    } else {
        best_of_lag(series, grid, lag, best)
    }
}

// The best point of all.
pub(crate) fn best_of(series: &CellSeries, grid: &Grid) -> Point
    requires small { IsSmall series.now }
    ensures best { IsBest series.now grid.now series.now.lags 0 result }
{
    let lags = series.lags();
    let mut best = point_at(series, grid, 0, rate_at(grid.rates, 0));
    for lag in 0..lags {
        best = after_lag(series, grid, lag, best);
    }
    best
}

// The peak of a series on a grid.
pub(crate) fn peak_of(series: &CellSeries, grid: &Grid) -> Peak
    requires { IsSmall series.now }
    ensures { IsPeak series.now grid.now result }
{
    let best = best_of(series, grid);
    Peak {
        lag: lag_at(series.lags(), best.lag),
        rate: best.rate,
        re: i128::from(best.sum.re),
        im: i128::from(best.sum.im),
    }
}

/// The peak of a scan, a product and a baseline, by their numbers in the head, on a grid: the lag and the rate of greatest
/// power; among equals the least lag, then the least rate. A lag whose bound is less than the best power before it is passed
/// over.
pub fn search(vis: &Vis, scan: u32, product: u32, baseline: u32, grid: &Grid) -> Peak
    requires at { IsSeriesAt vis.now.head (record { scan = scan; product = product; baseline = baseline }) }
    requires small { AreSmall vis.now }
    ensures { IsPeak (series_of vis.now (record { scan = scan; product = product; baseline = baseline })) grid.now result }
{
    let at = SeriesAt {
        scan,
        product,
        baseline,
    };
    peak_of(&CellSeries::of(vis, at), grid)
}
