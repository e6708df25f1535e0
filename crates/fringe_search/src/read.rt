//! The lines of a certificate at the front of a text.
ghost use Rattle.std.specs.Prelude.{◌≡◌, ◌≢◌, ◌++◌, ◌≤◌, ◌<◌, ℕ, MatchOption};
ghost use Rattle.corr_model.specs.Lags.{lag_of};
ghost use Rattle.fringe_search.specs.{Peaks.{IsRate, IsSmall}, Best.{IsPoint}, Certificates.{GridLine, LagLine, line_text, sums_text}};
ghost use Rattle.fringe_search.specs.Taken.{IsGridOf, IsPointAt, HasPeakLine, HasNoPeakLine, HasLagLine, HasNoMark, HasNoLagLine, Lacks};

use crate::claim::{Mark, is_true_mark};
use crate::grid::Grid;
use crate::number::{take_number, take_signed};
use crate::peak::{Point, lag_at, point_at};
use crate::places::SeriesAt;
use crate::series::CellSeries;
use crate::strip::{strip, strip_place, strip_signed, word_of};
use crate::sums::Sum;

// The grid of these numbers, where they are within its ranges.
fn grid_of(rates: u32, divide: u32) -> Option<Grid>
    ensures { MatchOption result ((g : Grid) → ¬ IsGridOf rates divide g) (IsGridOf rates divide) }
{
    if rates <= 4096 && 0 < divide && divide <= 65536 {
        Some(Grid { rates, divide })
    } else {
        None
    }
}

// The grid of the text's first line, and the text behind that.
pub(crate) fn take_grid<'a>(text: &'a [u8]) -> Option<(Grid, &'a [u8])>
    ensures { MatchOption result ((g : Grid) → Lacks text.now (line_text (GridLine g))) (λ taken. text.now ≡ line_text (GridLine taken.0) ++ taken.1.now) }
{
    let words = strip(text, b"grid ")?;
    let (rates, later) = take_number(words, b' ')?;
    let (divide, rest) = take_number(later, b'\n')?;
    let grid = grid_of(rates, divide)?;
    Some((grid, rest))
}

// The number of a lag.
fn number_of(lags: u32, lag: i32) -> Option<u32>
    requires { lags ≤ 1024 }
    ensures { MatchOption result ((n : ℕ) → n < lags → lag ≢ lag_of lags n) (λ n. (n < lags) × (lag ≡ lag_of lags n)) }
{
    let number = i64::from(lag) + i64::from(lags / 2);
    if 0 <= number && number < i64::from(lags) {
        Some(number as u32)
    } else {
        None
    }
}

// The point at a lag, by its number, and a rate, where that is of the grid.
fn point_of(series: &CellSeries, grid: &Grid, lag: u32, rate: i32) -> Option<Point>
    requires lag { lag < series.now.lags }
    requires small { IsSmall series.now }
    ensures { MatchOption result (¬ IsRate grid.now.rates rate) (IsPointAt series.now grid.now lag rate) }
{
    if rate.unsigned_abs() <= grid.rates {
        Some(point_at(series, grid, lag, rate))
    } else {
        None
    }
}

// The text behind the two numbers of a sum, and the end of their line.
fn strip_sum<'a>(text: &'a [u8], sum: Sum) -> Option<&'a [u8]>
    ensures { MatchOption result (Lacks text.now (sums_text sum.re sum.im)) (λ rest. text.now ≡ sums_text sum.re sum.im ++ rest.now) }
{
    let middle = strip_signed(text, sum.re, b" ")?;
    strip_signed(middle, sum.im, b"\n")
}

// The point of a true line of a peak, and the text behind that.
pub(crate) fn take_peak<'a>(
    series: &CellSeries,
    grid: &Grid,
    at: SeriesAt,
    text: &'a [u8],
) -> Option<(Point, &'a [u8])>
    requires { IsSmall series.now }
    ensures { MatchOption result (HasNoPeakLine series.now grid.now at text.now) (λ taken. HasPeakLine series.now grid.now at text.now taken.0 taken.1.now) }
{
    let lags = series.lags();
    let words = strip_place(text, at)?;
    let (lag, later) = take_signed(words, b' ')?;
    let (rate, sums) = take_signed(later, b' ')?;
    let number = number_of(lags, lag)?;
    let point = point_of(series, grid, number, rate)?;
    let rest = strip_sum(sums, point.sum)?;
    Some((point, rest))
}

// The text behind a lag's line.
fn strip_lag<'a>(text: &'a [u8], lag: i32, mark: Mark) -> Option<&'a [u8]>
    ensures { MatchOption result (Lacks text.now (line_text (LagLine lag mark))) (λ rest. text.now ≡ line_text (LagLine lag mark) ++ rest.now) }
{
    let number = strip(text, b"lag ")?;
    strip_signed(number, i64::from(lag), word_of(mark))
}

// The text behind a lag's line with this reason, where that stands there and is true.
fn take_mark<'a>(
    series: &CellSeries,
    grid: &Grid,
    peak: &Point,
    lag: u32,
    mark: Mark,
    text: &'a [u8],
) -> Option<&'a [u8]>
    requires lag { lag < series.now.lags }
    requires small { IsSmall series.now }
    requires peak { IsPoint series.now grid.now peak.now }
    ensures { MatchOption result (HasNoMark series.now grid.now peak.now lag text.now mark) (λ rest. HasLagLine series.now grid.now peak.now lag text.now rest.now) }
{
    let rest = strip_lag(text, lag_at(series.lags(), lag), mark)?;
    if is_true_mark(series, grid, peak, lag, mark) {
        Some(rest)
    } else {
        None
    }
}

// The text behind a true line of a lag.
pub(crate) fn take_lag<'a>(
    series: &CellSeries,
    grid: &Grid,
    peak: &Point,
    lag: u32,
    text: &'a [u8],
) -> Option<&'a [u8]>
    requires lag { lag < series.now.lags }
    requires small { IsSmall series.now }
    requires peak { IsPoint series.now grid.now peak.now }
    ensures { MatchOption result (HasNoLagLine series.now grid.now peak.now lag text.now) (λ rest. HasLagLine series.now grid.now peak.now lag text.now rest.now) }
{
    match take_mark(series, grid, peak, lag, Mark::Bound, text) {
        Some(rest) => Some(rest),
        None => take_mark(series, grid, peak, lag, Mark::Grid, text),
    }
}
