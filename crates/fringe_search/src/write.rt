//! The certificate on its way to a sink.
ghost use Rattle.std.specs.Prelude.{◌≡◌, ◌<◌};
ghost use Rattle.sink_text.specs.Written.{Puts};
ghost use Rattle.fringe_search.specs.{Layout.{IsSeriesAt}, Peaks.{AreSmall, IsSmall}, Certificates.{GridLine, PeakLine, LagLine, line_text, lines_text, peak_text, place_text}};
ghost use Rattle.fringe_search.specs.Written.{due_mark, lag_lines, shown, PutsSeries, PutsCertificate, AppendsCertificate};

use crate::claim::Mark;
use crate::grid::Grid;
use crate::peak::{Point, best_of, lag_at};
use crate::places::{SeriesAt, after, first};
use crate::series::CellSeries;
use crate::strip::word_of;
use crate::sums::bound_of;
use dev_traits::Sink;
use sink_text::{Piece, Stretch};
use vis_records::{SinkFault, Vis, end};

// Puts the line of a grid.
fn put_grid<S: Sink>(grid: &Grid, lines: &mut Stretch, out: &mut S)
    ensures { Puts (line_text (GridLine grid.now)) lines.old lines.new (S.told out.old) (S.told out.new) (S.faults out.old) (S.faults out.new) }
{
    lines.put_pieces(
        &[
            Piece::Text("grid "),
            Piece::Number(u64::from(grid.rates)),
            Piece::Text(" "),
            Piece::Number(u64::from(grid.divide)),
            Piece::Text("\n"),
        ],
        out,
    );
}

// Puts the line of a peak.
fn put_peak<S: Sink>(at: SeriesAt, lag: i32, peak: &Point, lines: &mut Stretch, out: &mut S)
    ensures { Puts (line_text (PeakLine at (shown lag peak.now))) lines.old lines.new (S.told out.old) (S.told out.new) (S.faults out.old) (S.faults out.new) }
{
    put_place(at, lines, out);
    put_point(lag, peak, lines, out);
}

// Puts the front of it: where the peak is looked for.
fn put_place<S: Sink>(at: SeriesAt, lines: &mut Stretch, out: &mut S)
    ensures { Puts (place_text at) lines.old lines.new (S.told out.old) (S.told out.new) (S.faults out.old) (S.faults out.new) }
{
    lines.put_pieces(
        &[
            Piece::Text("peak "),
            Piece::Number(u64::from(at.scan)),
            Piece::Text(" "),
            Piece::Number(u64::from(at.product)),
            Piece::Text(" "),
            Piece::Number(u64::from(at.baseline)),
            Piece::Text(" "),
        ],
        out,
    );
}

// Puts its end: the lag, the rate and the sum.
fn put_point<S: Sink>(lag: i32, peak: &Point, lines: &mut Stretch, out: &mut S)
    ensures { Puts (peak_text (shown lag peak.now)) lines.old lines.new (S.told out.old) (S.told out.new) (S.faults out.old) (S.faults out.new) }
{
    lines.put_pieces(
        &[
            Piece::Signed(i64::from(lag)),
            Piece::Text(" "),
            Piece::Signed(i64::from(peak.rate)),
            Piece::Text(" "),
            Piece::Signed(peak.sum.re),
            Piece::Text(" "),
            Piece::Signed(peak.sum.im),
            Piece::Text("\n"),
        ],
        out,
    );
}

// Puts the line of a lag.
fn put_lag<S: Sink>(lag: i32, mark: Mark, lines: &mut Stretch, out: &mut S)
    ensures { Puts (line_text (LagLine lag mark)) lines.old lines.new (S.told out.old) (S.told out.new) (S.faults out.old) (S.faults out.new) }
{
    lines.put_pieces(
        &[
            Piece::Text("lag "),
            Piece::Signed(i64::from(lag)),
            Piece::Bytes(word_of(mark)),
        ],
        out,
    );
}

// The reason of a lag's line: its bound, where that is less than the power of the peak.
fn mark_of(series: &CellSeries, top: u128, lag: u32) -> Mark
    requires lag { lag < series.now.lags }
    requires small { IsSmall series.now }
    ensures { result ≡ due_mark series.now top lag }
{
    if bound_of(series, lag) < top {
        Mark::Bound
    } else {
        Mark::Grid
    }
}

// Puts the lines of all lags beside a peak of this power.
fn put_lags<S: Sink>(series: &CellSeries, top: u128, lines: &mut Stretch, out: &mut S)
    requires { IsSmall series.now }
    ensures { Puts (lines_text (lag_lines series.now top)) lines.old lines.new (S.told out.old) (S.told out.new) (S.faults out.old) (S.faults out.new) }
{
    let lags = series.lags();
    for lag in 0..lags {
        put_lag(lag_at(lags, lag), mark_of(series, top, lag), lines, out);
    }
}

// Searches for the peak of a scan, a product and a baseline, and puts its lines.
fn put_series<S: Sink>(vis: &Vis, grid: &Grid, at: SeriesAt, lines: &mut Stretch, out: &mut S)
    requires at { IsSeriesAt vis.now.head at }
    requires small { AreSmall vis.now }
    ensures { PutsSeries vis.now grid.now at lines.old lines.new (S.told out.old) (S.told out.new) (S.faults out.old) (S.faults out.new) }
{
    let series = CellSeries::of(vis, at);
    let peak = best_of(&series, grid);
    put_peak(at, lag_at(series.lags(), peak.lag), &peak, lines, out);
    put_lags(&series, peak.power, lines, out);
}

// Puts all lines.
fn put_certificate<S: Sink>(vis: &Vis, grid: &Grid, lines: &mut Stretch, out: &mut S)
    requires { AreSmall vis.now }
    ensures { PutsCertificate vis.now grid.now lines.old lines.new (S.told out.old) (S.told out.new) (S.faults out.old) (S.faults out.new) }
{
    put_grid(grid, lines, out);
    let head = vis.head();
    let mut next = first(head);
    while let Some(at) = next {
        put_series(vis, grid, at, lines, out);
        next = after(head, at);
    }
}

/// Appends the certificate of a record file on a grid, in stretches of up to 8,192 bytes: the lines of all peaks, each with a
/// line for each lag, which has `bound` exactly where the lag's bound is less than the peak's power. Where the sink fails, what
/// was appended before stays.
pub fn write_certificate<S: Sink>(vis: &Vis, grid: &Grid, out: &mut S) -> Result<(), SinkFault>
    requires { AreSmall vis.now }
    ensures { AppendsCertificate vis.now grid.now (S.told out.old) (S.told out.new) (S.faults out.old) (S.faults out.new) result }
{
    let mut lines = Stretch::new();
    put_certificate(vis, grid, &mut lines, out);
    end(lines, out)
}
