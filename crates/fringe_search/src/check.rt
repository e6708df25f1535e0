//! The check of a certificate.
ghost use Rattle.std.specs.Prelude.{◌≡◌, ◌+◌, ◌≤◌, ◌∷◌, ◌↔◌, List, IsOk, IfOk, IfErr, length};
ghost use Rattle.fringe_search.specs.{Layout.{IsSeriesAt}, Peaks.{AreSmall}, Certificates.{AtPeak, IsRight}, Fronts.{IsRead, IsStopped, IsWrongAt}};

use crate::grid::Grid;
use crate::places::{SeriesAt, after, first};
use crate::read::{take_grid, take_lag, take_peak};
use crate::series::CellSeries;
use thiserror::Error;
use vis_records::Vis;

/// The place, in bytes, where the first line begins that is not the due one or not true; where a line is due and the text has
/// ended, the text's length.
#[derive(Clone, Copy, Debug, PartialEq, Eq, Error)]
#[error("certificate at byte {at}")]
pub struct Wrong {
    pub at: u64,
}

// The text behind the lines of a scan, a product and a baseline; or the text from their first wrong line on.
fn check_series<'a>(
    vis: &Vis,
    grid: &Grid,
    at: SeriesAt,
    text: &'a [u8],
) -> Result<&'a [u8], &'a [u8]>
    requires at { IsSeriesAt vis.now.head at }
    requires small { AreSmall vis.now }
    ensures read { IfOk result (λ rest. (left : List SeriesAt) → IsRead vis.now (AtPeak grid.now (at ∷ left)) text.now (AtPeak grid.now left) rest.now) }
    ensures stopped { IfErr result (λ rest. (left : List SeriesAt) → IsStopped vis.now (AtPeak grid.now (at ∷ left)) text.now rest.now) }
{
    let series = CellSeries::of(vis, at);
    let Some((peak, behind)) = take_peak(&series, grid, at, text) else {
        return Err(text);
    };
    let mut rest = behind;
    for lag in 0..series.lags() {
        let Some(behind) = take_lag(&series, grid, &peak, lag, rest) else {
            return Err(rest);
        };
        rest = behind;
    }
    Ok(rest)
}

/// Checks the certificate of a record file: a line for the grid, for each scan, product and baseline the line of its peak, and
/// behind that a line for each lag. Nothing is searched for: a lag with a `bound` line is not gone through.
pub fn check_certificate(vis: &Vis, text: &[u8]) -> Result<(), Wrong>
    requires { AreSmall vis.now }
    ensures right { IsOk result ↔ IsRight vis.now text.now }
    ensures wrong { IfErr result (λ w. IsWrongAt vis.now text.now w.at) }
{
    let head = vis.head();
    let Some((grid, behind)) = take_grid(text) else {
        return Err(Wrong { at: 0 });
    };
    let mut rest = behind;
    let mut next = first(head);
    while let Some(at) = next {
        match check_series(vis, &grid, at, rest) {
            Ok(behind) => rest = behind,
            Err(wrong) => return Err(wrong_at(text, wrong)),
        }
        next = after(head, at);
    }
    if rest.is_empty() {
        Ok(())
    } else {
        Err(wrong_at(text, rest))
    }
}

// The place where the rest of a text begins.
fn wrong_at(text: &[u8], rest: &[u8]) -> Wrong
    requires { length rest.now ≤ length text.now }
    ensures { result.at + length rest.now ≡ length text.now }
{
    Wrong {
        at: (text.len() - rest.len()) as u64,
    }
}
