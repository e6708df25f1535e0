//! All runs of a scan of two seconds, 64 samples in each, with one polynomial.
ghost use Rattle.std.specs.Prelude.{◌≡◌, ◌≤◌, ◌<◌, ◌^◌, [], IfOk, IfSome};
ghost use Rattle.std.specs.List.{All};
ghost use Rattle.num_time.specs.Times.{IsSecond};

use crate::{all_runs, one_list_of_runs};
use delay_poly::{Poly, PolyEntry, PolyList};
use delay_track::{Run, StationModel, Track};
use station_clock::ClockList;
use std::alloc::Global;
use std::test::Fail;

// The second at which the scan begins: 00:00 of 1 January 2010.
const SECOND: i64 = 1_262_304_000;

fn run(from: u64, to: u64, whole: i64) -> Run {
    Run { from, to, whole }
}

// The polynomial from the scan's begin on.
fn polys_of(alloc: Global, coeffs: &[i64]) -> Result<PolyList, Fail>
    ensures { IfOk result (λ polys. All (λ e. IsSecond e.second) polys) }
{
    let mut polys = PolyList::new(alloc);
    let poly = Poly::new(coeffs).ok_or("no polynomial")?;
    polys.add(PolyEntry {
        second: SECOND,
        poly,
    })?;
    Ok(polys)
}

// The delays of the scan, whose second knot is behind its last sample.
fn track_of<'a>(polys: &'a PolyList, clocks: &'a ClockList) -> Option<Track<'a>>
    requires polys { All (λ e. IsSecond e.second) polys.now }
    requires clocks { clocks.now ≡ [] }
    ensures { IfSome result (λ track. track.samples ≡ 128) }
{
    let model = StationModel {
        polys,
        clocks,
        second: SECOND,
        rate: 64,
        knot: 128,
        samples: 128,
    };
    if !model.has_model() || !model.has_clock() {
        return None;
    }
    Some(model.track())
}

fn runs_of(alloc: Global, coeffs: &[i64], from: u64, to: u64) -> Result<Vec<Run>, Fail>
    requires order { from ≤ to }
    requires inside { to ≤ 128 }
{
    let polys = polys_of(alloc, coeffs)?;
    let clocks = ClockList::new(alloc);
    let track = track_of(&polys, &clocks).ok_or("no track")?;
    Ok(all_runs(alloc, &track, from, to)?)
}

// A delay that falls by a sample, of which a half is rounded up, and one that falls from a half.
#[test]
fn runs_of_a_falling_delay(rt: HostRuntime) -> Result<(), Fail> {
    let alloc = rt.alloc();
    let by_a_sample = [4_294_967_296, -72_057_594_037_927_936];
    let runs = runs_of(alloc, &by_a_sample, 0, 128)?;
    assert_eq!(rt;
        runs.as_slice(),
        [run(0, 65, 1), run(65, 128, 0)].as_slice()
    );
    let none = runs_of(alloc, &by_a_sample, 65, 65)?;
    assert!(rt; none.is_empty());
    let runs = runs_of(alloc, &[2_147_483_648, -16_777_216], 0, 128)?;
    assert_eq!(rt; runs.as_slice(), [run(0, 1, 1), run(1, 128, 0)].as_slice());
    one_list_of_runs();
    Ok(())
}
