//! The directions of the turns, sample by sample, beside those of the sectors.
ghost use Rattle.std.specs.Prelude.{◌≡◌, ◌≤◌, ◌<◌, ◌^◌, []};

use crate::{Turn, turns_of};
use delay_poly::{Poly, PolyEntry, PolyList};
use delay_track::{StationModel, Track};
use fringe_rotator::sector;
use station_clock::ClockList;
use std::alloc::Global;
use std::test::Fail;

// The second at which the scan begins: 00:00 of 1 January 2010.
const SECOND: i64 = 1_262_304_000;

// A delay of 2 samples that rises or falls so much a knot, in units of 2^-56 sample, and the other way round from the second
// second on; and the samples that are looked at, which are the last of the scan.
#[derive(Clone, Copy)]
struct Row {
    name: &'static str,
    rate: u32,
    knot: u32,
    rise: i64,
    hertz: u64,
    from: u64,
    samples: u64,
}

// About a microsecond a second.
const SLOPE: i64 = 72_057_594_038;

// A row whose delay rises by `slope` a sample.
fn slope_row(name: &'static str, knot: u32, slope: i64, hertz: u64, from: u64) -> Row {
    Row {
        name,
        rate: 32_000_000,
        knot,
        rise: slope.saturating_mul(i64::from(knot)),
        hertz,
        from,
        samples: from.saturating_add(5_000),
    }
}

fn rows() -> [Row; 7] {
    [
        slope_row("rises", 1_000_000, SLOPE, 8_400_000_000, 0),
        slope_row("falls", 1_000_000, -SLOPE, 8_400_000_000, 0),
        slope_row("never turns", 1_000_000, SLOPE, 0, 0),
        slope_row("a knot at each sample", 1, SLOPE, 8_400_000_000, 0),
        slope_row("a knot at seven samples", 7, -SLOPE, 8_400_000_000, 0),
        slope_row("turns soon", 1_000_000, SLOPE, 43_000_000_000, 0),
        slope_row(
            "a polynomial begins",
            1_000_000,
            SLOPE,
            8_400_000_000,
            31_997_500,
        ),
    ]
}

// Adds a polynomial.
fn add(polys: &mut PolyList, second: i64, rise: i64) -> Result<(), Fail> {
    let poly = Poly::new(&[8_589_934_592, rise]).ok_or("no polynomial")?;
    polys.add(PolyEntry { second, poly })?;
    Ok(())
}

fn polys_of(alloc: Global, rise: i64) -> Result<PolyList, Fail> {
    let mut polys = PolyList::new(alloc);
    add(&mut polys, SECOND, rise)?;
    add(&mut polys, SECOND + 1, rise.saturating_neg())?;
    Ok(polys)
}

fn track_of<'a>(polys: &'a PolyList, clocks: &'a ClockList, row: &Row) -> Option<Track<'a>>
    requires { clocks.now ≡ [] }
{
    let fits = polys
        .entries()
        .iter()
        .all(|e| 0 <= e.second && e.second < 4_102_444_800);
    if !fits
        || row.rate == 0
        || row.knot == 0
        || row.knot > 1 << 24
        || row.samples > u64::from(row.rate) * 2
    {
        return None;
    }
    let model = StationModel {
        polys,
        clocks,
        second: SECOND,
        rate: row.rate,
        knot: row.knot,
        samples: row.samples,
    };
    if !model.has_model() || !model.has_clock() {
        return None;
    }
    Some(model.track())
}

// Whether the turns have each sample once, in order, with the direction of its sector.
fn is_same(track: &Track<'_>, hertz: u64, upper: bool, from: u64) -> bool
    requires frequency { hertz < 2 ^ 40 }
    requires inside { from ≤ track.now.samples }
{
    let mut turns = turns_of(track, hertz, upper, from, track.samples);
    let mut turn = Turn {
        from,
        to: from,
        direction: 0,
    };
    for n in from..track.samples {
        if n == turn.to {
            match turns.next() {
                None => return false,
                Some(next) => turn = next,
            }
            if turn.from != n {
                return false;
            }
        }
        let sector = sector(hertz, upper, track.delay(n), track.rate);
        if turn.direction != (sector + 1) / 2 % 8 {
            return false;
        }
    }
    turn.to == track.samples && turns.next().is_none()
}

// Whether they are so in both bands.
fn are_same(alloc: Global, row: &Row) -> Result<bool, Fail> {
    let polys = polys_of(alloc, row.rise)?;
    let clocks = ClockList::new(alloc);
    let track = track_of(&polys, &clocks, row).ok_or("no track")?;
    if row.hertz >= 1 << 40 || row.from > track.samples {
        return Ok(false);
    }
    Ok(is_same(&track, row.hertz, true, row.from) && is_same(&track, row.hertz, false, row.from))
}

#[test]
fn directions_of_the_sectors(rt: HostRuntime) -> Result<(), Fail> {
    for row in &rows() {
        assert!(rt; are_same(rt.alloc(), row)?, "{}", row.name);
    }
    Ok(())
}

// A delay that rises by a sample in 128, which is a turn at 64 hertz: a sixteenth of a turn is 8 samples.
#[test]
fn turns_of_a_rising_delay(rt: HostRuntime) -> Result<(), Fail> {
    let row = Row {
        name: "",
        rate: 64,
        knot: 128,
        rise: 72_057_594_037_927_936,
        hertz: 64,
        from: 0,
        samples: 64,
    };
    let polys = polys_of(rt.alloc(), row.rise)?;
    let clocks = ClockList::new(rt.alloc());
    let track = track_of(&polys, &clocks, &row).ok_or("no track")?;
    let wanted = [
        (true, [(0, 8, 0), (8, 24, 1), (24, 40, 2)]),
        (false, [(0, 9, 0), (9, 25, 7), (25, 41, 6)]),
    ];
    for (upper, rows) in wanted {
        let mut turns = turns_of(&track, 64, upper, 0, track.samples);
        for (from, to, direction) in rows {
            let turn = Turn {
                from,
                to,
                direction,
            };
            assert_eq!(rt; turns.next(), Some(turn), "{upper}");
        }
    }
    Ok(())
}
