ghost use Rattle.std.specs.Prelude.{◌≡◌, ◌≤◌, ◌<◌, IfSome, slice_get, Some};
ghost use Rattle.plan_places.specs.Places.{place_at, IsPlace};

use super::*;
use piece_plan::{EpochPlan, JobPlan, ScanSize};
use std::process::Abort;
use std::test::*;

fn size(samples: u64) -> ScanSize
    ensures { result ≡ record { first = 0; samples = samples; products = 2; baselines = 3 } }
{
    ScanSize {
        first: 0,
        samples,
        products: 2,
        baselines: 3,
    }
}

fn place(scan: u32, m: u64, from: u64) -> Place {
    Place { scan, m, from }
}

// Epochs of a scan that follow each other: from this sample on, up to each of these ends.
#[derive(Clone, Copy)]
struct Epochs<'a> {
    scan: u32,
    from: u64,
    ends: &'a [u64],
}

fn epochs_of<'a>(scan: u32, from: u64, ends: &'a [u64]) -> Epochs<'a> {
    Epochs { scan, from, ends }
}

// The epoch between two samples, where integrations have 64.
fn epoch(scan: u32, from: u64, to: u64) -> EpochPlan {
    EpochPlan {
        scan,
        m: from / 64,
        from,
        to,
        products: 2,
        baselines: 3,
        lags: 4,
    }
}

// The walk from a place with epochs of so many samples is this one.
fn has_walk(rt: &impl Abort, plan: &JobPlan, from: Option<Place>, samples: u64, want: &[Epochs])
    requires place { IfSome from (λ p. IsPlace plan.now (place_at p)) }
    requires some { 1 ≤ samples }
    requires short { samples ≤ 4194304 }
{
    let mut rest = left(plan, from, samples);
    let mut at = from;
    for part in want {
        let mut begin = part.from;
        for end in part.ends {
            let Some(p) = at else {
                panic!(rt; "the walk is over");
            };
            assert!(rt; is_place(plan, &p));
            let next = cut(plan, &p, samples);
            assert_eq!(rt; next, epoch(part.scan, begin, *end));
            at = after(plan, &next);
            begin = *end;
            assert!(rt; 0 < rest);
            rest -= 1;
        }
    }
    assert_eq!(rt; at, None);
    assert_eq!(rt; rest, 0);
}

// Whether each of these samples is a place, as one of integration `m` of a scan.
fn are_places(rt: &impl Abort, plan: &JobPlan, scan: u32, m: u64, all: &[u64], want: bool) {
    for from in all {
        assert_eq!(rt; is_place(plan, &place(scan, m, *from)), want);
    }
}

// Scans of 100, 0 and 70 samples in integrations of 64: each has a whole one and a shorter one, and the scan without a
// sample has none.
#[test]
fn places_of_a_job(rt: HostRuntime) -> Result<(), Fail> {
    let scans = [size(100), size(0), size(70)];
    let plan = JobPlan::new(rt.alloc(), &scans, 64, 40, 4)?;
    assert_eq!(rt; start(&plan), Some(place(0, 0, 0)));
    are_places(&rt, &plan, 0, 0, &[0, 39, 40, 63], true);
    are_places(&rt, &plan, 0, 1, &[64, 99], true);
    are_places(&rt, &plan, 2, 0, &[0, 63], true);
    are_places(&rt, &plan, 2, 1, &[64, 69], true);
    are_places(&rt, &plan, 0, 0, &[64], false);
    are_places(&rt, &plan, 0, 1, &[63, 100], false);
    are_places(&rt, &plan, 0, 2, &[128], false);
    are_places(&rt, &plan, 1, 0, &[0], false);
    are_places(&rt, &plan, 2, 1, &[70], false);
    are_places(&rt, &plan, 3, 0, &[0], false);
    are_places(&rt, &plan, u32::MAX, u64::MAX, &[u64::MAX], false);
    Ok(())
}

#[test]
fn walks_of_a_job(rt: HostRuntime) -> Result<(), Fail> {
    let scans = [size(100), size(0), size(70)];
    let plan = JobPlan::new(rt.alloc(), &scans, 64, 40, 4)?;
    has_walk(
        &rt,
        &plan,
        start(&plan),
        64,
        &[epochs_of(0, 0, &[64, 100]), epochs_of(2, 0, &[64, 70])],
    );
    has_walk(
        &rt,
        &plan,
        start(&plan),
        28,
        &[
            epochs_of(0, 0, &[28, 56, 64, 92, 100]),
            epochs_of(2, 0, &[28, 56, 64, 70]),
        ],
    );
    Ok(())
}

// From inside an integration, where no epoch of the plan begins.
#[test]
fn walks_from_inside(rt: HostRuntime) -> Result<(), Fail> {
    let scans = [size(0), size(100), size(0), size(70), size(0)];
    let plan = JobPlan::new(rt.alloc(), &scans, 64, 40, 4)?;
    let at = place(1, 0, 50);
    assert!(rt; is_place(&plan, &at));
    has_walk(
        &rt,
        &plan,
        Some(at),
        28,
        &[
            epochs_of(1, 50, &[64, 92, 100]),
            epochs_of(3, 0, &[28, 56, 64, 70]),
        ],
    );
    let last = place(3, 1, 69);
    assert!(rt; is_place(&plan, &last));
    has_walk(&rt, &plan, Some(last), 4194304, &[epochs_of(3, 69, &[70])]);
    has_walk(&rt, &plan, None, 64, &[]);
    Ok(())
}

// Integrations 1 and 2 of a job are the shorter one of scan 0 and the whole one of scan 2.
#[test]
fn walk_of_a_limited_job(rt: HostRuntime) -> Result<(), Fail> {
    let scans = [size(100), size(0), size(70)];
    let whole = JobPlan::new(rt.alloc(), &scans, 64, 40, 4)?;
    let plan = whole.limited(rt.alloc(), 1, 3)?;
    assert_eq!(rt; start(&plan), Some(place(0, 1, 64)));
    are_places(&rt, &plan, 0, 1, &[64, 99], true);
    are_places(&rt, &plan, 2, 0, &[0, 63], true);
    are_places(&rt, &plan, 0, 0, &[0, 63], false);
    are_places(&rt, &plan, 0, 1, &[100], false);
    are_places(&rt, &plan, 1, 0, &[0], false);
    are_places(&rt, &plan, 2, 0, &[64], false);
    are_places(&rt, &plan, 2, 1, &[64], false);
    has_walk(
        &rt,
        &plan,
        start(&plan),
        28,
        &[epochs_of(0, 64, &[92, 100]), epochs_of(2, 0, &[28, 56, 64])],
    );
    let none = whole.limited(rt.alloc(), 2, 2)?;
    assert_eq!(rt; start(&none), None);
    Ok(())
}

// Epochs of 40 samples, and those up to the end of an integration where fewer are left.
#[test]
fn own_epochs(rt: HostRuntime) -> Result<(), Fail> {
    let plan = JobPlan::new(rt.alloc(), &[size(100)], 64, 40, 4)?;
    for e in &[
        epoch(0, 0, 40),
        epoch(0, 10, 50),
        epoch(0, 39, 64),
        epoch(0, 63, 64),
        epoch(0, 64, 100),
        epoch(0, 70, 100),
    ] {
        let at = place(e.scan, e.m, e.from);
        if !is_place(&plan, &at) {
            panic!(&rt; "no place");
        }
        assert_eq!(&rt; cut_own(&plan, &at), *e);
    }
    Ok(())
}

#[test]
fn places_at_the_limits(rt: HostRuntime) -> Result<(), Fail> {
    let none = JobPlan::new(rt.alloc(), &[], 1, 1, 4)?;
    assert_eq!(rt; start(&none), None);
    let empty = JobPlan::new(rt.alloc(), &[size(0)], 1, 1, 4)?;
    assert_eq!(rt; start(&empty), None);
    let scans = [size(1 << 40), size(1 << 40)];
    let plan = JobPlan::new(rt.alloc(), &scans, 1 << 36, 4194304, 4)?;
    let first = place(0, 0, 1);
    assert!(rt; is_place(&plan, &first));
    assert_eq!(rt; left(&plan, Some(first), 1), (1 << 41) - 1);
    assert_eq!(rt; left(&plan, Some(first), 4194304), 1 << 19);
    Ok(())
}
