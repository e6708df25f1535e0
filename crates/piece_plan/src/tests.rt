ghost use Rattle.std.specs.Prelude.{◌≡◌, ◌≤◌};

use super::*;
use std::process::Abort;
use std::test::*;

fn size(samples: u64, products: u32, baselines: u32) -> ScanSize
    ensures { result ≡ record { first = 0; samples = samples; products = products; baselines = baselines } }
{
    ScanSize {
        first: 0,
        samples,
        products,
        baselines,
    }
}

// Epochs of a scan of so many products and baselines that follow each other: from this sample on, up to each of these ends.
#[derive(Clone, Copy)]
struct Epochs<'a> {
    scan: u32,
    products: u32,
    baselines: u32,
    from: u64,
    ends: &'a [u64],
}

fn epochs_of<'a>(
    scan: u32,
    products: u32,
    baselines: u32,
    from: u64,
    ends: &'a [u64],
) -> Epochs<'a> {
    Epochs {
        scan,
        products,
        baselines,
        from,
        ends,
    }
}

fn piece(product: u32, baseline: u32, from: u64, to: u64) -> Piece {
    Piece {
        product,
        baseline,
        from,
        to,
    }
}

// The one from a sample up to another, where integrations have so many samples.
fn epoch(of: &Epochs, integration: u64, from: u64, to: u64) -> EpochPlan
    requires { 1 ≤ integration }
{
    EpochPlan {
        scan: of.scan,
        m: from / integration,
        from,
        to,
        products: of.products,
        baselines: of.baselines,
        lags: 2,
    }
}

// The epochs of a plan are these, in order.
fn has_epochs(rt: &impl Abort, plan: &JobPlan, want: &[Epochs]) {
    let mut i = 0;
    for of in want {
        let mut from = of.from;
        for to in of.ends {
            assert!(rt; i < plan.epochs());
            assert_eq!(rt; plan.epoch(i), epoch(of, plan.integration(), from, *to));
            from = *to;
            i += 1;
        }
    }
    assert_eq!(rt; plan.epochs(), i);
}

// The pieces of an epoch with these numbers are these.
fn has_pieces(rt: &impl Abort, pieces: &PiecePlan, want: &[(u64, Piece)]) {
    for (n, p) in want {
        let n = *n;
        assert!(rt; n < pieces.count());
        assert_eq!(rt; pieces.piece(n), *p);
    }
}

#[test]
fn epochs_and_pieces_of_one_scan(rt: HostRuntime) -> Result<(), Fail> {
    let scans = [size(128, 1, 1)];
    let plan = JobPlan::new(rt.alloc(), &scans, 128, 50, 2)?;
    has_epochs(&rt, &plan, &[epochs_of(0, 1, 1, 0, &[50, 100, 128])]);
    assert!(rt; 0 < plan.epochs());
    assert_eq!(rt; PiecePlan::new(&plan.epoch(0), 64).count(), 1);
    let whole = JobPlan::new(rt.alloc(), &scans, 128, 128, 2)?;
    assert!(rt; 0 < whole.epochs());
    let pieces = PiecePlan::new(&whole.epoch(0), 65);
    assert_eq!(rt; pieces.count(), 2);
    has_pieces(
        &rt,
        &pieces,
        &[(0, piece(0, 0, 0, 65)), (1, piece(0, 0, 65, 128))],
    );
    Ok(())
}

// Scans without a sample have no epochs, and the last epoch of an integration is shorter.
#[test]
fn epochs_of_several_scans(rt: HostRuntime) -> Result<(), Fail> {
    let scans = [
        size(0, 1, 1),
        size(100, 2, 3),
        size(0, 1, 1),
        size(70, 1, 1),
    ];
    let plan = JobPlan::new(rt.alloc(), &scans, 64, 40, 2)?;
    has_epochs(
        &rt,
        &plan,
        &[
            epochs_of(1, 2, 3, 0, &[40, 64, 100]),
            epochs_of(3, 1, 1, 0, &[40, 64, 70]),
        ],
    );
    assert!(rt; 0 < plan.epochs());
    let first = plan.epoch(0);
    assert_eq!(rt; first.cells(), 12);
    let pieces = PiecePlan::new(&first, 16);
    assert_eq!(rt; pieces.per_group(), 3);
    assert_eq!(rt; pieces.count(), 18);
    has_pieces(
        &rt,
        &pieces,
        &[
            (0, piece(0, 0, 0, 16)),
            (2, piece(0, 0, 32, 40)),
            (4, piece(0, 1, 16, 32)),
            (11, piece(1, 0, 32, 40)),
            (17, piece(1, 2, 32, 40)),
        ],
    );
    Ok(())
}

// Integrations are counted through all scans, and those that a limited job has keep their numbers.
#[test]
fn epochs_of_limited_jobs(rt: HostRuntime) -> Result<(), Fail> {
    let scans = [size(100, 2, 3), size(0, 1, 1), size(70, 1, 1)];
    let plan = JobPlan::new(rt.alloc(), &scans, 64, 40, 2)?;
    assert_eq!(rt; plan.integrations(), 4);
    let part = plan.limited(rt.alloc(), 1, 3)?;
    assert_eq!(rt; part.integrations(), 2);
    has_epochs(
        &rt,
        &part,
        &[
            epochs_of(0, 2, 3, 64, &[100]),
            epochs_of(2, 1, 1, 0, &[40, 64]),
        ],
    );
    let whole = plan.limited(rt.alloc(), 0, 4)?;
    assert_eq!(rt; whole.integrations(), 4);
    has_epochs(
        &rt,
        &whole,
        &[
            epochs_of(0, 2, 3, 0, &[40, 64, 100]),
            epochs_of(2, 1, 1, 0, &[40, 64, 70]),
        ],
    );
    let none = plan.limited(rt.alloc(), 2, 2)?;
    assert_eq!(rt; none.integrations(), 0);
    has_epochs(&rt, &none, &[]);
    Ok(())
}

#[test]
fn epochs_at_the_limits(rt: HostRuntime) -> Result<(), Fail> {
    let none = JobPlan::new(rt.alloc(), &[], 1, 1, 2)?;
    assert_eq!(rt; none.epochs(), 0);
    let scans = [size(1 << 40, 1, 1)];
    let plan = JobPlan::new(rt.alloc(), &scans, 1, 1, 2)?;
    assert_eq!(rt; plan.epochs(), 1 << 40);
    let last = (1 << 40) - 1;
    assert!(rt; last < plan.epochs());
    let ends = [last + 1];
    let of = epochs_of(0, 1, 1, last, &ends);
    assert_eq!(rt; plan.epoch(last), epoch(&of, 1, last, last + 1));
    Ok(())
}
