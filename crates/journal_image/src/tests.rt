use super::*;
use piece_plan::{EpochPlan, JobPlan, ScanSize};
use plan_places::{Place, is_place};
use std::process::Abort;
use std::test::*;

fn range(scan: u32, m: u64, from: u64, to: u64) -> EpochRange {
    EpochRange { scan, m, from, to }
}

// An epoch with two cells.
fn epoch(from: u64, to: u64) -> Behind {
    Behind::Record(EpochPlan {
        scan: 0,
        m: 0,
        from,
        to,
        products: 1,
        baselines: 1,
        lags: 2,
    })
}

fn fault(at: u64, kept: Option<u8>, ours: Option<u8>) -> Behind {
    Behind::Fault(Differs { at, kept, ours })
}

// A record of two cells with its range.
fn record(r: EpochRange) -> [u8; 76] {
    let mut bytes = [7; 76];
    write_head(&mut bytes, &r);
    bytes
}

// A cell of no sum with this count.
fn cell(count: [u8; 8]) -> [u8; 24] {
    let mut bytes = [0; 24];
    bytes[16..].copy_from_slice(&count);
    bytes
}

// The first `n` of these bytes, from byte 40 of a file to its end, are found to be this, where a record from sample
// `from` of the job's first integration on is due.
fn is_found(
    rt: &impl Abort,
    plan: &JobPlan,
    ranged: bool,
    from: u64,
    bytes: &[u8],
    n: usize,
    want: Behind,
) {
    let place = Place {
        scan: 0,
        m: 0,
        from,
    };
    let some = plan.epochs() > 0;
    if !some || !is_place(plan, &place) {
        panic!(rt; "no place");
    }
    let there = n.min(bytes.len()).min(76);
    let first = there.min(28);
    let mut head = [0; 28];
    head[..first].copy_from_slice(&bytes[..first]);
    let found = behind(&head, there as u64, 40, ranged, &place, plan);
    assert_eq!(rt; found, want);
}

fn plan(rt: &HostRuntime) -> Result<JobPlan, Fail> {
    let size = ScanSize {
        first: 0,
        samples: 100,
        products: 1,
        baselines: 1,
    };
    Ok(JobPlan::new(rt.alloc(), &[size], 64, 40, 2)?)
}

#[test]
fn heads(rt: HostRuntime) {
    let bytes = [
        1, 0, 64, 0, 2, 0, 0, 0, 0, 0, 0, 1, 8, 7, 6, 5, 4, 3, 2, 1, 255, 255, 0, 0, 0, 0, 0, 128,
    ];
    let want = range(
        0x40_0001,
        0x0100_0000_0000_0002,
        0x0102_0304_0506_0708,
        0x8000_0000_0000_ffff,
    );
    assert_eq!(&rt; record_head(&bytes), want);
    let mut written = [9; 28];
    write_head(&mut written, &want);
    assert_eq!(&rt; written, bytes);
}

// An integration of 64 samples, where the job's own epochs have 40.
#[test]
fn ranged_records(rt: HostRuntime) -> Result<(), Fail> {
    let plan = plan(&rt)?;
    for (from, r, want) in &[
        (0, range(0, 0, 0, 40), epoch(0, 40)),
        (0, range(0, 0, 0, 1), epoch(0, 1)),
        (0, range(0, 0, 0, 64), epoch(0, 64)),
        (50, range(0, 0, 50, 64), epoch(50, 64)),
        // an end past the integration's, and one that is not past the begin
        (0, range(0, 0, 0, 65), fault(60, Some(65), None)),
        (50, range(0, 0, 50, 50), fault(60, Some(50), None)),
        (0, range(0, 0, 0, 256), fault(60, Some(0), None)),
        // another scan, another integration, another sample
        (0, range(1, 0, 0, 40), fault(40, Some(1), Some(0))),
        (0, range(256, 0, 0, 40), fault(41, Some(1), Some(0))),
        (0, range(0, 65536, 0, 40), fault(46, Some(1), Some(0))),
        (50, range(0, 0, 51, 60), fault(52, Some(51), Some(50))),
        (0, range(0, 0, 1 << 56, 40), fault(59, Some(1), Some(0))),
    ] {
        is_found(&rt, &plan, true, *from, &record(*r), 76, *want);
    }
    // the mark is none where records have a range
    let mark = cell([255; 8]);
    is_found(
        &rt,
        &plan,
        true,
        0,
        &mark,
        24,
        fault(56, Some(255), Some(0)),
    );
    Ok(())
}

// Files that end before the record does.
#[test]
fn cut_records(rt: HostRuntime) -> Result<(), Fail> {
    let plan = plan(&rt)?;
    let bytes = record(range(0, 0, 0, 40));
    for n in &[75, 27, 20, 3, 0] {
        let end = fault(40 + *n as u64, None, None);
        is_found(&rt, &plan, true, 0, &bytes, *n, end);
    }
    let other = record(range(0, 0, 1, 65));
    is_found(&rt, &plan, true, 0, &other, 13, fault(52, Some(1), Some(0)));
    is_found(&rt, &plan, true, 0, &other, 12, fault(52, None, None));
    Ok(())
}

// Records without a range are of the job's own epochs, and a count tells the mark.
#[test]
fn old_records(rt: HostRuntime) -> Result<(), Fail> {
    let plan = plan(&rt)?;
    let body = [7; 48];
    for (from, n, want) in &[
        (0, 48, epoch(0, 40)),
        (40, 48, epoch(40, 64)),
        (0, 47, fault(87, None, None)),
        (0, 24, fault(64, None, None)),
        (0, 23, fault(63, None, None)),
        (0, 0, fault(40, None, None)),
    ] {
        is_found(&rt, &plan, false, *from, &body, *n, *want);
    }
    let mark = cell([255; 8]);
    is_found(&rt, &plan, false, 40, &mark, 24, Behind::Mark);
    is_found(&rt, &plan, false, 40, &mark, 23, fault(63, None, None));
    let full = cell([255, 255, 255, 255, 255, 255, 255, 127]);
    is_found(&rt, &plan, false, 40, &full, 24, fault(64, None, None));
    Ok(())
}
