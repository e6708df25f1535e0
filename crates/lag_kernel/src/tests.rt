//! Where rows are cut into blocks.
ghost use Rattle.std.specs.Prelude.{◌<◌};

use crate::cut::{BLOCK, Heads};
use packed_values::Packed;
use std::alloc::{AllocError, Global};
use std::process::Abort;
use std::test::Fail;

// The direction of a code: of each 3,000 that of the first `turning` changes every `stretch`, and the others have one.
fn direction_at(n: usize, stretch: usize, turning: usize) -> u8
    requires { 0 < stretch }
    ensures { result < 4 }
{
    if n % 3000 < turning {
        (n / stretch % 4) as u8
    } else {
        0
    }
}

// The codes of so many such samples.
fn directions(
    alloc: Global,
    samples: usize,
    stretch: usize,
    turning: usize,
) -> Result<Vec<u8>, AllocError>
    requires { 0 < stretch }
{
    let mut codes = Vec::new(alloc);
    for n in 0..samples {
        codes.push(8 + direction_at(n, stretch, turning))?;
    }
    Ok(codes)
}

// How many blocks the samples of a row of at most 40,000 are cut into, at 64 lags from the first of the second row on.
fn blocks_of(first: &[u8], second: &[u8]) -> usize {
    if first.len() > 40_000 {
        return 0;
    }
    if second.len() > 40_000 {
        return 0;
    }
    let (mine, theirs) = (Packed::Codes(first), Packed::Codes(second));
    let mut at = 0;
    for count in 0..first.len() {
        if at >= first.len() {
            return count;
        }
        let most = BLOCK.min(first.len() - at);
        let place = at as i64;
        let heads = Heads {
            first: &mine,
            place,
            second: &theirs,
            other: place,
            lags: 64,
        };
        at += heads.block_size(most);
    }
    first.len()
}

// Rows are cut where both keep one direction for long, and nowhere else: 12,288 samples are three blocks where all have one direction,
// and where directions change every 100 or every 600 samples.
#[test]
fn blocks_end_at_long_stretches(rt: HostRuntime) -> Result<(), Fail> {
    let alloc = rt.alloc();
    let rows = [
        (3000, 0, 0, 3),
        (3000, 3000, 3000, 8),
        (1100, 3000, 3000, 10),
        (600, 3000, 3000, 3),
        (100, 3000, 3000, 3),
        (100, 3000, 0, 3),
        (100, 500, 500, 9),
        (100, 500, 0, 9),
        (100, 0, 500, 9),
    ];
    for (stretch, turning, others, blocks) in rows {
        let first = directions(alloc, 12_288, stretch, turning)?;
        let second = directions(alloc, 12_352, stretch, others)?;
        assert_eq!(rt; blocks_of(&first, &second), blocks);
    }
    Ok(())
}
