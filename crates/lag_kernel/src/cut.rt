//! Where a range is cut into blocks.
ghost use Rattle.std.specs.Prelude.{◌≤◌, ◌+◌, ◌^◌, length, unsigned_abs};
ghost use Rattle.packed_values.specs.Packed.{values_of};

use packed_values::Packed;

/// The most samples of a block.
pub(crate) const BLOCK: usize = 4096;

// Blocks are cut at a change of direction only where both rows keep one kind for so many samples: a block costs as much as summing some
// hundreds of samples more by both components.
const SHORT: usize = 1024;

// Blocks are cut behind multiples of so many samples, which are summed at once.
const STEP: usize = 32;

// Behind so many changes no more is looked for.
const CHANGES: usize = 8;

/// Two rows from a sample on: its place in the first row, the place of its pair at the first lag in the second row, and the number of lags.
#[derive(Clone, Copy)]
pub(crate) struct Heads<'a> {
    pub first: &'a Packed<'a>,
    pub place: i64,
    pub second: &'a Packed<'a>,
    pub other: i64,
    pub lags: usize,
    ghost places: { (unsigned_abs place ≤ 2 ^ 40 + 2 ^ 20) × (unsigned_abs other ≤ 2 ^ 40 + 2 ^ 20) },
    ghost held: { (length (values_of first.now) ≤ 2 ^ 41) × (length (values_of second.now) ≤ 2 ^ 41) },
    ghost few: { lags ≤ 1024 },
}

impl<'a> Heads<'a> {
    ghost use Rattle.std.specs.Prelude.{◌<◌, ◌≤◌, ◌*◌};

    // For how many samples, of at most `most`, the values of both rows are of one kind, those of the second row at all lags.
    fn still_len(&self, most: usize) -> usize
        requires { most ≤ BLOCK }
        ensures { result ≤ most }
    {
        let mine = self.first.alike_from(self.place, most);
        self.second
            .alike_from(self.other, mine + self.lags)
            .saturating_sub(self.lags)
    }

    // How many samples behind the next `on`, at least, both rows might be of one kind for a while; 0 where they are there.
    fn next_change(&self, on: usize) -> usize
        requires { on ≤ BLOCK }
        ensures { result ≤ 2 * BLOCK }
    {
        let on = on as i64;
        let theirs = self.second.alike_from(self.other + on, SHORT + self.lags);
        if theirs < SHORT + self.lags {
            return (theirs / STEP + 1) * STEP;
        }
        let mine = self.first.alike_from(self.place + on, SHORT);
        if mine < SHORT {
            return (mine / STEP + 1) * STEP;
        }
        0
    }

    // How many samples it is, of at most `most`, until both rows are of one kind for a while again; `most` where that is behind many changes.
    fn turning_len(&self, most: usize) -> usize
        requires some { 0 < most }
        requires most { most ≤ BLOCK }
        ensures some { 0 < result }
        ensures most { result ≤ most }
    {
        let mut size = STEP;
        for _ in 0..CHANGES {
            if most.saturating_sub(size) < SHORT {
                return most;
            }
            let change = self.next_change(size);
            if change == 0 {
                return size.max(1);
            }
            size = size.saturating_add(change);
        }
        most
    }

    /// How many samples the next block has, of at most `most`: those for which both rows are of one kind, where these are many; else those
    /// up to where they are so again. It is a hint: that it is at least 1 and at most `most` is all that is promised. A wrong one costs time,
    /// and never a cell.
    pub(crate) fn block_size(&self, most: usize) -> usize
        requires some { 0 < most }
        requires most { most ≤ BLOCK }
        ensures some { 0 < result }
        ensures most { result ≤ most }
    {
        let still = self.still_len(most);
        if still == most {
            most
        } else if still >= SHORT {
            still / STEP * STEP
        } else {
            self.turning_len(most)
        }
    }
}
