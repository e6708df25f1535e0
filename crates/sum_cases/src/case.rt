//! One case: two rows of bytes, and their sums.
ghost use Rattle.std.specs.Prelude.{◌≡◌, ◌≤◌, ◌<◌, ◌+◌, ℕ, length, slice_index};
ghost use Rattle.byte_sums.specs.Sums.{AreAtMost};

use byte_sums::lag_sums;

// The most bytes of a first row, and the most lags.
const COUNT: usize = 4096;

const LAGS: usize = 1024;

// What a byte of a level of one or two bits is at most. Such bytes are even.
const LEVEL: u8 = 6;

/// What a byte is at most, how many bytes the first row has, how many lags are asked for, and how often.
#[derive(Clone, Copy)]
pub struct Case {
    greatest: u8,
    count: usize,
    lags: usize,
    rounds: u64,
    ghost small: { greatest ≤ 60 },
    ghost few: { count ≤ 4096 },
    ghost some: { 0 < lags },
    ghost most: { lags ≤ 1024 },
}

// The byte of a number: it less whole times one more than `greatest`, or, where bytes are those of levels, the double of its half's two
// lower bits.
fn byte_of(number: usize, greatest: u8) -> u8
    ensures { result ≤ greatest }
{
    if greatest == LEVEL {
        (number / 2 % 4 * 2) as u8
    } else {
        (number % (usize::from(greatest) + 1)) as u8
    }
}

// Sets byte `i` to that of `step * i + start`.
fn fill(row: &mut [u8], greatest: u8, step: usize, start: usize)
    requires step { step ≤ 16 }
    requires start { start ≤ 16 }
    requires few { length row.old ≤ 8192 }
    requires small { AreAtMost greatest row.old }
    ensures len { length row.new ≡ length row.old }
    ensures small { AreAtMost greatest row.new }
{
    for i in 0..row.len() {
        row[i] = byte_of(step * i + start, greatest);
    }
}

impl Case {
    /// The case of a line, None where it is none.
    pub fn read(line: &str) -> Option<Case> {
        let mut words = line.split(' ');
        let greatest = words.next()?.parse::<u8>().ok()?;
        let count = words.next()?.parse::<usize>().ok()?;
        let lags = words.next()?.parse::<usize>().ok()?;
        let rounds = words.next()?.parse::<u64>().ok()?;
        if words.next().is_some() || greatest > 60 || count > COUNT || lags == 0 || lags > LAGS {
            return None;
        }
        Some(Case {
            greatest,
            count,
            lags,
            rounds,
        })
    }

    /// The sum at the first lag, that at the last one, and those of all lags, as often as there are rounds.
    pub fn sums(&self) -> (u32, u32, u64) {
        let mut first = [0; COUNT];
        let mut second = [0; COUNT + LAGS];
        let mut sums = [0; LAGS];
        fill(&mut first, self.greatest, 7, 3);
        fill(&mut second, self.greatest, 5, 1);
        let mut all = 0_u64;
        for _ in 0..self.rounds {
            lag_sums(
                self.greatest,
                &first[..self.count],
                &second[..self.count + self.lags],
                &mut sums[..self.lags],
            );
            for sum in &sums[..self.lags] {
                all = all.wrapping_add(u64::from(*sum));
            }
        }
        (sums[0], sums[self.lags - 1], all)
    }
}
