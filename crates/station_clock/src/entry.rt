use entry_list::{EntryList, HasSecond};

/// The clock from a second on, counted from 1970-01-01 00:00: its offset in units of 2^-32 sample, and
/// the drift that each second adds to it.
#[derive(Clone, Copy, Debug, PartialEq, Eq)]
pub struct ClockEntry {
    pub second: i64,
    pub c0: i64,
    pub c1: i64,
}

impl HasSecond for ClockEntry {
    ghost second_of = { λ entry. entry.second };

    fn second(&self) -> i64 {
        self.second
    }
}

/// The clock entries of a station, which differ in their seconds.
pub type ClockList = EntryList<ClockEntry>;
