use crate::Poly;
use entry_list::{EntryList, HasSecond};

/// The polynomial of the seconds from one on, counted from 1970-01-01 00:00.
#[derive(Clone, Copy, Debug, PartialEq, Eq)]
pub struct PolyEntry {
    pub second: i64,
    pub poly: Poly,
}

impl HasSecond for PolyEntry {
    ghost second_of = { λ entry. entry.second };

    fn second(&self) -> i64 {
        self.second
    }
}

/// The polynomials of a station, which differ in their seconds.
pub type PolyList = EntryList<PolyEntry>;
