//! The clock of a station: how far it is ahead at a sample, by an offset and a drift that are in force
//! from a second on, and the list of these. It stands on `entry_list` for the list. A reading is rounded
//! down and never overflows; no call but the list's `add` takes memory.
//! (Thompson, Moran and Swenson, chapters 8 and 9.)
#![tactic(auto)]

mod clock;
mod entry;

pub use clock::clock_at;
pub use entry::{ClockEntry, ClockList};
