//! Numbers, times and names: decimal numbers and VEX times in text, seconds of the calendar, whole
//! quotients, and the names that schedules and jobs give. It stands on `jiff_core` for calendar days.
//! Each reader gives what the definitions of `specs/` say or the first fault that applies, for every
//! text; a second is counted from 1970-01-01 00:00 with days of 86,400. No call but `Name::new` and
//! `Name::copy` takes memory.
#![tactic(auto)]

mod digits;
mod epochs;
mod name;
mod numerals;
mod quotients;
mod times;

pub use epochs::epoch_second;
pub use name::Name;
pub use numerals::{NumFault, decimal};
pub use quotients::floor_div;
pub use times::{TimeFault, vex_second};
