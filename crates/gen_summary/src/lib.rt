//! What the cells of a record file add up to, as five lines. It stands on `vis_records` for the content of a file, on
//! `itoa` for decimal digits and on `sink_text` for the lines on their way to a sink. The sums are those of whole numbers
//! without a bound: none can wrap. No call takes memory.
#![tactic(auto)]

mod summary;
mod totals;

pub use summary::write_totals;
