//! What the bytes of a journal's file say. A journal keeps the epochs of a job behind gates, each with its range, so
//! that epochs may differ in length; an old one has no ranges, up to a mark behind which records carry them. The crate
//! stands on `piece_plan` for the epochs, on `plan_places` for the places where they begin, and on `byteorder`. An image
//! says one thing at most, and a record behind a gate that is opened is one more kept epoch; what stands behind an open
//! gate is found from its first 28 bytes. None of the calls takes memory.
#![tactic(auto)]

mod difference;
mod finding;
mod gate;
mod head;
pub mod laws;
mod range;

pub use difference::Differs;
pub use finding::Behind;
pub use gate::{behind, record_len};
pub use head::{EpochRange, record_head, write_head};

#[cfg(test)]
mod tests;
