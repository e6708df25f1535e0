//! Text on its way to a sink: pieces of text and numbers that are put together in a buffer and handed over
//! in whole stretches. It stands on `dev_traits` for the sink and on `itoa` for decimal digits. Every call
//! appends its text, or a first part of it where the sink fails, and answers a fault only where the sink's
//! count of faults rose. No call takes memory.
#![tactic(auto)]

mod piece;
mod stretch;

pub use piece::{Piece, append_pieces};
pub use stretch::Stretch;

#[cfg(test)]
mod tests;
