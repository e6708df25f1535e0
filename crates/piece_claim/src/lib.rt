//! The board of an epoch's pieces as a machine without threads. Seats draw the numbers of pieces from
//! one counter and post amounts, one at a time, to the sums of a piece's group; a seat can be split by
//! its shares, and seats that have nothing left to draw are joined again. It stands on std alone. The
//! state, what each event may do and when, and the invariant that every event keeps are defined here
//! over lists, so that a board which threads share cites the same definitions.
#![tactic(auto)]

mod board;
mod event;
mod seat;
mod sizes;

pub use board::{Board, laws};
pub use event::{Event, StepFault};
pub use sizes::Sizes;

#[cfg(test)]
mod tests;
