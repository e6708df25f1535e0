//! The board of an epoch's pieces, shared by threads. Its words lie in one `atomic_table`: word 0 is
//! the number that is drawn next, the others are the sums. A draw is one `fetch_add` on word 0, a post
//! one `fetch_add` on each sum of the piece's group. Between any two steps the words and the seats are
//! a state of the machine of `piece_claim` with its invariant, whatever the threads do. So when all
//! seats are joined and the board is closed, each piece was added once and no amount was lost. The
//! totals then give the cells of an epoch. It stands on `piece_claim`, `corr_model` and `atomic_table`.
#![tactic(auto)]

mod board;
mod steps;
mod sums;
#[cfg(test)]
mod tests;

pub use board::{BoardSeat, SumBoard};
pub use sums::{EpochSums, Sums};
