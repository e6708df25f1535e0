//! The stretches of one direction of a fringe: a sample's level is turned by one of eight directions, an eighth of a turn
//! apart, and two sectors side by side turn it alike. It stands on `delay_track` for the delay at a sample and the pieces of
//! a scan on which it lies on a line, on `delay_line` for the line, and on `fringe_rotator` and `corr_model` for the sector
//! of a delay. Each stretch has the direction of each of its samples, and the stretches cover their range end to end. An end
//! is found by division, with no walk over the samples; nothing overflows, and no call takes memory.
//! (Thompson, Moran and Swenson, chapters 8 and 9.)
#![tactic(auto)]

mod fringe;
mod line_turns;
mod quotients;
mod reach;
#[cfg(test)]
mod tests;
mod turns;

pub use turns::{Turn, Turns, turns_of};
