//! The straight line of a delay between two knots, and how long the whole samples of the delay stay the same on it. It
//! stands on `corr_model` for what the delay between two knots and its whole samples are. The end of a stretch is found by
//! division, with no walk over the samples; nothing overflows, and no call takes memory. (Thompson, Moran and Swenson,
//! chapters 8 and 9.)
#![tactic(auto)]

mod interval;
mod line;
mod reach;

pub use line::Line;
