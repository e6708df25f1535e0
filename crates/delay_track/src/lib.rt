//! The delay of a station at each sample of a scan: its polynomial and its clock at the two knots about
//! the sample, the straight line between them, and the whole samples nearest to that. It stands on
//! `corr_model` for the definition, on `entry_list` for the entry in force, on `delay_poly` and
//! `station_clock` for the values at a knot, and on `delay_line` for the line. The runs of one whole delay
//! go from piece to piece: a piece ends at a knot, or where the next polynomial begins. A delay is what the
//! definition says and its magnitude is below 2^60; nothing overflows, and no call takes memory or walks
//! over the samples. (Thompson, Moran and Swenson, chapters 8 and 9.)
#![tactic(auto)]

mod line;
mod model;
mod piece;
mod polynomial;
mod runs;
mod track;

pub use line::nearest;
pub use model::StationModel;
pub use piece::Piece;
pub use runs::{Run, Runs};
pub use track::Track;
