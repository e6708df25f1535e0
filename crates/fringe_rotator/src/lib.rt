//! The fringe rotation of a station's samples: the sector of sixteen that the phase of a delay at a sky
//! frequency lies in, and the three-level cosine and sine that a sample is turned by. It stands on
//! std alone. Each call gives what the definitions of `specs/` say, with no overflow, and takes no memory.
//! (Thompson, Moran and Swenson, chapters 8 and 9.)
#![tactic(auto)]

mod phase;
mod rotation;

pub use phase::sector;
pub use rotation::rotate;
