//! Data frames of the VLBI Data Interchange Format, release 1.1.1: what a header says, whether it
//! agrees with the shape of its station's frames, and at which sample of a scan its data begins.
//! It stands on `num_time` for reference epochs and on `byteorder` for the words. Each call gives what
//! the definitions of `specs/` say, for every header and every shape, and takes no memory.
#![tactic(auto)]

mod header;
mod place;
mod shape;

pub use header::Header;
pub use place::first_sample;
pub use shape::{Field, Shape, agrees};
