//! The data array of a frame: the level of a code, the samples of a channel, and codes packed into bytes.
//! It stands on std alone. Each call gives what the definitions of `specs/` say, and takes no memory.
//! (VDIF 1.1.1, data array.)
#![tactic(auto)]

mod levels;
mod packing;
mod samples;

pub use levels::level;
pub use packing::pack;
pub use samples::{sample_at, unpack};

#[cfg(test)]
mod tests;
