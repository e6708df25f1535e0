//! A value in a byte: a level of one, two or four bits turned by a direction, an eighth of a turn, or none. Levels come out of a data
//! array into bytes. It stands on `sample_unpack` for levels, on `fringe_rotator` for directions and on `corr_model` for values. No
//! call takes memory. (VDIF 1.1.1, data array; Thompson, Moran and Swenson, chapter 9.)
#![tactic(auto)]

mod take;
mod value;

pub use take::take_levels;
pub use value::{value_at, value_of};

#[cfg(test)]
mod tests;
