//! Sums of products of two rows of bytes at many lags, by vectors. Bytes of at most 12 are added up in lanes of 16 bits, others in
//! lanes of 32; where all are even and at most 6, as those of levels of one and two bits, a product serves two lags. The sums are
//! exact. `lag_sums` is for all lags from 0 on, of any number of them. It stands on nothing, and no call takes memory.
#![tactic(auto)]

mod dots;
mod fields;
mod levels;
mod pairing;
mod shorts;
mod sums;

pub use sums::lag_sums;
