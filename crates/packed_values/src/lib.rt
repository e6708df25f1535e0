//! The values of a row of samples, by a value code each, or, where they need not be levels turned by directions, by a word each. A row
//! becomes streams from any place on, also past its ends. It stands on `value_codes` for values as codes and on `byte_streams` for
//! streams of biased bytes. No call takes memory.
#![tactic(auto)]

mod codes;
mod kinds;
mod places;
mod row;
mod word;
mod words;

pub use row::Packed;
pub use word::{pack, unpack};
pub use words::Words;

#[cfg(test)]
mod tests;
