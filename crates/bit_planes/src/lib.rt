//! The values of a channel, sample by sample. They are asked for one by one, and held by a word each, or they are those of a row of codes,
//! and held by a code each; and they are shown as seventeen planes of bits, 64 samples to a word. It stands on `corr_model` for values,
//! on `value_codes` for values in codes, and on `packed_values` for rows of values. Memory is taken by `Planes::build`, and by
//! `Planes::leave` for a place among the spare lists. (Thompson, Moran and Swenson, chapters 8 and 9.)
#![tactic(auto)]

mod asked;
mod held;
mod planes;
mod shown;

pub use planes::Planes;

#[cfg(test)]
mod tests;
