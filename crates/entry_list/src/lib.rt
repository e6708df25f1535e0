//! Entries of a station's model, each in force from its second on until the next one is: a list in
//! which no two entries begin at one second. It stands on std alone. A look-up gives the latest entry
//! whose second is not after the one that is asked for, whatever the order in which they were added.
#![tactic(auto)]

mod list;

pub use list::{EntryList, HasSecond};

#[cfg(test)]
mod tests;
