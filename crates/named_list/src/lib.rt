//! Things by their names, in the order in which the names came first. It stands on `indexmap`, and is seen as the list of
//! names and things. Only `put` takes memory.
#![tactic(auto)]

mod named;

pub use named::Named;
