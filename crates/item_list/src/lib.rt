//! A list of items that contracts see as the list itself. It stands on std alone, is made from a `Vec`
//! and gives it back, and takes no memory.
#![tactic(auto)]

mod list;

pub use list::ItemList;
