//! Texts that are one text broken: cut off, or with one byte changed. A reader answers each, and equal answers to texts in a
//! row are printed once. It stands on std and `anyhow`, and promises which bytes a broken text has; what is printed is in no
//! contract.
#![tactic(auto)]

mod reader;
mod way;

pub use reader::{Reader, print_broken};
pub use way::Way;
