//! What calls of the program answer, and how a table prints it. It promises nothing beyond safety.
#![tactic(auto)]

mod answer;
mod told;

pub use answer::{Answer, print_journal};
pub use told::print_told;
