//! The places of a job where an epoch may begin, and the walk from one of them to the job's end by epochs of any
//! length. It stands on `piece_plan` for the epochs of a job: the plan's own epochs, found by number, say where each
//! integration and each scan ends. None of the calls takes memory. (Thompson, Moran and Swenson, chapter 8.)
#![tactic(auto)]

mod count;
pub mod laws;
mod place;
mod search;

pub use count::left;
pub use place::{Place, after, cut, cut_own, is_place, start};

#[cfg(test)]
mod tests;
