//! The epochs of a plan, and what their sums add up to. It stands on `job_plan` for plans and the values of their scans, and on
//! `piece_plan` for epochs. The sums of an epoch are the cells of its samples; those of the epochs of an integration add up to
//! the integration's cells (`laws`). Only `plan_epochs` takes memory. (Thompson, Moran and Swenson, chapter 8.)
#![tactic(auto)]

mod added;
mod epochs;
pub mod laws;

pub use added::add_cells;
pub use epochs::plan_epochs;
