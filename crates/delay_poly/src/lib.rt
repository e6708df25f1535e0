//! The delay of a station as a polynomial in the number of a knot, counted from the polynomial's start,
//! and the list of the polynomials that are in force from a second on. It stands on `entry_list` for the list. A value is the nested one,
//! each product rounded down, and never overflows; no call but the list's `add` takes memory.
//! (Thompson, Moran and Swenson, chapters 8 and 9.)
#![tactic(auto)]

mod entry;
mod poly;

pub use entry::{PolyEntry, PolyList};
pub use poly::Poly;
