//! The search for a fringe in a record file: the lag and the rate of a grid at which the cells of a scan, a product and a
//! baseline add up to the greatest power; and certificates of all peaks, which say of each lag why it has no better point. It
//! stands on `vis_records` for the cells, on `sink_text` for lines on their way to a sink, and on `itoa` for decimal digits.
//!
//! A rate turns the cells of a lag back by sixteenths of a turn, integration by integration, before they are added
//! (`specs/Sums.antt`); the peak is the point of greatest power, among equals that at the least lag, then at the least
//! rate (`specs/Peaks.antt`). A right certificate names the peaks (`specs/Certificates.antt`, `laws`). Which cells these are,
//! `specs/Layout.antt` says and a law ties to the records. No call takes memory; the cells of a lag are gathered in a room of fixed size.
#![tactic(auto)]

mod check;
mod claim;
mod grid;
pub mod laws;
mod limit;
mod number;
mod peak;
mod phase;
mod places;
mod read;
mod series;
mod strip;
mod sums;
mod write;

pub use check::{Wrong, check_certificate};
pub use grid::{Grid, Peak};
pub use limit::amplitude;
pub use peak::search;
pub use write::write_certificate;
