//! The bins of a pulse's phase, by which the sums of a correlation are gated. A phase at a sample is a delay by entries of its
//! own, without a clock, whose units of 2^-32 are those of a turn of the pulse. `read_bins` reads a text of such entries,
//! `covers` says whether each sample of a plan has a phase, `phase_in` gives the phase in a scan, `bin` gives the bin of a
//! sample, `bin_runs` the longest runs of one bin through a range of samples, and the cells of all bins add up to the cell of
//! the direct sum (`laws`). It stands on `job_lines` for lines and fields, on `delay_track` for the phase and for the pieces in
//! which it lies on one line, on `delay_line` for that line, on `corr_model` for cells and on `job_plan` for plans. Only
//! `read_bins` takes memory.
#![tactic(auto)]

mod bins;
mod edge;
mod fault;
pub mod laws;
mod phase;
mod read;
mod rows;
mod runs;
mod said;
mod scans;
mod values;
mod word;

pub use bins::Bins;
pub use fault::{BinsFault, BinsKind, NoPhase};
pub use phase::bin;
pub use read::read_bins;
pub use runs::{BinRun, BinRuns, bin_runs};
pub use scans::{covers, phase_in};
