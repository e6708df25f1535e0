//! The cells of the integrations of a job by the bins of a pulse. It stands on `run_sums` for the values of an epoch, on
//! `epoch_run` for its sums by bins, and on `pulsar_bins` for the phase in a scan. An integration is summed epoch by epoch: while one is
//! summed, the frames of the next one are read, in room of epochs that are over. A call fails for want of memory, or for a read
//! of the shelf.
#![tactic(auto)]

mod ahead;
mod epoch;
mod epochs;
mod sums;

pub use ahead::BinsAhead;
pub use sums::sum_integration;
