//! The commands that search a record file for fringes and that check what such a search has written: the file under a name is
//! read, and the certificate of its peaks is appended to the output; or it is read with a certificate of it, and the output is told
//! that this is right. It stands on `run_dump` for the record file, on `run_ready` for the certificate's bytes, on
//! `fringe_search` for the search and the check, on `sink_text` for the line, and on `run_notes` for refusals.
//!
//! `specs/Searched` says what each of the two comes to: a certificate, or a right one, or the answer of the first thing that is
//! wrong. The files under two names come to one of these and no other (`laws`).
#![tactic(auto)]

pub mod laws;
mod limit;
mod search;
mod verdict;

pub use search::write_peaks;
pub use verdict::verify_peaks;
