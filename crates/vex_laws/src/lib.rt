//! What follows from the definitions of `vex_lex`, `vex_reader` and `vex_schedule` for every text of a VEX schedule
//! and every file. The functions do nothing: a call brings its law. It stands on these three crates.
//!
//! `texts` says which statement has which shape, and where the fault of a text stands; `files` what is wrong at the
//! place of a schedule's fault, and what of a file counts for its schedule.
#![tactic(auto)]

pub mod files;
pub mod texts;
