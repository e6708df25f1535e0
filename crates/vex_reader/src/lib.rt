//! The statements of a VEX text, the schedule language of VLBI (VEX 1.5): blocks, defs and scans, refs
//! and assignments. It stands on `vex_lex` for the tokens, on `num_time` for names, on `item_list` for
//! lists and on `named_list` for things found by name.
//!
//! `specs/Reading.antt` says what the statements of a text say, one after another, and which has the
//! first fault. A text stands for one file or has one fault, and never both (`laws`). `read` answers that file, or that fault with
//! its place, and else only want of memory.
#![tactic(auto)]

mod fault;
mod file;
pub mod laws;
mod parts;
mod pass;
mod reading;
mod shape;
mod values;

pub use fault::{VexFault, VexKind};
pub use file::{Block, Item, Statement, Value, VexFile};
pub use pass::read;
