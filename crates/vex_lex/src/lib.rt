//! The tokens of a VEX text, the schedule language of VLBI (VEX 1.5, the section on its syntax):
//! words, quoted texts, literals and the signs `=`, `:` and `;`, between white space and comments.
//! It stands on std, `thiserror` and `variant_name`.
//!
//! `specs/Grammar.antt` says which tokens a text has and where a text breaks a rule. A text has one
//! list of tokens or breaks one rule at one place, and never does both (`laws`). `tokens` answers
//! that list or that place, in one pass and with no memory but the list.
#![tactic(auto)]

mod bytes;
mod ends;
mod fault;
pub mod laws;
mod scan;
mod token;

pub use fault::{LexFault, LexKind};
pub use scan::tokens;
pub use token::{Token, TokenKind};
