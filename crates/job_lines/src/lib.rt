//! The lines of a job's text, the fields of each, and the table of the words that begin them. It stands on
//! `num_time` for numbers and times, and on `delay_poly` for polynomials.
//!
//! `specs/Words.antt` is the table: the words, and how the fields behind each are written.
//! `specs/Rows.antt` says which fields a line has, and `specs/Values.antt` which numbers and times they say.
//! `Lines` gives the lines one after the other, `fields_of` the fields of one, `Word` and `are_written`
//! answer by the table, and `number_within`, `second_of` and `poly_from` give what fields say; only
//! `fields_of` and `poly_from` take memory.
#![tactic(auto)]

mod bytes;
mod fields;
mod lines;
mod values;
mod word;
mod written;

pub use fields::{fields_of, is_clean};
pub use lines::Lines;
pub use values::{behind, field, number_within, poly_from, second_of, whole_of};
pub use word::{FieldKind, Word, word_of};
pub use written::{are_written, is_written};
