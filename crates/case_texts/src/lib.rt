//! Tables of cases on standard input, and the texts and bytes in them: how a line writes one, put together from pieces, and what is answered where it
//! is broken, at each of its fronts and with each of its bytes changed, as `broken_texts` breaks it. It promises nothing beyond safety.
#![tactic(auto)]

mod breaks;
mod bytes;
mod lines;
mod pieces;
mod runs;
mod shown;
mod table;

pub use breaks::broken;
pub use bytes::{append_run, append_runs, set_byte};
pub use lines::Answers;
pub use pieces::Marked;
pub use shown::put_text;
pub use table::{Line, print_answers, read_table};
