//! The words of a call: a command, and behind it what `clap` makes of the other words for a simple command with the options
//! of that command. It stands on `clap` for options, on `num_time` for names and on `item_list` for lists of them. `read_words`
//! gives for every list of words the order that `specs/Orders` says, or the first fault. Numbers are taken as text and judged
//! once all options stand.
#![tactic(auto)]

mod fault;
mod given;
mod numbers;
mod options;
mod order;
mod words;

pub use fault::WordsFault;
pub use order::Order;
pub use words::read_words;
