//! What a look at a journal tells.
use plan_places::Place;

/// The number of epochs that a journal keeps, and the place of the job behind the last of them, none at the job's end.
#[derive(Clone, Copy, Debug, PartialEq, Eq)]
pub struct Seen {
    pub kept: u64,
    pub next: Option<Place>,
}
