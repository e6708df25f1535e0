//! What a file is found to be.
use journal_image::Differs;
use plan_places::Place;

/// A gate of a journal: whether the journal is an old one, whose first records have no range; how many epochs it keeps
/// before the gate; the place of the job where the next one begins, none at the job's end; the byte place of the gate; and
/// whether a record behind it carries its range.
#[derive(Clone, Copy, Debug, PartialEq, Eq)]
pub struct Found {
    pub old: bool,
    pub kept: u64,
    pub next: Option<Place>,
    pub gate: u64,
    pub ranged: bool,
}

/// A blank file; a journal of this job, with the gate behind its last record; or another file, with the first place that
/// differs.
#[derive(Clone, Copy, Debug, PartialEq, Eq)]
pub enum Finding {
    Blank,
    Ours(Found),
    Other(Differs),
}
