//! What comes of the opening of a file.
use crate::finding::Found;
use journal_image::Differs;

/// A journal of this job, with the gate behind its last record; another file, with the first place that differs; or an old
/// journal of this job in which there is no room for its mark.
#[derive(Clone, Copy)]
pub(crate) enum Opening {
    Ready(Found),
    Other(Differs),
    Full,
}
