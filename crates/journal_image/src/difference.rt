//! Where a file differs from a job's journal.

/// A place in a file, in bytes from its begin; the byte that the file keeps there, none past its end; and the byte of
/// this job's journal there, none where more than one byte would do.
#[derive(Clone, Copy, Debug, PartialEq, Eq)]
pub struct Differs {
    pub at: u64,
    pub kept: Option<u8>,
    pub ours: Option<u8>,
}
