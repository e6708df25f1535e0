//! Why a journal is not opened, written or read.

use journal_image::Differs;
use thiserror::Error;

/// Why a journal is not opened.
#[derive(Clone, Copy, Debug, PartialEq, Eq, Error)]
pub enum OpenFault {
    /// A call of the disk failed, or the mark of an old journal has no room below byte 2^63 - 1.
    #[error("the disk failed")]
    Disk,
    /// The file is neither blank nor a journal of this job.
    #[error("a journal of another job")]
    Other(Differs),
    /// There was no memory for the buffer.
    #[error("out of memory")]
    Memory,
}

/// Why an epoch is not appended.
#[derive(Clone, Copy, Debug, PartialEq, Eq, Error)]
pub enum AppendFault {
    /// A call of the disk failed, or the record has no room below byte 2^63 - 1.
    #[error("the disk failed")]
    Disk,
}

/// Why an epoch is not read.
#[derive(Clone, Copy, Debug, PartialEq, Eq, Error)]
pub enum ReadFault {
    /// A call of the disk failed.
    #[error("the disk failed")]
    Disk,
}

/// Why the epochs of a journal are not listed.
#[derive(Clone, Copy, Debug, PartialEq, Eq, Error)]
pub enum ListFault {
    /// A call of the disk failed.
    #[error("the disk failed")]
    Disk,
    /// There was no memory for the list.
    #[error("out of memory")]
    Memory,
}
