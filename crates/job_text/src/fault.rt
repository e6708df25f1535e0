//! Why a text has no job.
ghost use Rattle.std.specs.Prelude.{◌≡◌};
ghost use Rattle.job_text.specs.{KindName.{kind_name}, declared.fault.JobKind.TheVariants.{Memory}};

use std::alloc::{AllocError, AllocFailed};
use thiserror::Error;
use variant_name::name_of;

/// What is wrong.
#[derive(Clone, Copy, Debug, PartialEq, Eq, Error)]
#[error("{}", self.name())]
pub enum JobKind {
    /// A byte that no text has, another number of fields, or a field that is not written as it is to be.
    Line = 1,
    /// A line says again what an earlier one says.
    Double,
    /// A line is missing.
    Missing,
    /// No word of a job, or a station or a channel that no earlier line names.
    Unknown,
    /// A number, a time or a name is out of its range.
    Range,
    /// Out of memory.
    Memory,
}

impl JobKind {
    /// The rule's name, as it is written above.
    pub fn name(self) -> &'static str
        ensures { result.now ≡ kind_name self }
    {
        name_of!(self: JobKind { Line, Double, Missing, Unknown, Range, Memory })
    }
}

/// The first fault, and its line, counted from 1; a missing line and want of memory are at 0.
#[derive(Clone, Copy, Debug, PartialEq, Eq, Error)]
#[error("{kind} in line {line}")]
pub struct JobFault {
    pub kind: JobKind,
    pub line: u32,
}

impl<T: Drop> From<AllocFailed<T>> for JobKind {
    ghost from_gives = { λ _ kind. kind ≡ Memory };

    fn from(_: AllocFailed<T>) -> Self {
        JobKind::Memory
    }
}

impl From<AllocError> for JobKind {
    ghost from_gives = { λ _ kind. kind ≡ Memory };

    fn from(_: AllocError) -> Self {
        JobKind::Memory
    }
}
