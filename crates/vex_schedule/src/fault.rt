//! Why a file has no schedule.
ghost use Rattle.std.specs.Prelude.{◌≡◌};
ghost use Rattle.vex_schedule.specs.{KindName.{kind_name}, Answers.{fault, out_of_memory}};

use std::alloc::{AllocError, AllocFailed};
use thiserror::Error;
use variant_name::name_of;

/// What is wrong.
#[derive(Clone, Copy, Debug, PartialEq, Eq, Error)]
#[error("{}", self.name())]
pub enum SchedKind {
    /// There is no block `$SCHED`.
    NoSched = 1,
    /// A statement is missing.
    MissingStatement,
    /// A statement stands twice.
    DoubleStatement,
    /// There is no such def.
    UnknownRef,
    /// A value is not what its place asks for.
    BadValue,
    /// A station stands twice.
    StationTwice,
    /// A station stops before it starts, or starts before the scan.
    BadRange,
    /// Out of memory.
    Memory,
}

impl SchedKind {
    /// The rule's name, as it is written above.
    pub fn name(self) -> &'static str
        ensures { result.now ≡ kind_name self }
    {
        name_of!(self: SchedKind { NoSched, MissingStatement, DoubleStatement, UnknownRef, BadValue, StationTwice, BadRange, Memory })
    }
}

/// The first fault, and the byte at which its statement begins. A statement that is missing is so at
/// its scan or def; a missing block and want of memory are at 0.
#[derive(Clone, Copy, Debug, PartialEq, Eq, Error)]
#[error("{kind} at byte {at}")]
pub struct SchedFault {
    pub kind: SchedKind,
    pub at: u64,
}

impl SchedFault {
    pub(crate) fn new(kind: SchedKind, at: u64) -> Self
        ensures { result ≡ fault kind at }
    {
        SchedFault { kind, at }
    }
}

impl From<AllocError> for SchedFault {
    ghost from_gives = { λ _ fault. fault ≡ out_of_memory };

    fn from(_: AllocError) -> Self {
        SchedFault::new(SchedKind::Memory, 0)
    }
}

impl<T: Drop> From<AllocFailed<T>> for SchedFault {
    ghost from_gives = { λ _ fault. fault ≡ out_of_memory };

    fn from(_: AllocFailed<T>) -> Self {
        SchedFault::new(SchedKind::Memory, 0)
    }
}
