//! Why the records of a journal are not all written.
ghost use Rattle.std.specs.Prelude.{◌≡◌};
ghost use Rattle.journal_records.specs.declared.fault.EmitFault.TheVariants.{Memory};

use std::alloc::AllocError;
use thiserror::Error;

/// Why the records of a journal are not all written.
#[derive(Clone, Copy, Debug, PartialEq, Eq, Error)]
pub enum EmitFault {
    /// There was no memory; nothing is written.
    #[error("out of memory")]
    Memory,
    /// A call of the journal's disk failed: the number of epochs that it keeps.
    #[error("the disk of the journal failed")]
    Journal(u64),
    /// A write to the output failed.
    #[error("the output failed")]
    Write,
}

impl From<AllocError> for EmitFault {
    ghost from_gives = { λ _ fault. fault ≡ Memory };

    fn from(_fault: AllocError) -> EmitFault {
        EmitFault::Memory
    }
}
