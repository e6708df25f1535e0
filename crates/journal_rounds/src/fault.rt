//! Why a journal is not brought to its job's end.
ghost use Rattle.std.specs.Prelude.{◌≡◌};
ghost use Rattle.journal_rounds.specs.Steps.{opening_fault};

use checkpoint_journal::OpenFault;
use journal_image::Differs;
use thiserror::Error;

/// Why a journal is not brought to its job's end.
#[derive(Clone, Copy, Debug, PartialEq, Eq, Error)]
pub enum ResumeFault {
    /// There was no memory.
    #[error("out of memory")]
    Memory,
    /// The file is neither blank nor a journal of this job: where it differs.
    #[error("a journal of another job")]
    Other(Differs),
    /// A read of the shelf failed.
    #[error("read fault")]
    Read,
    /// A call of the journal's disk failed, or the journal is full: the number of epochs that are kept, once it is known.
    #[error("journal fault")]
    Journal(Option<u64>),
}

/// The fault of a journal that is not opened.
pub(crate) fn opening_fault(fault: OpenFault) -> ResumeFault
    ensures { result ≡ opening_fault fault }
{
    match fault {
        OpenFault::Disk => ResumeFault::Journal(None),
        OpenFault::Other(differs) => ResumeFault::Other(differs),
        OpenFault::Memory => ResumeFault::Memory,
    }
}
