//! Why there is no index.
use dev_traits::Failed;
use std::alloc::AllocError;
use thiserror::Error;
use vdif_frame::Field;

/// Why there is no index.
#[derive(Clone, Copy, Debug, PartialEq, Eq, Error)]
pub enum IndexFault {
    /// A read of the shelf failed.
    #[error("read fault")]
    Read,
    /// There are slots, and none of them agrees with the shape: the field in which the first one differs.
    #[error("no frame agrees: {0:?}")]
    NoFrameAgrees(Field),
    /// The files have more than 2^26 slots.
    #[error("too many slots")]
    TooManySlots,
    #[error("out of memory")]
    Memory,
}

impl From<AllocError> for IndexFault {
    ghost use Rattle.std.specs.Prelude.{◌≡◌};
    ghost use Rattle.frame_index.specs.declared.fault.IndexFault.TheVariants.{Memory};

    ghost from_gives = { λ _ fault. fault ≡ Memory };

    fn from(_: AllocError) -> Self {
        IndexFault::Memory
    }
}

impl From<Failed> for IndexFault {
    ghost use Rattle.std.specs.Prelude.{◌≡◌};
    ghost use Rattle.frame_index.specs.declared.fault.IndexFault.TheVariants.{Read};

    ghost from_gives = { λ _ fault. fault ≡ Read };

    fn from(_: Failed) -> Self {
        IndexFault::Read
    }
}
