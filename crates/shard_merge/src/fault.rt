//! Why journals are not merged.
ghost use Rattle.std.specs.Prelude.{◌≡◌};
ghost use Rattle.shard_merge.specs.declared.fault.ShardFault.TheVariants.{Memory};

use corr_model::Cell;
use journal_image::Differs;
use std::alloc::AllocError;
use thiserror::Error;

/// Why a file is not read as the journal of a part.
#[derive(Clone, Copy, Debug, PartialEq, Eq, Error)]
pub enum ShardFault {
    /// A read of the shelf failed.
    #[error("a read failed")]
    Read,
    /// The file is neither blank nor the journal of a part of this job: where it differs from one.
    #[error("no journal of a part of this job")]
    NotShard(Differs),
    /// There was no memory for the list of its epochs.
    #[error("out of memory")]
    Memory,
}

impl From<AllocError> for ShardFault {
    ghost from_gives = { λ _ fault. fault ≡ Memory };

    fn from(_fault: AllocError) -> ShardFault {
        ShardFault::Memory
    }
}

/// Where two journals differ that cover an integration: the number of the integration through all scans, that of the group, which counts
/// the baselines product by product, the lag in samples, and the cell in the first journal that covers it and in the other one.
#[derive(Clone, Copy, Debug, PartialEq, Eq)]
pub struct CellsDiffer {
    pub integration: u64,
    pub group: u32,
    pub lag: i32,
    pub first: Cell,
    pub other: Cell,
}

/// Why journals do not make a job together.
#[derive(Clone, Copy, Debug, PartialEq, Eq, Error)]
pub enum MergeFault {
    /// A read of the shelf failed.
    #[error("a read failed")]
    Read,
    /// No journal covers the integration of this number.
    #[error("an integration that no journal covers")]
    Uncovered(u64),
    /// Two that cover an integration have different cells in it.
    #[error("two journals differ")]
    Differs(CellsDiffer),
    /// There was no memory for the cells of two integrations.
    #[error("out of memory")]
    Memory,
}

impl From<AllocError> for MergeFault {
    ghost use Rattle.shard_merge.specs.declared.fault.MergeFault.TheVariants.{Memory};

    ghost from_gives = { λ _ fault. fault ≡ Memory };

    fn from(_fault: AllocError) -> MergeFault {
        MergeFault::Memory
    }
}

/// Why the record file is not whole.
#[derive(Clone, Copy, Debug, PartialEq, Eq, Error)]
pub enum OutputFault {
    /// There was no memory; nothing was appended.
    #[error("out of memory")]
    Memory,
    /// A read of the shelf failed.
    #[error("a read failed")]
    Read,
    /// A write to the output failed.
    #[error("a write failed")]
    Write,
}
