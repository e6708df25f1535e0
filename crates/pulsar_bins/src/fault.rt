//! Why a text has no bins, and why a scan has no phase.
ghost use Rattle.std.specs.Prelude.{◌≡◌};
ghost use Rattle.pulsar_bins.specs.{KindName.{kind_name}, declared.fault.BinsKind.TheVariants.{Memory}};

use std::alloc::AllocError;
use thiserror::Error;
use variant_name::name_of;

/// What is wrong.
#[derive(Clone, Copy, Debug, PartialEq, Eq, Error)]
#[error("{}", self.name())]
pub enum BinsKind {
    /// A byte that no text has, no word of a text of phases, another number of fields, or a field that is not written as
    /// it is to be.
    Line = 1,
    /// A line says again what an earlier one says.
    Double,
    /// A line is missing.
    Missing,
    /// A number or a time is out of its range.
    Range,
    /// Out of memory.
    Memory = 6,
}

impl BinsKind {
    /// The kind's name, as it is written above.
    pub fn name(self) -> &'static str
        ensures { result.now ≡ kind_name self }
    {
        name_of!(self: BinsKind { Line, Double, Missing, Range, Memory })
    }
}

/// The first fault, and its line, counted from 1; a missing line and want of memory are at 0.
#[derive(Clone, Copy, Debug, PartialEq, Eq, Error)]
#[error("{kind} in line {line}")]
pub struct BinsFault {
    pub kind: BinsKind,
    pub line: u32,
}

/// The first scan of a plan, counted from 0, that has a sample without a phase: no entry is in force there, or the next knot is
/// past 2^24.
#[derive(Clone, Copy, Debug, PartialEq, Eq, Error)]
#[error("NoPhase for scan {scan}")]
pub struct NoPhase {
    pub scan: usize,
}

impl From<AllocError> for BinsKind {
    ghost from_gives = { λ _ kind. kind ≡ Memory };

    fn from(_: AllocError) -> Self {
        BinsKind::Memory
    }
}
