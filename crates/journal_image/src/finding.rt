//! What may be found behind an open gate.
use crate::Differs;
use piece_plan::EpochPlan;

/// A record of this epoch, the mark behind which records carry their range, or neither.
#[derive(Clone, Copy, Debug, PartialEq, Eq)]
pub enum Behind {
    Record(EpochPlan),
    Mark,
    Fault(Differs),
}
