//! Why a text is no record file.
ghost use Rattle.std.specs.Prelude.{◌≡◌};
ghost use Rattle.vis_records.specs.{KindName.{kind_name}, declared.fault.VisKind.TheVariants.{Memory}};

use std::alloc::{AllocError, AllocFailed};
use thiserror::Error;
use variant_name::name_of;

/// Which rule a text breaks first, from the front.
#[derive(Clone, Copy, Debug, PartialEq, Eq, Error)]
#[error("{}", self.name())]
pub enum VisKind {
    /// It has eight bytes or more and does not begin with the mark.
    Magic,
    /// It ends inside a field, or before its end is whole.
    Short,
    /// A mark or number of a record or of the end is not the one that is due.
    Order,
    /// It goes on behind its end.
    AfterEnd,
    /// A number of the head is outside its range or order.
    Head,
    /// There is no memory for what stands in the text.
    Memory,
}

impl VisKind {
    /// The rule's name, as it is written above.
    pub fn name(self) -> &'static str
        ensures { result.now ≡ kind_name self }
    {
        name_of!(self: VisKind { Magic, Short, Order, AfterEnd, Head, Memory })
    }
}

/// The rule that a text breaks first, and where: the byte at which the field begins that breaks it; for
/// `Short` the text's length. Want of memory is at 0.
#[derive(Clone, Copy, Debug, PartialEq, Eq, Error)]
#[error("{kind} at byte {at}")]
pub struct VisFault {
    pub kind: VisKind,
    pub at: u64,
}

// The rule that a text breaks, and how many bytes are left from the field on that breaks it.
#[derive(Clone, Copy, Debug)]
pub(crate) struct Stop {
    pub kind: VisKind,
    pub left: usize,
}

// Want of memory.
const NO_MEMORY: Stop = Stop {
    kind: VisKind::Memory,
    left: 0,
};

impl From<AllocError> for Stop {
    ghost from_gives = { λ _ stop. stop.kind ≡ Memory };

    fn from(_: AllocError) -> Self {
        NO_MEMORY
    }
}

impl<T: Drop> From<AllocFailed<T>> for Stop {
    ghost from_gives = { λ _ stop. stop.kind ≡ Memory };

    fn from(_: AllocFailed<T>) -> Self {
        NO_MEMORY
    }
}
