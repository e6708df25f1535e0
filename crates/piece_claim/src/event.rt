//! Events and their refusals.

/// What happens on a board. Seats are numbered from 0 in the order in which they are made.
#[derive(Clone, Copy, Debug, PartialEq, Eq)]
pub enum Event {
    /// The seat draws the next number.
    Draw { seat: u32 },
    /// The seat posts the next amount of its piece in hand.
    Post { seat: u32, amount: u64 },
    /// A new seat takes one share of the seat.
    Split { seat: u32 },
    /// The seat takes the shares and finished pieces of the other, which ends.
    Join { seat: u32, other: u32 },
}

/// Why an event did not happen.
#[derive(Clone, Copy, Debug, PartialEq, Eq)]
pub enum StepFault {
    /// The event is not allowed in this state.
    NotAllowed,
    /// There was no memory.
    Memory,
}
