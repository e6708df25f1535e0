//! What is wrong with the words of a call.
ghost use Rattle.std.specs.Prelude.{◌≡◌};
ghost use Rattle.run_words.specs.{Faults.{fault_name}, declared.fault.WordsFault.TheVariants.{Memory}};

use std::alloc::AllocError;
use thiserror::Error;
use variant_name::name_of;

/// Why words are no order. The first in this order that applies is the answer; want of memory comes at any time.
#[derive(Clone, Copy, Debug, PartialEq, Eq, Error)]
#[error("{}", self.name())]
pub enum WordsFault {
    /// There is no word.
    NoCommand,
    /// The first word is no command.
    UnknownCommand,
    /// The words behind the command are not its options, or one that it needs is not there.
    Option,
    /// A number is not 1 to 20 digits, or out of its range.
    Value,
    /// Out of memory.
    Memory,
}

impl WordsFault {
    /// The fault's name, as it is written above.
    pub fn name(self) -> &'static str
        ensures { result.now ≡ fault_name self }
    {
        name_of!(self: WordsFault { NoCommand, UnknownCommand, Option, Value, Memory })
    }
}

impl From<AllocError> for WordsFault {
    ghost from_gives = { λ _ fault. fault ≡ Memory };

    fn from(_: AllocError) -> Self {
        WordsFault::Memory
    }
}
