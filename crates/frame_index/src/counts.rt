//! The counts of a station's slots.
ghost use Rattle.std.specs.Prelude.{◌≡◌, ◌≤◌, ◌<◌, ◌+◌, ◌^◌, if◌then◌else◌};
ghost use Rattle.frame_index.specs.Orderly.{IsOrderly};

/// How many slots a station's files have, and how many of them are of a kind. A slot is `foreign` where it does
/// not agree with the station's shape. One that agrees is `invalid` where it is marked so; `doubled` where it is
/// not, and an earlier valid slot holds the same frame; `late` where an earlier slot of its thread that agrees
/// has a later frame.
#[derive(Clone, Copy, Debug, PartialEq, Eq)]
pub struct Counts {
    pub slots: u64,
    pub doubled: u64,
    pub invalid: u64,
    pub foreign: u64,
    pub late: u64,
}

impl Counts {
    // No slots.
    pub(crate) fn none() -> Counts
        ensures value { result ≡ record { slots = 0; doubled = 0; invalid = 0; foreign = 0; late = 0 } }
        ensures orderly { IsOrderly result }
    {
        Counts {
            slots: 0,
            doubled: 0,
            invalid: 0,
            foreign: 0,
            late: 0,
        }
    }

    // With one more slot, which is foreign.
    pub(crate) fn with_foreign(self) -> Counts
        requires orderly { IsOrderly self }
        requires room { self.slots < 2 ^ 26 }
        ensures value { result ≡ record self { slots = self.slots + 1; foreign = self.foreign + 1 } }
        ensures orderly { IsOrderly result }
    {
        Counts {
            slots: self.slots + 1,
            doubled: self.doubled,
            invalid: self.invalid,
            foreign: self.foreign + 1,
            late: self.late,
        }
    }

    // With one more slot, which agrees.
    pub(crate) fn with_agreeing(self, invalid: bool, late: bool) -> Counts
        requires orderly { IsOrderly self }
        requires room { self.slots < 2 ^ 26 }
        ensures value { result ≡ record self {
          slots = self.slots + 1;
          invalid = self.invalid + (if invalid then 1 else 0);
          late = self.late + (if late then 1 else 0);
        } }
        ensures orderly { IsOrderly result }
    {
        Counts {
            slots: self.slots + 1,
            doubled: self.doubled,
            invalid: self.invalid + u64::from(invalid),
            foreign: self.foreign,
            late: self.late + u64::from(late),
        }
    }

    // With so many doubled ones.
    pub(crate) fn with_doubled(self, doubled: u64) -> Counts
        ensures { result ≡ record self { doubled = doubled } }
    {
        Counts { doubled, ..self }
    }
}
