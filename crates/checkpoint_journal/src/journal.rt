//! The journal.
ghost use Rattle.std.specs.Prelude.{◌≡◌, ℕ, List, ◌≤◌, Option, length};
ghost use Rattle.piece_plan.specs.Epochs.{JobSizes};
ghost use Rattle.checkpoint_journal.specs.Standing.{JournalState, journal_state, StandsAtRest};

use crate::finding::Found;
use plan_places::Place;
use std::marker::Model;

/// The journal of a job on a disk, which each call is handed. It knows its first gate, the one behind the last epoch that it
/// keeps and the one behind the epoch that was read last, and whether a call has failed; then it is opened anew.
#[derive(Drop)]
pub struct Journal {
    pub(crate) first: Found,
    pub(crate) end: Found,
    pub(crate) here: Found,
    pub(crate) failed: bool,
    pub(crate) buffer: Vec<u8>,
}

impl Model for Journal {
    ghost Value = { JournalState };

    ghost view = { λ j. journal_state j.first j.end j.here j.failed };

    ghost invariant = { λ j. (length j.buffer.items ≡ 960000) × (j.first.gate ≤ j.end.gate) };
}

impl Journal {
    /// The number of kept epochs.
    pub fn kept(&self) -> u64
        ensures { result ≡ self.now.end.kept }
    {
        self.end.kept
    }

    /// The place of the job where the next epoch begins; none exactly where the journal covers the job.
    pub fn next_place(&self) -> Option<Place>
        ensures { result ≡ self.now.end.next }
    {
        self.end.next
    }

    /// Whether a call has failed, so that the journal has to be opened anew.
    pub fn has_failed(&self) -> bool
        ensures { result ≡ self.now.failed }
    {
        self.failed
    }

    /// Goes back to the first epoch: it is the next one that is read.
    pub fn rewind(&mut self)
        ensures first { self.new ≡ record self.old { here = self.old.first } }
        ensures stands { (id : List ℕ) (job : JobSizes) (seen : Option (List ℕ))
            → StandsAtRest id job self.old seen → StandsAtRest id job self.new seen }
    {
        self.here = self.first;
    }
}
