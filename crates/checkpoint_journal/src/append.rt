//! The append of an epoch.
ghost use Rattle.std.specs.Prelude.{◌≡◌, ◌⊎◌, ℕ, List, ◌+◌, ◌*◌, length, option_map, OnOk, OnErr, Some, true};
ghost use Rattle.dev_traits.specs.Fault.{HasRisen};
ghost use Rattle.checkpoint_journal.specs.{Runs.{Changes, StepTold, AddsEpoch, OneMore}, Faults.{HasNoRoom}, Kept.{kept_epoch}, Standing.{Stands, StandsOn}};
ghost use Rattle.piece_plan.specs.{Epochs.{IsEpoch, cell_count}, Order.{place_of, place_after}};
ghost use Rattle.plan_places.specs.Places.{place_at};

use crate::walk::past_record;
use crate::writer::keep_record;
use crate::{AppendFault, Journal};
use atomic_sums::EpochSums;
use dev_traits::{Disk, Failed};
use piece_plan::{EpochPlan, JobPlan};

// No file has a byte at this place.
const PAST: u64 = 1 << 63;

impl Journal {
    /// Appends the cells of an epoch of any length that begins at the place behind the last one. After it every crash keeps the
    /// epoch; at each moment of it every image keeps the epochs from before, or these and the new one. Where the disk fails,
    /// or the record has no room below byte 2^63 - 1, the journal has failed, and what it keeps is found by opening it anew.
    /// It takes no memory.
    pub fn append<D: Disk>(
        &mut self,
        disk: &mut D,
        plan: &JobPlan,
        e: &EpochPlan,
        sums: &EpochSums,
    ) -> Result<(), AppendFault>
        requires stands { StandsOn plan.now self.old
            (D.seen disk.old) (D.may_leave disk.old (D.moment disk.old)) }
        requires begins { option_map place_at self.old.end.next ≡ Some (place_of e.now) }
        requires fits { IsEpoch plan.now e.now }
        requires cells { length sums.now.cells ≡ cell_count e.now }
        ensures one_more { OnOk result (self.new.end.kept ≡ self.old.end.kept + 1) }
        ensures next { OnOk result (option_map place_at self.new.end.next ≡ place_after plan.now e.now) }
        ensures here { OnOk result (self.new.here ≡ self.old.here) }
        ensures stands { OnOk result ((id : List ℕ)
            → Stands id plan.now self.old (D.seen disk.old) (D.may_leave disk.old (D.moment disk.old))
            → Stands id plan.now self.new (D.seen disk.new) (D.may_leave disk.new (D.moment disk.new))) }
        ensures added { OnOk result ((id : List ℕ)
            → Stands id plan.now self.old (D.seen disk.old) (D.may_leave disk.old (D.moment disk.old))
            → StepTold (OneMore id plan.now self.old.end.kept (kept_epoch e.now sums.now.cells))
            (D.seen disk.old) (D.seen disk.new)) }
        ensures failed { OnErr result (self.new ≡ record self.old { failed = true }) }
        ensures changes { (id : List ℕ)
            → Stands id plan.now self.old (D.seen disk.old) (D.may_leave disk.old (D.moment disk.old))
            → Changes D.seen D.moment D.may_leave
            (AddsEpoch id plan.now self.old.end.kept (kept_epoch e.now sums.now.cells)) disk.old disk.new }
        ensures no_fault { OnOk result (D.faults disk.new ≡ D.faults disk.old) }
        ensures unwritten { OnErr result (HasRisen (D.faults disk.old) (D.faults disk.new) ⊎ (D.seen disk.new ≡ D.seen disk.old)) }
        ensures fault { OnErr result (HasRisen (D.faults disk.old) (D.faults disk.new)
            ⊎ ((D.faults disk.new ≡ D.faults disk.old) × HasNoRoom self.old.end.gate (28 + 24 * length sums.now.cells))) }
    {
        let end = past_record(plan, &self.end, e);
        if end.gate + 1 >= PAST {
            self.failed = true;
            return Err(AppendFault::Disk);
        }
        match keep_record(disk, self.end.gate, e, sums, &mut self.buffer) {
            Ok(()) => {
                self.end = end;
                Ok(())
            }
            Err(Failed) => {
                self.failed = true;
                Err(AppendFault::Disk)
            }
        }
    }
}
