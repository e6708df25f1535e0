//! The epochs of a journal, read back one after another.
ghost use Rattle.std.specs.Prelude.{◌≡◌, ℕ, List, IfOk, OnErr};
ghost use Rattle.dev_traits.specs.{Fault.{Counts}, Told.{WhereTold}};
ghost use Rattle.checkpoint_journal.specs.{Runs.{Looks}, Kept.{HoldsAny, ReadsNext}, Standing.{Stands, StandsOn, IsNext}};

use crate::cursor::read_record;
use crate::{Journal, ReadFault};
use corr_model::Cell;
use dev_traits::{Disk, Failed};
use piece_plan::{EpochPlan, JobPlan};

impl Journal {
    /// The next epoch that the journal keeps, from the first one after an opening or `rewind`, with its cells at the front of
    /// `out`, by group and then by lag; none where all were read. `out` has room for the job's largest epoch. Nothing is
    /// written. Where the disk fails, the journal is as before, and `out` has any cells. It takes no memory.
    pub fn read_next<D: Disk>(
        &mut self,
        disk: &mut D,
        plan: &JobPlan,
        out: &mut [Cell],
    ) -> Result<Option<EpochPlan>, ReadFault>
        requires stands { StandsOn plan.now self.old
            (D.seen disk.old) (D.may_leave disk.old (D.moment disk.old)) }
        requires room { HoldsAny plan.now out.old }
        ensures reads { IfOk result (λ next. (id : List ℕ)
            → Stands id plan.now self.old (D.seen disk.old) (D.may_leave disk.old (D.moment disk.old))
            → WhereTold (D.seen disk.old) (λ image. ReadsNext id plan.now image self.old.here.kept next out.new)) }
        ensures next { IfOk result (IsNext plan.now self.old self.new) }
        ensures stands { (id : List ℕ)
            → Stands id plan.now self.old (D.seen disk.old) (D.may_leave disk.old (D.moment disk.old))
            → Stands id plan.now self.new (D.seen disk.new) (D.may_leave disk.new (D.moment disk.new)) }
        ensures as_before { OnErr result (self.new ≡ self.old) }
        ensures looks { Looks D.seen D.moment D.may_leave disk.old disk.new }
        ensures counts { Counts (D.faults disk.old) (D.faults disk.new) result }
    {
        if self.here.kept == self.end.kept {
            return Ok(None);
        }
        let Some(place) = self.here.next else {
            return Ok(None);
        };
        let last = self.end.gate;
        match read_record(disk, plan, &self.here, &place, last, out, &mut self.buffer) {
            Ok(read) => {
                self.here = read.gate;
                Ok(Some(read.epoch))
            }
            Err(Failed) => Err(ReadFault::Disk),
        }
    }
}
