//! What the lines of a text of phases so far say.
ghost use Rattle.std.specs.Prelude.{◌≡◌, ◌++◌, ◌∷◌, [], map, Some, false, OnOk};
ghost use Rattle.pulsar_bins.specs.{declared.word.Word.TheVariants.{Count, Phase}, Said.{said_by}, Faults.{is_taken, row_fault}, Growing.{Takes, grown}, Bins.{IsSaid}, Answer.{bins_by}};

use crate::bins::Bins;
use crate::fault::BinsKind;
use crate::values::count_in;
use crate::word::Word;
use delay_poly::{PolyEntry, PolyList};
use job_lines::{behind, field, poly_from, second_of};
use std::alloc::{AllocError, Global};

/// What the lines so far say: the number of bins, and the phase's entries.
#[derive(Drop)]
pub(crate) struct Said {
    pub(crate) count: Option<u32>,
    pub(crate) phases: PolyList,
}

// Whether a phase of a second is there already.
fn is_taken(phases: &PolyList, second: Option<i64>) -> bool
    ensures { result ≡ is_taken second phases.now }
{
    let Some(second) = second else {
        return false;
    };
    match phases.entry_for(second) {
        Some(entry) => entry.second == second,
        None => false,
    }
}

// Adds a phase of a second of which there is none.
fn add_phase(phases: &mut PolyList, entry: PolyEntry) -> Result<(), AllocError>
    requires { is_taken (Some entry.second) phases.old ≡ false }
    ensures { OnOk result (phases.new ≡ phases.old ++ entry ∷ []) }
{
    let _added = phases.add(entry)?;
    Ok(())
}

impl Said {
    /// What no line says.
    #[tactic(auto, unfolding(crate::specs::Said::said_by))]
    pub(crate) fn new(alloc: Global) -> Self
        ensures { result ≡ said_by [] }
    {
        Said {
            count: None,
            phases: PolyList::new(alloc),
        }
    }

    #[tactic(auto, unfolding(crate::specs::Faults::row_fault, crate::specs::Growing::grown))]
    fn take_count(&mut self, fields: &[&[u8]]) -> Result<(), BinsKind>
        ensures taken { Takes (row_fault self.old Count (map (λ field. field.now) fields.now)) (grown self.old Count (map (λ field. field.now) fields.now)) result self.new }
        ensures sound { OnOk result (IsSaid self.old → IsSaid self.new) }
    {
        if self.count.is_some() {
            return Err(BinsKind::Double);
        }
        let Some(count) = count_in(fields) else {
            return Err(BinsKind::Range);
        };
        self.count = Some(count);
        Ok(())
    }

    #[tactic(auto, unfolding(crate::specs::Faults::row_fault, crate::specs::Growing::grown, crate::specs::Values::phase_in))]
    fn take_phase(&mut self, alloc: Global, fields: &[&[u8]]) -> Result<(), BinsKind>
        ensures taken { Takes (row_fault self.old Phase (map (λ field. field.now) fields.now)) (grown self.old Phase (map (λ field. field.now) fields.now)) result self.new }
        ensures sound { OnOk result (IsSaid self.old → IsSaid self.new) }
    {
        let time = field(fields, 0);
        if is_taken(&self.phases, second_of(time)) {
            return Err(BinsKind::Double);
        }
        let Some(entry) = poly_from(alloc, time, behind(fields, 1))? else {
            return Err(BinsKind::Range);
        };
        add_phase(&mut self.phases, entry)?;
        Ok(())
    }

    /// Takes the fields behind a word, which are written as it asks.
    pub(crate) fn take_row(
        &mut self,
        alloc: Global,
        word: Word,
        fields: &[&[u8]],
    ) -> Result<(), BinsKind>
        ensures taken { Takes (row_fault self.old word (map (λ field. field.now) fields.now)) (grown self.old word (map (λ field. field.now) fields.now)) result self.new }
        ensures sound { OnOk result (IsSaid self.old → IsSaid self.new) }
    {
        match word {
            Word::Count => self.take_count(fields),
            Word::Phase => self.take_phase(alloc, fields),
        }
    }

    /// The bins that the lines say, none where a line is missing.
    pub(crate) fn into_bins(self, alloc: Global) -> Option<Bins>
        requires { IsSaid self }
        ensures { result ≡ bins_by self }
    {
        let Said { count, phases } = self;
        let count = count?;
        if phases.is_empty() {
            return None;
        }
        Some(Bins::new(alloc, count, phases))
    }
}
