//! The lines of the record file under a name.
ghost use Rattle.std.specs.Prelude.{◌≡◌, ⊤, IfErr};
ghost use Rattle.std.specs.Str.{IsUtf8};
ghost use Rattle.dev_traits.specs.Told.{WhereTold};
ghost use Rattle.sink_text.specs.Appends.{Appends};
ghost use Rattle.vis_records.specs.Dumped.{dump_text};
ghost use Rattle.run_notes.specs.{Refusals.{MatchWrite}, Commands.{Shows, IsOfFilesOrOutput}, Counted.{CountsReads, CountsWrites}};
ghost use Rattle.run_dump.specs.Shown.{RecordsOf};

use crate::load::load_records;
use dev_traits::{Shelf, Sink};
use num_time::Name;
use run_notes::Refusal;
use std::alloc::Global;
use vis_records::{Vis, dump};

/// Appends the lines of the record file under a name. First its size is looked at, and then it is read whole; before its first
/// line nothing is appended.
pub fn show_records<F: Shelf, S: Sink>(
    alloc: Global,
    file: &Name,
    shelf: &mut F,
    out: &mut S,
) -> Result<(), Refusal>
    requires text { IsUtf8 file.now }
    ensures same { F.told shelf.new ≡ F.told shelf.old }
    ensures shows { WhereTold (F.told shelf.old) (λ files. Shows (RecordsOf files file.now) dump_text (S.told out.old) (S.told out.new) result) }
    ensures nothing { IfErr result (λ r. MatchWrite r ⊤ (S.told out.new ≡ S.told out.old)) }
    ensures stage { IfErr result IsOfFilesOrOutput }
    ensures reads { CountsReads (F.faults shelf.old) (F.faults shelf.new) result }
    ensures writes { CountsWrites (S.faults out.old) (S.faults out.new) result }
{
    let vis = load_records(alloc, shelf, file)?;
    show(&vis, out)
}

// Appends the lines of a record file.
fn show<S: Sink>(vis: &Vis, out: &mut S) -> Result<(), Refusal>
    ensures appends { Appends (S.told out.old) (S.told out.new) (dump_text vis.now) (S.faults out.old) (S.faults out.new) result }
    ensures fault { IfErr result (λ r. r ≡ Refusal.Write) }
{
    match dump(vis, out) {
        Ok(()) => Ok(()),
        Err(_) => Err(Refusal::Write),
    }
}
