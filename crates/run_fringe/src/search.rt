//! The peaks of the record file under a name.
ghost use Rattle.std.specs.Prelude.{◌≡◌, ⊤, IfOk, IfErr, Ok};
ghost use Rattle.std.specs.Str.{IsUtf8};
ghost use Rattle.dev_traits.specs.Told.{WhereTold};
ghost use Rattle.fringe_search.specs.{Peaks.{AreSmall}, Certificates.{lines_text}, Written.{AppendsCertificate}};
ghost use Rattle.run_words.specs.Orders.{IsGrid};
ghost use Rattle.run_notes.specs.{Refusals.{IsCause, MatchWrite}, Commands.{Shows, IsOfFilesOrOutput}, Counted.{CountsReads, CountsWrites}};
ghost use Rattle.run_ready.specs.{Steps.{Then}, Stage.{IsOfFiles}};
ghost use Rattle.run_dump.specs.Shown.{RecordsOf};
ghost use Rattle.run_fringe.specs.Searched.{SmallOf, FringeOf};

use crate::limit::check_amplitudes;
use dev_traits::{Shelf, Sink};
use fringe_search::{Grid, write_certificate};
use num_time::Name;
use run_dump::load_records;
use run_notes::Refusal;
use std::alloc::Global;
use vis_records::Vis;

/// Searches the record file under a name and appends the certificate of its peaks, for the rates from `-rates` to `rates`, each
/// unit of which is a turn by 1 / (16 * `divide`) of a circle in an integration. First the file's size is looked at, and then it
/// is read whole; before the certificate's first line nothing is appended.
pub fn write_peaks<F: Shelf, S: Sink>(
    alloc: Global,
    file: &Name,
    rates: u32,
    divide: u32,
    shelf: &mut F,
    out: &mut S,
) -> Result<(), Refusal>
    requires text { IsUtf8 file.now }
    requires grid { IsGrid rates divide }
    ensures same { F.told shelf.new ≡ F.told shelf.old }
    ensures shows { WhereTold (F.told shelf.old) (λ files. Shows (FringeOf files file.now rates divide) lines_text (S.told out.old) (S.told out.new) result) }
    ensures nothing { IfErr result (λ r. MatchWrite r ⊤ (S.told out.new ≡ S.told out.old)) }
    ensures stage { IfErr result IsOfFilesOrOutput }
    ensures reads { CountsReads (F.faults shelf.old) (F.faults shelf.new) result }
    ensures writes { CountsWrites (S.faults out.old) (S.faults out.new) result }
{
    let vis = load_small(alloc, file, shelf)?;
    let grid = Grid { rates, divide };
    certify(&vis, &grid, out)
}

// The content of the record file under a name, where its amplitudes are within what is searched.
fn load_small<F: Shelf>(alloc: Global, file: &Name, shelf: &mut F) -> Result<Vis, Refusal>
    requires text { IsUtf8 file.now }
    ensures same { F.told shelf.new ≡ F.told shelf.old }
    ensures content { IfOk result (λ vis. WhereTold (F.told shelf.old) (λ files. RecordsOf files file.now (Ok vis))) }
    ensures small { IfOk result AreSmall }
    ensures cause { IfErr result (λ r. WhereTold (F.told shelf.old) (λ files. IsCause r (Then (RecordsOf files file.now) SmallOf))) }
    ensures stage { IfErr result IsOfFiles }
    ensures counts { CountsReads (F.faults shelf.old) (F.faults shelf.new) result }
{
    let vis = load_records(alloc, shelf, file)?;
    check_amplitudes(&vis)?;
    Ok(vis)
}

// Appends the certificate of a record file.
fn certify<S: Sink>(vis: &Vis, grid: &Grid, out: &mut S) -> Result<(), Refusal>
    requires { AreSmall vis.now }
    ensures appends { AppendsCertificate vis.now grid.now (S.told out.old) (S.told out.new) (S.faults out.old) (S.faults out.new) result }
    ensures fault { IfErr result (λ r. r ≡ Refusal.Write) }
{
    match write_certificate(vis, grid, out) {
        Ok(()) => Ok(()),
        Err(_) => Err(Refusal::Write),
    }
}
