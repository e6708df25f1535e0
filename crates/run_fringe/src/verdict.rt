//! The verdict on the certificate of a record file.
ghost use Rattle.std.specs.Prelude.{◌≡◌, ⊤, IfOk, IfErr, OnOk, Ok, codes};
ghost use Rattle.std.specs.Str.{IsUtf8};
ghost use Rattle.dev_traits.specs.Told.{WhereTold};
ghost use Rattle.sink_text.specs.Appends.{Appends};
ghost use Rattle.fringe_search.specs.{Peaks.{AreSmall}, Certificates.{IsRight}};
ghost use Rattle.run_notes.specs.{Refusals.{IsCause, MatchWrite}, Commands.{Shows, IsOfFilesOrOutput}, Counted.{CountsReads, CountsWrites}};
ghost use Rattle.run_ready.specs.Stage.{IsOfFiles};
ghost use Rattle.run_fringe.specs.Searched.{VerdictOf, CheckOf, VerifyOf, right_text, IsVerdict};

use crate::limit::check_amplitudes;
use dev_traits::{Shelf, Sink};
use fringe_search::check_certificate;
use num_time::Name;
use run_dump::load_records;
use run_notes::{Due, Measure, Refusal};
use run_ready::load_text;
use sink_text::{Piece, append_pieces};
use std::alloc::Global;
use vis_records::Vis;

// The greatest length of a certificate that is read, in bytes.
const MOST_BYTES: u64 = 1_073_741_824;

/// Checks the certificate under a name against the record file under another, and appends the line `right` where it is right.
/// First the record file is read whole and judged, and then the certificate, its size before its bytes; nothing is searched for.
pub fn verify_peaks<F: Shelf, S: Sink>(
    alloc: Global,
    file: &Name,
    certificate: &Name,
    shelf: &mut F,
    out: &mut S,
) -> Result<(), Refusal>
    requires file_text { IsUtf8 file.now }
    requires certificate_text { IsUtf8 certificate.now }
    ensures same { F.told shelf.new ≡ F.told shelf.old }
    ensures shows { WhereTold (F.told shelf.old) (λ files. Shows (VerifyOf files file.now certificate.now) right_text (S.told out.old) (S.told out.new) result) }
    ensures nothing { IfErr result (λ r. MatchWrite r ⊤ (S.told out.new ≡ S.told out.old)) }
    ensures stage { IfErr result IsOfFilesOrOutput }
    ensures reads { CountsReads (F.faults shelf.old) (F.faults shelf.new) result }
    ensures writes { CountsWrites (S.faults out.old) (S.faults out.new) result }
{
    load_certified(alloc, file, certificate, shelf)?;
    tell_right(out)
}

// The content of the record file under a name of which another file is a right certificate.
fn load_certified<F: Shelf>(
    alloc: Global,
    file: &Name,
    certificate: &Name,
    shelf: &mut F,
) -> Result<Vis, Refusal>
    requires file_text { IsUtf8 file.now }
    requires certificate_text { IsUtf8 certificate.now }
    ensures same { F.told shelf.new ≡ F.told shelf.old }
    ensures content { IfOk result (λ vis. WhereTold (F.told shelf.old) (λ files. VerifyOf files file.now certificate.now (Ok vis))) }
    ensures cause { IfErr result (λ r. WhereTold (F.told shelf.old) (λ files. IsCause r (VerifyOf files file.now certificate.now))) }
    ensures stage { IfErr result IsOfFiles }
    ensures counts { CountsReads (F.faults shelf.old) (F.faults shelf.new) result }
{
    let vis = load_records(alloc, shelf, file)?;
    let text = load_text(alloc, shelf, certificate, Measure::Certificate, MOST_BYTES)?;
    check(&vis, &text)?;
    Ok(vis)
}

// Whether a text is a right certificate of a record file whose amplitudes are within what is searched.
fn check(vis: &Vis, text: &[u8]) -> Result<(), Refusal>
    ensures right { OnOk result (CheckOf vis.now text.now (Ok vis.now)) }
    ensures cause { IfErr result (λ r. IsCause r (CheckOf vis.now text.now)) }
    ensures verdict { IfErr result IsVerdict }
{
    check_amplitudes(vis)?;
    judge(vis, text)
}

// Whether a text is a right certificate.
fn judge(vis: &Vis, text: &[u8]) -> Result<(), Refusal>
    requires { AreSmall vis.now }
    ensures right { OnOk result (IsRight vis.now text.now) }
    ensures cause { IfErr result (λ r. IsCause r (VerdictOf vis.now text.now)) }
    ensures verdict { IfErr result IsVerdict }
{
    match check_certificate(vis, text) {
        Ok(()) => Ok(()),
        Err(wrong) => Err(Refusal::Due(Due::Certificate(wrong.at))),
    }
}

// Appends the line of a right certificate.
fn tell_right<S: Sink>(out: &mut S) -> Result<(), Refusal>
    ensures appends { Appends (S.told out.old) (S.told out.new) (codes "right\n") (S.faults out.old) (S.faults out.new) result }
    ensures fault { IfErr result (λ r. r ≡ Refusal.Write) }
{
    match append_pieces(&[Piece::Text("right\n")], out) {
        Ok(()) => Ok(()),
        Err(_) => Err(Refusal::Write),
    }
}
