//! The record file under a name.
ghost use Rattle.std.specs.Prelude.{◌≡◌, IfOk, IfErr, Ok};
ghost use Rattle.std.specs.Str.{IsUtf8};
ghost use Rattle.dev_traits.specs.Told.{WhereTold};
ghost use Rattle.run_notes.specs.{Refusals.{IsCause}, Counted.{CountsReads}};
ghost use Rattle.run_ready.specs.Stage.{IsOfFiles, IsOfTexts};
ghost use Rattle.run_dump.specs.Shown.{ContentOf, RecordsOf, records_refusal};

use dev_traits::Shelf;
use job_join::Quantity;
use num_time::Name;
use run_notes::{Due, Measure, Refusal};
use run_ready::load_text;
use std::alloc::Global;
use vis_records::{Vis, VisFault, VisKind, read_all};

// The greatest length of a record file that is read, in bytes.
const MOST_RECORD_BYTES: u64 = 1_073_741_824;

/// The content of the record file under a name. First its size is looked at, and then it is read whole.
pub fn load_records<F: Shelf>(alloc: Global, shelf: &mut F, name: &Name) -> Result<Vis, Refusal>
    requires text { IsUtf8 name.now }
    ensures same { F.told shelf.new ≡ F.told shelf.old }
    ensures content { IfOk result (λ vis. WhereTold (F.told shelf.old) (λ files. RecordsOf files name.now (Ok vis))) }
    ensures cause { IfErr result (λ r. WhereTold (F.told shelf.old) (λ files. IsCause r (RecordsOf files name.now))) }
    ensures stage { IfErr result IsOfFiles }
    ensures counts { CountsReads (F.faults shelf.old) (F.faults shelf.new) result }
{
    let records = Measure::Job(Quantity::Records);
    let text = load_text(alloc, shelf, name, records, MOST_RECORD_BYTES)?;
    Ok(content_of(alloc, &text)?)
}

// The content of a record file's text.
fn content_of(alloc: Global, text: &[u8]) -> Result<Vis, Refusal>
    ensures content { IfOk result (λ vis. ContentOf text.now (Ok vis)) }
    ensures cause { IfErr result (λ r. IsCause r (ContentOf text.now)) }
    ensures stage { IfErr result IsOfTexts }
{
    match read_all(alloc, text) {
        Ok(vis) => Ok(vis),
        Err(fault) => Err(records_refusal(fault)),
    }
}

// The refusal of a text that is no record file.
fn records_refusal(fault: VisFault) -> Refusal
    ensures { result ≡ records_refusal fault }
{
    match fault.kind {
        VisKind::Memory => Refusal::Memory,
        _ => Refusal::Due(Due::Records(fault)),
    }
}
