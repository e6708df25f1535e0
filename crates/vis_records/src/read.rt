//! A record file, read from the front.
ghost use Rattle.std.specs.Prelude.{◌≡◌, ◌≢◌, ◌-◌, [], length, Some, IfOk, IfErr};
ghost use Rattle.vis_records.specs.{declared.fault.VisKind.TheVariants.{Memory}, Content.{Content, IsRecordFile}, Parts.{Took, StopsBy}, Reading.{record_file, fault_of}};

use crate::fault::{Stop, VisFault, VisKind};
use crate::read_head::read_head;
use crate::read_records::{read_end, read_records};
use crate::rest::Rest;
use crate::vis::Vis;
use item_list::ItemList;
use std::alloc::Global;

/// The content of a record file. Any other text is refused for the first rule that it breaks, from the front. The
/// memory that is taken is that of the names, scans and cells that stand in the text.
pub fn read_all(alloc: Global, bytes: &[u8]) -> Result<Vis, VisFault>
    ensures content { IfOk result (λ vis. IsRecordFile bytes.now vis) }
    ensures fault { IfErr result (λ fault. fault.kind ≢ Memory → fault_of (length bytes.now) (record_file bytes.now) ≡ Some fault) }
    ensures refused { IfErr result (λ fault. fault.kind ≢ Memory → (content : Content) → ¬ IsRecordFile bytes.now content) }
    ensures memory { IfErr result (λ fault. fault.kind ≡ Memory → fault.at ≡ 0) }
{
    match read_file(alloc, bytes) {
        Ok(vis) => Ok(vis),
        Err(stop) => Err(placed(stop, bytes.len())),
    }
}

// The rule that a text of so many bytes breaks, with its place.
fn placed(stop: Stop, len: usize) -> VisFault
    ensures kind { result.kind ≡ stop.kind }
    ensures at { stop.kind ≢ Memory → result.at ≡ len - stop.left }
    ensures memory { stop.kind ≡ Memory → result.at ≡ 0 }
{
    let at = match stop.kind {
        VisKind::Memory => 0,
        _ => len.saturating_sub(stop.left),
    };
    VisFault {
        kind: stop.kind,
        at: at as u64,
    }
}

// The content of a record file.
#[tactic(auto, unfolding(crate::specs::Reading::record_file, crate::specs::Parts::chain))]
fn read_file(alloc: Global, bytes: &[u8]) -> Result<Vis, Stop>
    ensures took { IfOk result (λ vis. record_file bytes.now ≡ Took vis []) }
    ensures content { IfOk result (λ vis. IsRecordFile bytes.now vis) }
    ensures stops { IfErr result (StopsBy (record_file bytes.now)) }
{
    let mut rest = Rest::of(bytes);
    let head = read_head(alloc, &mut rest)?;
    let mut cells = Vec::new(alloc);
    read_records(&mut rest, &head, &mut cells)?;
    let count = cells.len() / head.lags() as usize;
    read_end(&mut rest, count as u64)?;
    Ok(Vis::new(head, ItemList::of(cells)))
}
