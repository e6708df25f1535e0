//! Old journals, whose records have no range.

use crate::epoch::cells_of;
use anyhow::{Context, Result, bail};
use corr_model::Cell;
use piece_plan::JobPlan;
use std::alloc::{AllocError, Global};

/// The old journal of a job with this identity that keeps its first so many epochs, cut by the job's own line.
pub fn old_journal(alloc: Global, identity: &[u8], plan: &JobPlan, count: u64) -> Result<Vec<u8>> {
    if count > plan.epochs() {
        bail!("fewer epochs");
    }
    let mut file = b"\x01VLBIJRN1".to_vec(alloc)?;
    file.extend_from_slice(identity.get(8..).context("an identity")?)?;
    for i in 0..count {
        file.push(1)?;
        push_cells(&mut file, &cells_of(alloc, &plan.epoch(i))?)?;
    }
    file.push(0)?;
    Ok(file)
}

// Adds the bytes of cells.
fn push_cells(file: &mut Vec<u8>, cells: &[Cell]) -> Result<(), AllocError> {
    for cell in cells {
        file.extend_from_slice(&cell.re.to_le_bytes())?;
        file.extend_from_slice(&cell.im.to_le_bytes())?;
        file.extend_from_slice(&cell.count.to_le_bytes())?;
    }
    Ok(())
}
