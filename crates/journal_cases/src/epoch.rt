//! The cells of epochs, made from their ranges.
ghost use Rattle.std.specs.Prelude.{◌≡◌, ◌*◌, ◌<◌, ◌≤◌, length, IfOk};
ghost use Rattle.piece_plan.specs.Epochs.{IsOfPlan, cell_count};

use crate::board::sums_of;
use anyhow::{Context, Result, bail};
use atomic_sums::EpochSums;
use corr_model::Cell;
use piece_plan::EpochPlan;
use std::alloc::Global;

// Above the sample where an epoch of a case ends.
const BIAS: u64 = 1 << 24;

/// The cells of an epoch: the sums tell its scan, its integration and its samples, and the count is the number of the cell, from 1.
pub fn cells_of(alloc: Global, e: &EpochPlan) -> Result<Vec<Cell>>
    requires { IsOfPlan e.now }
    ensures { IfOk result (λ cells. length cells.items ≡ cell_count e.now) }
{
    let re = re_of(e).context("too great a place")?;
    let im = -(e.to as i64);
    let mut cells = Vec::new(alloc);
    for number in 0..e.cells() {
        cells.push(Cell {
            re,
            im,
            count: u64::from(number) + 1,
        })?;
    }
    Ok(cells)
}

// The real part of an epoch's cells.
fn re_of(e: &EpochPlan) -> Option<i64> {
    let m = e.m.checked_mul(10)?;
    let before = m.checked_add(1000 * u64::from(e.scan))?;
    let re = before.checked_add(e.from)?;
    i64::try_from(re).ok()
}

/// The sums of these cells, as a board makes them.
pub fn epoch_sums(alloc: Global, cells: &[Cell]) -> Result<EpochSums>
    ensures { IfOk result (λ sums. length sums.cells ≡ length cells.now) }
{
    if cells.is_empty() || cells.len() > 1000 {
        bail!("no such number of cells");
    }
    let amounts = amounts_of(alloc, cells)?;
    sums_of(alloc, &amounts, BIAS)
}

// The amounts of a piece: three for each of its cells, to the first two of which the bias is added.
fn amounts_of(alloc: Global, cells: &[Cell]) -> Result<Vec<u64>>
    ensures { IfOk result (λ amounts. length amounts.items ≡ 3 * length cells.now) }
{
    let mut amounts = Vec::new(alloc);
    for cell in cells {
        amounts.push(BIAS.checked_add_signed(cell.re).context("a greater bias")?)?;
        amounts.push(BIAS.checked_add_signed(cell.im).context("a greater bias")?)?;
        amounts.push(cell.count)?;
    }
    Ok(amounts)
}
