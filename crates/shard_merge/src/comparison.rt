//! Shards compared, integration by integration.
ghost use Rattle.std.specs.Prelude.{◌≡◌, ◌≤◌, ◌<◌, ◌+◌, ◌*◌, ◌^◌, ℕ, List, length, option_map, IfOk};
ghost use Rattle.std.specs.List.{All};
ghost use Rattle.dev_traits.specs.{Fault.{Counts}, Told.{WhereTold}};
ghost use Rattle.corr_model.specs.declared.cell.Cell.{Cell};
ghost use Rattle.piece_plan.specs.{declared.job.ScanSize.{ScanSize}, Epochs.{AreLags}};
ghost use Rattle.journal_image.specs.Image.{KeptEpoch};
ghost use Rattle.shard_merge.specs.{Covers.{width_at}, Verdict.{same_cell, difference, earlier, differ_in, verdict_on, verdict_at, integrations_in, verdict_from, verdict, IsVerdict}};
ghost use Rattle.shard_merge.specs.{Reading.{IsListed, IsReadFrom, AreReadFrom, CountsMerge}, declared.comparison.Place.{Place}, declared.comparison.Found.{Found}};
ghost use Rattle.shard_merge.specs.CompareSteps.{as_difference, scan_places, with_shard, IsWithin, Stands};

use crate::cells::sum_cells;
use crate::coverage::covers;
use crate::fault::{CellsDiffer, MergeFault};
use crate::shard::Shard;
use corr_model::Cell;
use dev_traits::{Failed, Shelf};
use piece_plan::{JobPlan, ScanSize, integrations_in};
use std::alloc::{AllocError, Global};

// How many cells of a shard are read at a time, and how many bytes that are.
const PART: usize = 40_000;

const BUFFER: usize = 960_000;

// The place at which cells differ, and both cells there.
#[derive(Clone, Copy)]
struct Place {
    at: usize,
    first: Cell,
    other: Cell,
}

// What the shards that were read say of an integration: whether one of them covers it, and the first place at which another one differs
// from the first that does.
#[derive(Clone, Copy)]
struct Found {
    some: bool,
    least: Option<Place>,
}

/// Looks whether shards of a job make it together: each integration is covered by one of them at least, and all that cover it have the
/// same cells in it. The first integration that is not so is named: that none covers it, or else the first group, in it the first lag, and
/// there the first shard that differs from the first one that covers it.
pub fn compare<F: Shelf>(
    alloc: Global,
    shelf: &mut F,
    shards: &[Shard],
    plan: &JobPlan,
) -> Result<(), MergeFault>
    requires listed { All (IsListed plan.now) shards.now }
    ensures same { F.told shelf.new ≡ F.told shelf.old }
    ensures verdict { WhereTold (F.told shelf.old) (λ files. (id : List ℕ) (keeps : List (List KeptEpoch))
        → AreReadFrom files id plan.now shards.now keeps → IsVerdict (verdict plan.now keeps) result) }
    ensures counts { CountsMerge (F.faults shelf.old) (F.faults shelf.new) result }
{
    let most = widest(plan);
    let mut first = empty_cells(alloc, most)?;
    let mut other = empty_cells(alloc, most)?;
    let mut part = empty_cells(alloc, PART)?;
    let mut buffer = zero_bytes(alloc, BUFFER)?;
    compare_scans(
        shelf,
        shards,
        plan,
        &mut first,
        &mut other,
        &mut part,
        &mut buffer,
    )
}

// So many cells of no pair.
fn empty_cells(alloc: Global, count: usize) -> Result<Vec<Cell>, AllocError>
    ensures { IfOk result (λ v. length v.items ≡ count) }
{
    vec![in alloc; Cell::ZERO; count]
}

fn zero_bytes(alloc: Global, count: usize) -> Result<Vec<u8>, AllocError>
    ensures { IfOk result (λ v. length v.items ≡ count) }
{
    vec![in alloc; 0_u8; count]
}

// How many cells an integration of a scan has.
fn width_of(size: &ScanSize, lags: u32) -> usize
    requires cells { size.now.products * size.now.baselines * lags ≤ 4194304 }
    requires lags { AreLags lags }
    ensures { result ≡ size.now.products * size.now.baselines * lags }
{
    size.products as usize * size.baselines as usize * lags as usize
}

// The greater of two numbers of cells.
fn wider(most: usize, width: usize) -> usize
    ensures most { most ≤ result }
    ensures width { width ≤ result }
    ensures within { (room : ℕ) → most ≤ room → width ≤ room → result ≤ room }
{
    if width > most { width } else { most }
}

// How many cells the widest integration of a plan has.
fn widest(plan: &JobPlan) -> usize
    ensures few { result ≤ 4194304 }
    ensures each { All (λ (size : ScanSize). size.products * size.baselines * plan.now.lags ≤ result) plan.now.scans }
{
    let lags = plan.lags();
    let mut most = 0;
    for size in plan.scans() {
        most = wider(most, width_of(size, lags));
    }
    most
}

// Compares the integrations of all scans. There is room for those of the widest.
fn compare_scans<F: Shelf>(
    shelf: &mut F,
    shards: &[Shard],
    plan: &JobPlan,
    first: &mut [Cell],
    other: &mut [Cell],
    part: &mut [Cell],
    buffer: &mut [u8],
) -> Result<(), MergeFault>
    requires listed { All (IsListed plan.now) shards.now }
    requires first { All (λ (size : ScanSize). size.products * size.baselines * plan.now.lags ≤ length first.old) plan.now.scans }
    requires other { length other.old ≡ length first.old }
    requires part { length part.old ≡ 40000 }
    requires buffer { length buffer.old ≡ 960000 }
    ensures same { F.told shelf.new ≡ F.told shelf.old }
    ensures verdict { WhereTold (F.told shelf.old) (λ files. (id : List ℕ) (keeps : List (List KeptEpoch))
        → AreReadFrom files id plan.now shards.now keeps → IsVerdict (verdict_from plan.now keeps 0 (integrations_in plan.now)) result) }
    ensures counts { CountsMerge (F.faults shelf.old) (F.faults shelf.new) result }
{
    let lags = plan.lags();
    let integration = plan.integration();
    let mut i = 0;
    for (number, size) in plan.scans().iter().enumerate() {
        let width = width_of(size, lags);
        let count = integrations_in(size, integration);
        compare_scan(
            shelf,
            shards,
            plan,
            number as u32,
            i,
            size.first,
            count,
            &mut first[..width],
            &mut other[..width],
            part,
            buffer,
        )?;
        i += count;
    }
    Ok(())
}

// Compares `count` integrations of a scan, the first of which is its own number `from` and number `i` of all.
fn compare_scan<F: Shelf>(
    shelf: &mut F,
    shards: &[Shard],
    plan: &JobPlan,
    number: u32,
    i: u64,
    from: u64,
    count: u64,
    first: &mut [Cell],
    other: &mut [Cell],
    part: &mut [Cell],
    buffer: &mut [u8],
) -> Result<(), MergeFault>
    requires listed { All (IsListed plan.now) shards.now }
    requires scan { number < length plan.now.scans }
    requires few { width_at plan.now number ≤ 4194304 }
    requires numbers { i + count < 2 ^ 64 }
    requires places { from + count < 2 ^ 64 }
    requires first { length first.old ≡ width_at plan.now number }
    requires other { length other.old ≡ width_at plan.now number }
    requires part { length part.old ≡ 40000 }
    requires buffer { length buffer.old ≡ 960000 }
    ensures same { F.told shelf.new ≡ F.told shelf.old }
    ensures verdict { WhereTold (F.told shelf.old) (λ files. (id : List ℕ) (keeps : List (List KeptEpoch))
        → AreReadFrom files id plan.now shards.now keeps → IsVerdict (verdict_from plan.now keeps i (scan_places number from count)) result) }
    ensures counts { CountsMerge (F.faults shelf.old) (F.faults shelf.new) result }
{
    for k in 0..count {
        compare_integration(
            shelf,
            shards,
            plan,
            number,
            from + k,
            i + k,
            first,
            other,
            part,
            buffer,
        )?;
    }
    Ok(())
}

// Compares integration `m` of a scan, which is number `i` of all. Each shard that covers it is read, whatever those before it say.
fn compare_integration<F: Shelf>(
    shelf: &mut F,
    shards: &[Shard],
    plan: &JobPlan,
    number: u32,
    m: u64,
    i: u64,
    first: &mut [Cell],
    other: &mut [Cell],
    part: &mut [Cell],
    buffer: &mut [u8],
) -> Result<(), MergeFault>
    requires listed { All (IsListed plan.now) shards.now }
    requires scan { number < length plan.now.scans }
    requires few { width_at plan.now number ≤ 4194304 }
    requires first { length first.old ≡ width_at plan.now number }
    requires other { length other.old ≡ width_at plan.now number }
    requires part { length part.old ≡ 40000 }
    requires buffer { length buffer.old ≡ 960000 }
    ensures same { F.told shelf.new ≡ F.told shelf.old }
    ensures verdict { WhereTold (F.told shelf.old) (λ files. (id : List ℕ) (keeps : List (List KeptEpoch))
        → AreReadFrom files id plan.now shards.now keeps → IsVerdict (verdict_at plan.now keeps i (number, m)) result) }
    ensures counts { CountsMerge (F.faults shelf.old) (F.faults shelf.new) result }
{
    let mut found = Found {
        some: false,
        least: None,
    };
    for shard in shards {
        let Ok(next) = after_shard(
            shelf, shard, plan, number, m, found, first, other, part, buffer,
        ) else {
            return Err(MergeFault::Read);
        };
        found = next;
    }
    told(plan, i, found)
}

// What is found once a shard was looked at. The first one that covers the integration gives the cells that the others are compared with.
fn after_shard<F: Shelf>(
    shelf: &mut F,
    shard: &Shard,
    plan: &JobPlan,
    number: u32,
    m: u64,
    found: Found,
    first: &mut [Cell],
    other: &mut [Cell],
    part: &mut [Cell],
    buffer: &mut [u8],
) -> Result<Found, Failed>
    requires listed { IsListed plan.now shard.now }
    requires scan { number < length plan.now.scans }
    requires few { width_at plan.now number ≤ 4194304 }
    requires first { length first.old ≡ width_at plan.now number }
    requires other { length other.old ≡ width_at plan.now number }
    requires part { length part.old ≡ 40000 }
    requires buffer { length buffer.old ≡ 960000 }
    requires within { IsWithin 4194304 found.least }
    ensures same { F.told shelf.new ≡ F.told shelf.old }
    ensures within { IfOk result (λ (next : Found). IsWithin 4194304 next.least) }
    ensures stands { IfOk result (λ (next : Found). WhereTold (F.told shelf.old) (λ files. (id : List ℕ) (kept : List KeptEpoch) (cells : List (List Cell))
        → IsReadFrom files id plan.now shard.now kept → Stands found first.old cells
        → Stands next first.new (with_shard plan.now number m kept cells))) }
    ensures counts { Counts (F.faults shelf.old) (F.faults shelf.new) result }
{
    if !covers(plan, shard, number, m) {
        return Ok(found);
    }
    if !found.some {
        sum_cells(shelf, plan, shard, number, m, first, part, buffer)?;
        return Ok(Found {
            some: true,
            least: None,
        });
    }
    sum_cells(shelf, plan, shard, number, m, other, part, buffer)?;
    Ok(Found {
        some: true,
        least: earlier(found.least, difference(first, other)),
    })
}

// What is wrong with integration `i` by what was found in all shards.
fn told(plan: &JobPlan, i: u64, found: Found) -> Result<(), MergeFault>
    requires within { IsWithin 4194304 found.least }
    ensures verdict { (first : List Cell) (cells : List (List Cell)) → Stands found first cells → IsVerdict (verdict_on plan.now i cells) result }
    ensures counts { (faults : ℕ) → CountsMerge faults faults result }
{
    if !found.some {
        return Err(MergeFault::Uncovered(i));
    }
    match found.least {
        None => Ok(()),
        Some(d) => Err(MergeFault::Differs(named(plan, i, &d))),
    }
}

// A difference in integration `i`, by its group and lag.
fn named(plan: &JobPlan, i: u64, d: &Place) -> CellsDiffer
    requires within { d.now.at < 4194304 }
    ensures { result ≡ differ_in plan.now i (as_difference d.now) }
{
    let lags = plan.lags() as usize;
    CellsDiffer {
        integration: i,
        group: (d.at / lags) as u32,
        lag: (d.at % lags) as i32 - (lags / 2) as i32,
        first: d.first,
        other: d.other,
    }
}

// The first place at which two lists of one length have different cells.
fn difference(first: &[Cell], other: &[Cell]) -> Option<Place>
    requires { length other.now ≡ length first.now }
    ensures first { option_map as_difference result ≡ difference 0 first.now other.now }
    ensures within { IsWithin (length first.now) result }
{
    for (at, c) in first.iter().enumerate() {
        let d = other[at];
        if !same_cell(c, &d) {
            return Some(Place {
                at,
                first: *c,
                other: d,
            });
        }
    }
    None
}

fn same_cell(c: &Cell, d: &Cell) -> bool
    ensures { result ≡ same_cell c.now d.now }
{
    c.re == d.re && c.im == d.im && c.count == d.count
}

// The one at the lesser place; of two at one place the first.
fn earlier(first: Option<Place>, other: Option<Place>) -> Option<Place>
    ensures least { option_map as_difference result ≡ earlier (option_map as_difference first) (option_map as_difference other) }
    ensures within { (width : ℕ) → IsWithin width first → IsWithin width other → IsWithin width result }
{
    match (first, other) {
        (Some(d), Some(e)) if e.at < d.at => Some(e),
        (Some(d), _) => Some(d),
        (None, other) => other,
    }
}
