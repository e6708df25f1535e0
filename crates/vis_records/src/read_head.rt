//! The head of a record file, read from the front.
#![tactic(auto, using(crate::proofs::PartLemmas::turns), unfolding(crate::specs::Parts::chain, crate::specs::Parts::checked))]

ghost use Rattle.std.specs.Prelude.{◌≡◌, ◌≤◌, ◌<◌, ◌^◌, map, IfOk, IfErr, option_map};
ghost use Rattle.vis_records.specs.{Parts.{Took, StopsBy, AreBytes, list_of}, Reading.{magic, lags, name, product, least_first, least_second, baseline, baselines, scan, head}};
ghost use Rattle.vis_records.specs.Heads.{product_of, baseline_of, scan_of};

use crate::fault::{Stop, VisKind};
use crate::head::{VisBaseline, VisHead, VisProduct, VisScan};
use crate::rest::Rest;
use item_list::ItemList;
use num_time::Name;
use std::alloc::Global;

// The head.
pub(crate) fn read_head(alloc: Global, rest: &mut Rest<'_>) -> Result<VisHead, Stop>
    requires { AreBytes rest.old }
    ensures took { IfOk result (λ h. head rest.old ≡ Took h rest.new) }
    ensures stops { IfErr result (StopsBy (head rest.old)) }
{
    read_magic(rest)?;
    let lags = read_lags(rest)?;
    let integration = rest.field(8, 1, 1 << 36, VisKind::Head)?;
    let rate = rest.field(8, 1, u32::MAX as u64, VisKind::Head)?;
    let count = rest.field(4, 1, 32, VisKind::Head)?;
    let stations = read_names(alloc, rest, count)?;
    let many = rest.field(4, 1, 256, VisKind::Head)?;
    let products = read_products(alloc, rest, many)?;
    let length = rest.field(4, 0, u32::MAX as u64, VisKind::Head)?;
    let scans = read_scans(alloc, rest, count, length)?;
    Ok(VisHead::new(
        lags as u32,
        integration,
        rate,
        ItemList::of(stations),
        ItemList::of(products),
        ItemList::of(scans),
    ))
}

// The mark of a record file.
fn read_magic<'a>(rest: &mut Rest<'a>) -> Result<&'a [u8], Stop>
    ensures took { IfOk result (λ bytes. magic rest.old ≡ Took bytes.now rest.new) }
    ensures stops { IfErr result (StopsBy (magic rest.old)) }
{
    let left = rest.len();
    let bytes = rest.piece(8)?;
    if bytes == b"VLBIVIS1".as_slice() {
        Ok(bytes)
    } else {
        Err(Stop {
            kind: VisKind::Magic,
            left,
        })
    }
}

// The number of lags.
fn read_lags(rest: &mut Rest<'_>) -> Result<u64, Stop>
    ensures took { IfOk result (λ n. lags rest.old ≡ Took n rest.new) }
    ensures few { IfOk result (λ n. n ≤ 1024) }
    ensures stops { IfErr result (StopsBy (lags rest.old)) }
{
    let left = rest.len();
    let lags = rest.field(4, 2, 1024, VisKind::Head)?;
    if lags % 2 == 0 {
        Ok(lags)
    } else {
        Err(Stop {
            kind: VisKind::Head,
            left,
        })
    }
}

// A name.
fn read_name(alloc: Global, rest: &mut Rest<'_>) -> Result<Name, Stop>
    ensures took { IfOk result (λ n. name rest.old ≡ Took n rest.new) }
    ensures stops { IfErr result (StopsBy (name rest.old)) }
{
    let len = rest.field(2, 1, 255, VisKind::Head)?;
    let bytes = rest.piece(len as usize)?;
    let name = Name::new(alloc, bytes)?;
    Ok(name)
}

// So many names.
fn read_names(alloc: Global, rest: &mut Rest<'_>, count: u64) -> Result<Vec<Name>, Stop>
    ensures took { IfOk result (λ names. list_of (λ _. name) count rest.old ≡ Took names.items rest.new) }
    ensures stops { IfErr result (StopsBy (list_of (λ _. name) count rest.old)) }
{
    let mut names = Vec::new(alloc);
    for i in 0..count {
        let one = read_name(alloc, rest)?;
        names.push(one)?;
    }
    Ok(names)
}

// A product.
fn read_product(alloc: Global, rest: &mut Rest<'_>) -> Result<VisProduct, Stop>
    ensures took { IfOk result (λ p. product rest.old ≡ Took (product_of p) rest.new) }
    ensures stops { IfErr result (StopsBy (product rest.old)) }
{
    let x = read_name(alloc, rest)?;
    let y = read_name(alloc, rest)?;
    Ok(VisProduct { x, y })
}

// So many products.
fn read_products(alloc: Global, rest: &mut Rest<'_>, count: u64) -> Result<Vec<VisProduct>, Stop>
    ensures took { IfOk result (λ ps. list_of (λ _. product) count rest.old ≡ Took (map product_of ps.items) rest.new) }
    ensures stops { IfErr result (StopsBy (list_of (λ _. product) count rest.old)) }
{
    let mut products = Vec::new(alloc);
    for i in 0..count {
        let one = read_product(alloc, rest)?;
        products.push(one)?;
    }
    Ok(products)
}

// So many scans, of so many stations.
fn read_scans(
    alloc: Global,
    rest: &mut Rest<'_>,
    stations: u64,
    count: u64,
) -> Result<Vec<VisScan>, Stop>
    requires some { 1 ≤ stations }
    requires few { stations ≤ 32 }
    ensures took { IfOk result (λ ss. list_of (λ _. scan stations) count rest.old ≡ Took (map scan_of ss.items) rest.new) }
    ensures stops { IfErr result (StopsBy (list_of (λ _. scan stations) count rest.old)) }
{
    let mut scans = Vec::new(alloc);
    for i in 0..count {
        let one = read_scan(alloc, rest, stations)?;
        scans.push(one)?;
    }
    Ok(scans)
}

// A scan.
fn read_scan(alloc: Global, rest: &mut Rest<'_>, stations: u64) -> Result<VisScan, Stop>
    requires some { 1 ≤ stations }
    requires few { stations ≤ 32 }
    ensures took { IfOk result (λ s. scan stations rest.old ≡ Took (scan_of s) rest.new) }
    ensures stops { IfErr result (StopsBy (scan stations rest.old)) }
{
    let name = read_name(alloc, rest)?;
    let second = rest.field(8, 0, u32::MAX as u64, VisKind::Head)?;
    let samples = rest.field(8, 0, 1 << 40, VisKind::Head)?;
    let count = rest.field(4, 1, 528, VisKind::Head)?;
    let baselines = read_baselines(alloc, rest, stations, count)?;
    Ok(VisScan {
        name,
        second,
        samples,
        baselines: ItemList::of(baselines),
    })
}

// So many baselines, of so many stations.
fn read_baselines(
    alloc: Global,
    rest: &mut Rest<'_>,
    stations: u64,
    count: u64,
) -> Result<Vec<VisBaseline>, Stop>
    requires some { 1 ≤ stations }
    requires few { stations ≤ 32 }
    ensures took { IfOk result (λ bs. baselines stations count rest.old ≡ Took (map baseline_of bs.items) rest.new) }
    ensures stops { IfErr result (StopsBy (baselines stations count rest.old)) }
{
    let mut baselines = Vec::new(alloc);
    for i in 0..count {
        let before = baselines.last().copied();
        let one = read_baseline(rest, stations, before)?;
        baselines.push(one)?;
    }
    Ok(baselines)
}

// A baseline behind the one before it, of so many stations.
fn read_baseline(
    rest: &mut Rest<'_>,
    stations: u64,
    before: Option<VisBaseline>,
) -> Result<VisBaseline, Stop>
    requires some { 1 ≤ stations }
    requires few { stations ≤ 32 }
    ensures took { IfOk result (λ b. baseline stations (option_map baseline_of before) rest.old ≡ Took (baseline_of b) rest.new) }
    ensures stops { IfErr result (StopsBy (baseline stations (option_map baseline_of before) rest.old)) }
{
    let a = rest.field(4, least_first(before), stations - 1, VisKind::Head)?;
    let b = rest.field(4, least_second(before, a), stations - 1, VisKind::Head)?;
    Ok(VisBaseline {
        a: a as u32,
        b: b as u32,
    })
}

// The least first station behind a baseline.
fn least_first(before: Option<VisBaseline>) -> u64
    ensures { result ≡ least_first (option_map baseline_of before) }
{
    match before {
        None => 0,
        Some(before) => before.a as u64,
    }
}

// The least second station of a baseline behind another, by its first station.
fn least_second(before: Option<VisBaseline>, a: u64) -> u64
    ensures { result ≡ least_second (option_map baseline_of before) a }
{
    match before {
        None => a,
        Some(before) => {
            if before.a as u64 == a {
                before.b as u64 + 1
            } else {
                a
            }
        }
    }
}
