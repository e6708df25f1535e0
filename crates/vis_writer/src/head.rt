//! The head of a plan's record file.
ghost use Rattle.std.specs.Prelude.{◌≡◌, ◌<◌, ◌^◌, map, length, IfOk};
ghost use Rattle.std.specs.List.{All};
ghost use Rattle.job_plan.specs.Output.{head_of, head_scan, product_names};
ghost use Rattle.vis_records.specs.Heads.{product_of, scan_of, baseline_of};
ghost use Rattle.vis_writer.specs.PlanCells.{key_of, is_below, pair_of};

use item_list::ItemList;
use job_plan::{BaselinePlan, Plan0, ProductPlan, ScanPlan, StationPlan};
use num_time::Name;
use std::alloc::{AllocError, Global};
use vis_records::{VisBaseline, VisHead, VisProduct, VisScan};

/// The head of a plan's record file. The plan has fewer than 2^32 scans.
pub fn head_of_plan(alloc: Global, plan: &Plan0) -> Result<VisHead, AllocError>
    requires { length plan.now.scans < 2 ^ 32 }
    ensures { IfOk result (λ head. head ≡ head_of plan.now) }
{
    let parts = plan.plan();
    let stations = keys_of(alloc, parts.stations.items())?;
    let products = products_of(alloc, parts.channels.items(), parts.products.items())?;
    let scans = scans_of(alloc, parts.scans.items())?;
    let rate = u64::from(parts.rate);
    Ok(VisHead::new(
        parts.lags,
        parts.integration,
        rate,
        stations,
        products,
        scans,
    ))
}

// The stations' keys.
fn keys_of(alloc: Global, stations: &[StationPlan]) -> Result<ItemList<Name>, AllocError>
    ensures { IfOk result (λ keys. keys ≡ map key_of stations.now) }
{
    let mut keys = Vec::new(alloc);
    for station in stations {
        keys.push(name_of(alloc, &station.key)?)?;
    }
    Ok(ItemList::of(keys))
}

// The products, by their channels' names.
fn products_of(
    alloc: Global,
    channels: &[Name],
    products: &[ProductPlan],
) -> Result<ItemList<VisProduct>, AllocError>
    requires { All (is_below (length channels.now)) products.now }
    ensures { IfOk result (λ made. map product_of made ≡ map (product_names channels.now) products.now) }
{
    let mut made = Vec::new(alloc);
    for product in products {
        made.push(product_by(
            alloc,
            &channels[product.x as usize],
            &channels[product.y as usize],
        )?)?;
    }
    Ok(ItemList::of(made))
}

// A product of two names.
fn product_by(alloc: Global, x: &Name, y: &Name) -> Result<VisProduct, AllocError>
    ensures { IfOk result (λ made. product_of made ≡ (x.now, y.now)) }
{
    Ok(VisProduct {
        x: name_of(alloc, x)?,
        y: name_of(alloc, y)?,
    })
}

// The scans.
fn scans_of(alloc: Global, scans: &[ScanPlan]) -> Result<ItemList<VisScan>, AllocError>
    ensures { IfOk result (λ made. map scan_of made ≡ map head_scan scans.now) }
{
    let mut made = Vec::new(alloc);
    for scan in scans {
        made.push(scan_by(alloc, scan)?)?;
    }
    Ok(ItemList::of(made))
}

// A scan.
fn scan_by(alloc: Global, scan: &ScanPlan) -> Result<VisScan, AllocError>
    ensures { IfOk result (λ made. scan_of made ≡ head_scan scan.now) }
{
    Ok(VisScan {
        name: name_of(alloc, &scan.name)?,
        second: u64::from(scan.second),
        samples: scan.samples,
        baselines: baselines_of(alloc, scan.baselines.items())?,
    })
}

// The baselines of a scan.
fn baselines_of(
    alloc: Global,
    baselines: &[BaselinePlan],
) -> Result<ItemList<VisBaseline>, AllocError>
    ensures { IfOk result (λ made. map baseline_of made ≡ map pair_of baselines.now) }
{
    let mut made = Vec::new(alloc);
    for baseline in baselines {
        made.push(VisBaseline {
            a: baseline.a,
            b: baseline.b,
        })?;
    }
    Ok(ItemList::of(made))
}

// The same name.
fn name_of(alloc: Global, name: &Name) -> Result<Name, AllocError>
    ensures { IfOk result (λ made. made ≡ name.now) }
{
    Name::new(alloc, name.bytes())
}
