//! A job and a schedule, joined.
ghost use Rattle.std.specs.Prelude.{◌≡◌, ◌<◌, ◌≤◌, ◌^◌, ℕ, None, map, length, IfOk, IfSome, unwrap_or};
ghost use Rattle.named_list.specs.Named.{names};
ghost use Rattle.scan_list.specs.Sound.{AreScans};
ghost use Rattle.job_join.specs.{Joined.{refusal_of, plan_of, product_plan, joined, Gives}, Joining.{scans_of, IsJoining}};

use crate::fault::JoinFault;
use crate::joining::Joining;
use crate::lists::{product_plans, station_plans};
use crate::parts::{epoch, in_force, integration, knot, lags};
use crate::plans::{channel_names, channel_numbers};
use crate::refusal::go_together;
use crate::scans::scan_plans;
use item_list::ItemList;
use job_plan::{Plan, Plan0, ProductPlan};
use job_text::Job;
use scan_list::ScanList;
use std::alloc::{AllocError, Global};

// The samples in a second.
fn rate_in(j: &Joining) -> u32
    ensures { result ≡ j.now.rate }
{
    j.rate
}

// The products of the plan.
fn products_in(alloc: Global, j: &Joining) -> Result<Vec<ProductPlan>, AllocError>
    requires { length (names j.now.channels) < 2 ^ 32 }
    ensures { IfOk result (λ all. all.items ≡ map (product_plan (names j.now.channels)) j.now.job.now.products) }
{
    let numbers = channel_numbers(alloc, &j.channels)?;
    product_plans(alloc, j, &numbers)
}

// The plan of a job and the scans of a schedule that go together.
fn plan_of(alloc: Global, j: &Joining) -> Result<Plan0, AllocError>
    requires joining { IsJoining j.now }
    requires scans { AreScans (scans_of j.now) }
    requires accepted { (epoch : ℕ) × (refusal_of j.now.job.now epoch (scans_of j.now) ≡ None) }
    ensures { IfOk result (λ plan. plan ≡ plan_of j.now.job.now (scans_of j.now)) }
{
    let stations = station_plans(alloc, j)?;
    let channels = channel_names(alloc, &j.channels)?;
    let products = products_in(alloc, j)?;
    let scans = scan_plans(alloc, j)?;
    let plan = Plan {
        lags: lags(j.job),
        integration: integration(j.job),
        epoch: u64::from(epoch(j.job)),
        rate: rate_in(j),
        knot: knot(j.job),
        stations: ItemList::of(stations),
        channels: ItemList::of(channels),
        products: ItemList::of(products),
        scans: ItemList::of(scans),
    };
    Ok(Plan0::new(plan))
}

/// The plan of a job and a schedule. Where they do not go together, the first of these causes: a take that names no
/// scan (its place among the takes); a station in no scan that is taken (its place in the job); a scan in which a
/// station's sample rate, a channel's band at two stations, or the bands of a product's two channels differ (its place
/// in the schedule); a station whose frames do not go into a second, that has no delay model, or no clock, at some
/// sample of a scan (its place in the job); a quantity past its greatest (with its value). The samples of an epoch, of which
/// two quantities are made, are `epoch`, 1 to 4,194,304, where there is such, and else those of the job's own line, which are
/// the plan's in any case. `Memory` comes where memory runs out, whatever else holds. Stations, takes and scans are counted
/// from 0.
pub fn join_job(
    alloc: Global,
    job: &Job,
    schedule: &ScanList,
    epoch: Option<u64>,
) -> Result<Plan0, JoinFault>
    requires { IfSome epoch (λ e. (1 ≤ e) × (e ≤ 4194304)) }
    ensures { Gives result (joined job.now (unwrap_or epoch job.now.epoch) schedule.now.scans) }
{
    let j = Joining::new(alloc, job, schedule.scans.items())?;
    go_together(&j, in_force(epoch, job))?;
    Ok(plan_of(alloc, &j)?)
}
