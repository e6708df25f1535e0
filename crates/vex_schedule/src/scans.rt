//! The scans of a file.
ghost use Rattle.std.specs.Prelude.{◌≡◌, All, map, length, codes, IfOk, IfSome};
ghost use Rattle.num_time.specs.Times.{IsSecond};
ghost use Rattle.named_list.specs.Named.{named, names};
ghost use Rattle.vex_schedule.specs.{Answers.{Gives}, Covering.{IsCovering, AreCoverings}, Schedule.{start_of, pass_of, passes_of, scan_of, scans_of, schedule_of}, Setups.{AreSetups}, Sound.{IsStay}};
ghost use Rattle.scan_list.specs.Sound.{IsPass, IsScan, AreScans};

use crate::covering::{Covering, coverings_of};
use crate::fault::{SchedFault, SchedKind};
use crate::part::Setup;
use crate::setup::{mode_of, setup_of, setups_of};
use crate::statements::only_with;
use crate::stay::{Stay, stays_of};
use crate::values::{is_name, start_in};
use item_list::ItemList;
use named_list::Named;
use num_time::Name;
use scan_list::{Pass, Scan, ScanList};
use std::alloc::Global;
use vex_reader::{Item, VexFile};

// The second at which a scan starts.
#[tactic(auto, unfolding(crate::specs::Schedule::start_of))]
fn start_of(scan: &Item) -> Result<i64, SchedFault>
    ensures value { result ≡ start_of scan.now }
    ensures years { IfOk result IsSecond }
{
    let statement = only_with(scan.statements.items(), b"start", scan.at)?;
    let bad = SchedFault::new(SchedKind::BadValue, statement.at);
    start_in(statement.values.items()).ok_or(bad)
}

// The part that a station takes in a scan of a mode.
#[tactic(auto, unfolding(crate::specs::Schedule::pass_of))]
fn pass_of(
    alloc: Global,
    file: &VexFile,
    setups: &[Result<Setup, SchedFault>],
    mode: &Item,
    covering: &Covering,
    stay: &Stay,
) -> Result<Pass, SchedFault>
    requires stay { IsStay stay.now }
    requires setups { AreSetups file.now setups.now }
    requires covering { IsCovering mode.now.statements (length mode.now.statements) covering.now }
    ensures value { Gives (λ pass. pass) result (pass_of file.now mode.now stay.now) }
    ensures sound { IfOk result IsPass }
    ensures key { IfOk result (λ pass. pass.key ≡ stay.now.key) }
{
    let setup = setup_of(file, setups, mode, covering, stay.key.bytes())?;
    let chans = setup.chans.share()?;
    let key = Name::new(alloc, stay.key.bytes())?;
    Ok(Pass {
        key,
        from_us: stay.from_us,
        to_us: stay.to_us,
        samples: None,
        rate: setup.rate,
        chans,
    })
}

// The parts that some stations take in a scan of a mode.
#[tactic(auto, unfolding(crate::specs::Schedule::passes_of))]
fn passes_of(
    alloc: Global,
    file: &VexFile,
    setups: &[Result<Setup, SchedFault>],
    mode: &Item,
    covering: &Covering,
    stays: &[Stay],
) -> Result<ItemList<Pass>, SchedFault>
    requires stays { All IsStay stays.now }
    requires setups { AreSetups file.now setups.now }
    requires covering { IsCovering mode.now.statements (length mode.now.statements) covering.now }
    ensures value { Gives (λ passes. passes) result (passes_of file.now mode.now stays.now) }
    ensures sound { IfOk result (All IsPass) }
    ensures keys { IfOk result (λ passes. map (λ pass. pass.key) passes ≡ map (λ stay. stay.key) stays.now) }
{
    let mut passes = Vec::new(alloc);
    for stay in stays {
        let pass = pass_of(alloc, file, setups, mode, covering, stay)?;
        passes.push(pass)?;
    }
    Ok(ItemList::of(passes))
}

// A scan by its name and its statements.
#[tactic(auto, unfolding(crate::specs::Schedule::scan_of))]
fn scan_of(
    alloc: Global,
    file: &VexFile,
    setups: &[Result<Setup, SchedFault>],
    coverings: &[Covering],
    name: &[u8],
    scan: &Item,
) -> Result<Scan, SchedFault>
    requires setups { AreSetups file.now setups.now }
    requires coverings { AreCoverings file.now coverings.now }
    ensures value { Gives (λ scan. scan) result (scan_of file.now name.now scan.now) }
    ensures sound { IfOk result IsScan }
    ensures name { IfOk result (λ scan. scan.name ≡ name.now) }
{
    if !is_name(name) {
        return Err(SchedFault::new(SchedKind::BadValue, scan.at));
    }
    let second = start_of(scan)?;
    let (mode, covering) = mode_of(file, coverings, scan)?;
    let stays = stays_of(alloc, scan)?;
    let passes = passes_of(alloc, file, setups, mode, covering, &stays)?;
    let name = Name::new(alloc, name)?;
    Ok(Scan {
        name,
        second,
        passes,
    })
}

// The scans of a block.
#[tactic(auto, unfolding(crate::specs::Schedule::scans_of))]
fn scans_of(
    alloc: Global,
    file: &VexFile,
    setups: &[Result<Setup, SchedFault>],
    coverings: &[Covering],
    items: &Named<Item>,
) -> Result<ItemList<Scan>, SchedFault>
    requires setups { AreSetups file.now setups.now }
    requires coverings { AreCoverings file.now coverings.now }
    ensures value { Gives (λ scans. scans) result (scans_of file.now items.now) }
    ensures sound { IfOk result AreScans }
    ensures names { IfOk result (λ scans. map (λ scan. scan.name) scans ≡ names items.now) }
{
    let mut scans = Vec::new(alloc);
    for i in 0..items.len() {
        let (name, item) = items.at(i);
        let scan = scan_of(alloc, file, setups, coverings, name, item)?;
        scans.push(scan)?;
    }
    Ok(ItemList::of(scans))
}

/// The scans of a file in its order, or the first fault.
#[tactic(auto, unfolding(crate::specs::Schedule::schedule_of))]
pub fn schedule(alloc: Global, file: &VexFile) -> Result<ScanList, SchedFault>
    ensures value { Gives (λ list. list.scans) result (schedule_of file.now) }
    // The scans are those of `$SCHED`: as many, under their names, in their order.
    ensures names { IfOk result (λ list. IfSome (named file.now.blocks (codes "$SCHED"))
        (λ block. map (λ scan. scan.name) list.scans ≡ names block.scans)) }
    ensures count { IfOk result (λ list. IfSome (named file.now.blocks (codes "$SCHED"))
        (λ block. length list.scans ≡ length block.scans)) }
{
    let Some(block) = file.blocks.get(b"$SCHED") else {
        return Err(SchedFault::new(SchedKind::NoSched, 0));
    };
    let setups = setups_of(alloc, file)?;
    let coverings = coverings_of(alloc, file)?;
    let scans = scans_of(alloc, file, &setups, &coverings, &block.scans)?;
    Ok(ScanList { scans })
}
