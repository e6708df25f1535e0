//! Modes and setups: which def of `$FREQ` a station has, its sample rate and its channels.
ghost use Rattle.std.specs.Prelude.{◌≡◌, ◌≢◌, ◌<◌, List, None, All, AllPairs, map, option_copied, option_map, length, slice_get, IfOk, IfErr, IfSome, IfNone};
ghost use Rattle.named_list.specs.Named.{named, names};
ghost use Rattle.scan_list.specs.{declared.scan.Chan.{Chan}, Sound.{IsChan}};
ghost use Rattle.read_steps.specs.Steps.{seen};
ghost use Rattle.vex_schedule.specs.{Answers.{out_of_memory, Gives}, Schedule.{defs_in, def_of, mode_of, setup_of, setup_rate, chan_of, chans_of, setup_in}, Covering.{IsCovering, AreCoverings}};
ghost use Rattle.vex_schedule.specs.Setups.{part_of, AreSetups};

use crate::covering::Covering;
use crate::fault::{SchedFault, SchedKind};
use crate::part::Setup;
use crate::statements::{first_with, only_with};
use crate::values::{chan_in, only_word, rate_in, word_at};
use named_list::Named;
use scan_list::{Chan, ChanList};
use std::alloc::Global;
use vex_reader::{Item, Statement, VexFile};

// The def of a name in a block.
#[tactic(auto, unfolding(crate::specs::Schedule::def_of))]
fn def_of<'a>(file: &'a VexFile, block: &[u8], name: &[u8]) -> Option<&'a Item>
    ensures { option_copied result ≡ def_of file.now block.now name.now }
{
    file.blocks.get(block)?.defs.get(name)
}

// The place of the def of a name among those of a block.
#[tactic(auto, unfolding(crate::specs::Schedule::def_of))]
fn def_place(file: &VexFile, block: &[u8], name: &[u8]) -> Option<usize>
    ensures within { IfSome result (λ i. i < length (defs_in file.now block.now)) }
    ensures there { IfSome result (λ i. option_map (λ x. x.1) (slice_get (defs_in file.now block.now) i) ≡ def_of file.now block.now name.now) }
    ensures none { IfNone result (def_of file.now block.now name.now ≡ None) }
{
    file.blocks.get(block)?.defs.place(name)
}

/// The mode of a scan, and what its refs cover.
#[tactic(auto, unfolding(crate::specs::Schedule::mode_of))]
pub(crate) fn mode_of<'a>(
    file: &'a VexFile,
    coverings: &'a [Covering],
    scan: &Item,
) -> Result<(&'a Item, &'a Covering), SchedFault>
    requires { AreCoverings file.now coverings.now }
    ensures value { seen (λ mode. mode.0.now) result ≡ mode_of file.now scan.now }
    ensures covering { IfOk result (λ mode. IsCovering mode.0.now.statements (length mode.0.now.statements) mode.1.now) }
{
    let statement = only_with(scan.statements.items(), b"mode", scan.at)?;
    let bad = SchedFault::new(SchedKind::BadValue, statement.at);
    let name = only_word(statement.values.items()).ok_or(bad)?;
    let unknown = SchedFault::new(SchedKind::UnknownRef, statement.at);
    let place = def_place(file, b"$MODE", name).ok_or(unknown)?;
    let mode = def_of(file, b"$MODE", name).ok_or(unknown)?;
    Ok((mode, &coverings[place]))
}

/// The sample rate of a setup.
#[tactic(auto, unfolding(crate::specs::Schedule::setup_rate))]
pub(crate) fn setup_rate(setup: &Item) -> Result<u32, SchedFault>
    ensures value { result ≡ setup_rate setup.now }
    ensures some { IfOk result (λ rate. 0 < rate) }
{
    let statement = only_with(setup.statements.items(), b"sample_rate", setup.at)?;
    let bad = SchedFault::new(SchedKind::BadValue, statement.at);
    rate_in(statement.values.items()).ok_or(bad)
}

// A channel, behind those that were defined before, whose names are these.
#[tactic(auto, unfolding(crate::specs::Schedule::chan_of))]
fn chan_of(alloc: Global, ids: &Named<()>, statement: &Statement) -> Result<Chan, SchedFault>
    ensures value { (before : List Chan) → names ids.now ≡ map (λ chan. chan.id) before
        → Gives (λ chan. chan) result (chan_of before statement.now) }
    ensures sound { IfOk result IsChan }
    ensures new { IfOk result (λ chan. named ids.now chan.id ≡ None) }
{
    let Some(chan) = chan_in(alloc, statement.values.items())? else {
        return Err(SchedFault::new(SchedKind::BadValue, statement.at));
    };
    if ids.has(chan.id.bytes()) {
        return Err(SchedFault::new(SchedKind::DoubleStatement, statement.at));
    }
    Ok(chan)
}

/// The channels of a setup.
#[tactic(auto, unfolding(crate::specs::Schedule::chans_of))]
pub(crate) fn chans_of(alloc: Global, setup: &Item) -> Result<ChanList, SchedFault>
    ensures value { Gives (λ chans. chans) result (chans_of setup.now) }
    ensures sound { IfOk result (All IsChan) }
    ensures distinct { IfOk result (λ chans. AllPairs (λ x y. x ≢ y) (map (λ chan. chan.id) chans)) }
{
    let mut chans = Vec::new(alloc);
    let mut ids = Named::new(alloc);
    let mut rest = setup.statements.items();
    while let Some((statement, behind)) = first_with(rest, b"chan_def") {
        let chan = chan_of(alloc, &ids, statement)?;
        ids.put(alloc, chan.id.bytes(), ())?;
        chans.push(chan)?;
        rest = behind;
    }
    Ok(ChanList::of(alloc, chans)?)
}

// What a def of `$FREQ` gives a station.
#[tactic(auto, unfolding(crate::specs::Schedule::setup_in))]
fn setup_in(alloc: Global, def: &Item) -> Result<Setup, SchedFault>
    ensures { Gives part_of result (setup_in def.now) }
{
    let rate = setup_rate(def)?;
    let chans = chans_of(alloc, def)?;
    Ok(Setup { rate, chans })
}

// What a def of `$FREQ` gives a station, or its fault; want of memory is an answer by itself.
fn settled(alloc: Global, def: &Item) -> Result<Result<Setup, SchedFault>, SchedFault>
    ensures settled { IfOk result (λ answer. seen part_of answer ≡ setup_in def.now) }
    ensures memory { IfErr result (λ fault. fault ≡ out_of_memory) }
{
    match setup_in(alloc, def) {
        Err(fault) if fault.kind == SchedKind::Memory => Err(SchedFault::new(SchedKind::Memory, 0)),
        answer => Ok(answer),
    }
}

/// What the defs of `$FREQ` give stations, each read once, in the block's order.
pub(crate) fn setups_of(
    alloc: Global,
    file: &VexFile,
) -> Result<Vec<Result<Setup, SchedFault>>, SchedFault>
    ensures settled { IfOk result (λ setups. AreSetups file.now setups.items) }
    ensures memory { IfErr result (λ fault. fault ≡ out_of_memory) }
{
    let mut setups = Vec::new(alloc);
    let Some(block) = file.blocks.get(b"$FREQ") else {
        return Ok(setups);
    };
    for i in 0..block.defs.len() {
        let (_, def) = block.defs.at(i);
        setups.push(settled(alloc, def)?)?;
    }
    Ok(setups)
}

// What a def gives, or its fault.
fn kept(answer: &Result<Setup, SchedFault>) -> Result<&Setup, SchedFault>
    ensures { seen (λ setup. part_of setup.now) result ≡ seen part_of answer.now }
{
    match answer {
        Ok(setup) => Ok(setup),
        Err(fault) => Err(*fault),
    }
}

/// What a mode gives a station.
#[tactic(auto, unfolding(crate::specs::Schedule::setup_of, crate::specs::Schedule::setup_at))]
pub(crate) fn setup_of<'a>(
    file: &VexFile,
    setups: &'a [Result<Setup, SchedFault>],
    mode: &Item,
    covering: &Covering,
    key: &[u8],
) -> Result<&'a Setup, SchedFault>
    requires setups { AreSetups file.now setups.now }
    requires covering { IsCovering mode.now.statements (length mode.now.statements) covering.now }
    ensures { seen (λ setup. part_of setup.now) result ≡ setup_of file.now mode.now key.now }
{
    let statement = covering.only_setup(mode, key)?;
    let bad = SchedFault::new(SchedKind::BadValue, statement.at);
    let name = word_at(statement.values.items(), 0).ok_or(bad)?;
    let unknown = SchedFault::new(SchedKind::UnknownRef, statement.at);
    let place = def_place(file, b"$FREQ", name).ok_or(unknown)?;
    kept(&setups[place])
}
