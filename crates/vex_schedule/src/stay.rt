//! The stations of a scan.
ghost use Rattle.std.specs.Prelude.{◌≡◌, ◌≢◌, List, None, All, AllPairs, map, IfOk};
ghost use Rattle.named_list.specs.Named.{named, names};
ghost use Rattle.vex_schedule.specs.{declared.stay.Stay.{Stay}, Answers.{Gives}, Schedule.{is_in_order, stay_of, stays_of}, Sound.{IsStay}};

use crate::fault::{SchedFault, SchedKind};
use crate::statements::first_with;
use crate::values::stay_in;
use named_list::Named;
use num_time::Name;
use std::alloc::Global;
use vex_reader::{Item, Statement};

/// A station, when it starts and when it stops, in microseconds from the scan's start on.
#[derive(Drop)]
pub(crate) struct Stay {
    pub key: Name,
    pub from_us: i64,
    pub to_us: i64,
}

// Whether a station starts at the scan's start or later, and does not stop before.
fn is_in_order(stay: &Stay) -> bool
    ensures { result ≡ is_in_order stay.now }
{
    0 <= stay.from_us && stay.from_us <= stay.to_us
}

// A station, behind those that were named before, whose keys are these.
#[tactic(auto, unfolding(crate::specs::Schedule::stay_of))]
fn stay_of(alloc: Global, keys: &Named<()>, statement: &Statement) -> Result<Stay, SchedFault>
    ensures value { (before : List Stay) → names keys.now ≡ map (λ stay. stay.key) before
        → Gives (λ stay. stay) result (stay_of before statement.now) }
    ensures sound { IfOk result IsStay }
    ensures new { IfOk result (λ stay. named keys.now stay.key ≡ None) }
{
    let Some(stay) = stay_in(alloc, statement.values.items())? else {
        return Err(SchedFault::new(SchedKind::BadValue, statement.at));
    };
    if keys.has(stay.key.bytes()) {
        return Err(SchedFault::new(SchedKind::StationTwice, statement.at));
    }
    if !is_in_order(&stay) {
        return Err(SchedFault::new(SchedKind::BadRange, statement.at));
    }
    Ok(stay)
}

/// The stations of a scan.
#[tactic(auto, unfolding(crate::specs::Schedule::stays_of))]
pub(crate) fn stays_of(alloc: Global, scan: &Item) -> Result<Vec<Stay>, SchedFault>
    ensures value { Gives (λ stays. stays.items) result (stays_of scan.now) }
    ensures sound { IfOk result (λ stays. All IsStay stays.items) }
    ensures distinct { IfOk result (λ stays. AllPairs (λ x y. x ≢ y) (map (λ stay. stay.key) stays.items)) }
{
    let mut stays = Vec::new(alloc);
    let mut keys = Named::new(alloc);
    let mut rest = scan.statements.items();
    while let Some((statement, behind)) = first_with(rest, b"station") {
        let stay = stay_of(alloc, &keys, statement)?;
        keys.put(alloc, stay.key.bytes(), ())?;
        stays.push(stay)?;
        rest = behind;
    }
    Ok(stays)
}
