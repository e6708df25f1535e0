//! The stations of a job in the scans of a schedule.
ghost use Rattle.std.specs.Prelude.{◌≡◌, ◌++◌, ℕ, List, None, Some, option_to_list, bytes_eq, option_map, filter_map, if◌then◌else◌, IfOk, OnOk};
ghost use Rattle.std.specs.{List.{position}, Option.{option_or}};
ghost use Rattle.named_list.specs.Named.{named};
ghost use Rattle.scan_list.specs.Sound.{IsScan};
ghost use Rattle.job_text.specs.Job.{StationFields};
ghost use Rattle.job_join.specs.{Standing.{stands_in}, Places.{stand_of, stands_of, found_at}};

use crate::parts::stations;
use job_text::{Job, Station};
use named_list::Named;
use scan_list::{Pass, Scan};
use std::alloc::{AllocError, Global};

/// A station of the job in a scan: its number in the job, and its part.
#[derive(Drop)]
pub(crate) struct Here<'a> {
    pub number: usize,
    pub station: &'a Station,
    pub pass: &'a Pass,
}

/// Puts a number under a key that has none.
pub(crate) fn number(
    alloc: Global,
    numbers: &mut Named<usize>,
    key: &[u8],
    i: usize,
) -> Result<(), AllocError>
    ensures { OnOk result ((q : List ℕ) → named numbers.new q ≡ option_or (named numbers.old q) (if bytes_eq key.now q then Some i else None)) }
{
    if numbers.has(key) {
        return Ok(());
    }
    numbers.put(alloc, key, i)?;
    Ok(())
}

/// The numbers of some stations, by their keys.
pub(crate) fn station_numbers(
    alloc: Global,
    stations: &[Station],
) -> Result<Named<usize>, AllocError>
    ensures { IfOk result (λ m. (q : List ℕ) → named m q ≡ position (λ (s : StationFields). bytes_eq s.key q) stations.now) }
{
    let mut numbers = Named::new(alloc);
    for (i, station) in stations.iter().enumerate() {
        number(alloc, &mut numbers, station.key.bytes(), i)?;
    }
    Ok(numbers)
}

// The station that has a part.
fn here_of<'a>(numbers: &Named<usize>, stations: &'a [Station], pass: &'a Pass) -> Option<Here<'a>>
    requires { (q : List ℕ) → named numbers.now q ≡ position (λ (s : StationFields). bytes_eq s.key q) stations.now }
    ensures { option_map stand_of result ≡ found_at stations.now pass.now }
{
    let number = *numbers.get(pass.key.bytes())?;
    Some(Here {
        number,
        station: &stations[number],
        pass,
    })
}

// Adds a station, if there is one.
fn add<'a>(found: &mut Vec<Here<'a>>, here: Option<Here<'a>>) -> Result<(), AllocError>
    ensures { OnOk result (stands_of found.new.items ≡ stands_of found.old.items ++ option_to_list (option_map stand_of here.entry)) }
{
    if let Some(here) = here {
        found.push(here)?;
    }
    Ok(())
}

// The stations that have the parts of a scan, in the order of the parts.
fn found_in<'a>(
    alloc: Global,
    numbers: &Named<usize>,
    stations: &'a [Station],
    passes: &'a [Pass],
) -> Result<Vec<Here<'a>>, AllocError>
    requires { (q : List ℕ) → named numbers.now q ≡ position (λ (s : StationFields). bytes_eq s.key q) stations.now }
    ensures { IfOk result (λ found. stands_of found.items ≡ filter_map (found_at stations.now) passes.now) }
{
    let mut found = Vec::new(alloc);
    for pass in passes {
        add(&mut found, here_of(numbers, stations, pass))?;
    }
    Ok(found)
}

/// The stations of a job in a scan, in the job's order.
pub(crate) fn stands_in<'a>(
    alloc: Global,
    numbers: &Named<usize>,
    job: &'a Job,
    scan: &'a Scan,
) -> Result<Vec<Here<'a>>, AllocError>
    requires numbers { (q : List ℕ) → named numbers.now q ≡ position (λ (s : StationFields). bytes_eq s.key q) job.now.stations }
    requires scan { IsScan scan.now }
    ensures { IfOk result (λ stands. stands_of stands.items ≡ stands_in job.now scan.now) }
{
    let mut stands = found_in(alloc, numbers, stations(job), scan.passes.items())?;
    stands.sort_by_key(|here| here.number)?;
    Ok(stands)
}
