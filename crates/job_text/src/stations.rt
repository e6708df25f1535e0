//! The stations of a job.
ghost use Rattle.std.specs.Prelude.{◌≡◌, ◌≢◌, ◌<◌, ◌++◌, ◌∷◌, [], length, map, slice_get, None, IfSome, IfNone, IfOk, OnOk, AllPairs, Some, is_some, option_to_list, true};
ghost use Rattle.std.specs.{List.{All}, Result.{result_map_both}, Str.{IsUtf8}};
ghost use Rattle.named_list.specs.Named.{put};
ghost use Rattle.job_text.specs.{Ranges.{IsName, IsStationOf}, Values.{field, station_in}, Faults.{station_with, has_channel, station_fault, double_or_range, part_fault}};
ghost use Rattle.job_text.specs.{Growing.{Grows, changed, with_part}, Places.{with_name}};

use crate::fault::JobKind;
use crate::part::Part;
use crate::station::Station;
use job_lines::field;
use named_list::Named;
use std::alloc::{AllocError, Global};
use std::marker::Model;

/// The stations of a job, in the order of their lines. Each is found by its key.
#[derive(Drop)]
pub struct Stations {
    list: Vec<Station>,
    places: Named<usize>,
    channels: Named<()>,
}

impl Model for Stations {
    ghost use Rattle.std.specs.Prelude.{List};
    ghost use Rattle.job_text.specs.{Job.{StationFields}, Places.{AreIndexed}};

    ghost Value = { List StationFields };

    ghost view = { λ stations. stations.list.items };

    ghost invariant = { λ stations. AreIndexed stations.list.items stations.places stations.channels };
}

// Puts the name of a line that states a channel among those of the channels.
fn put_name(
    alloc: Global,
    channels: &mut Named<()>,
    part: Part,
    name: &[u8],
) -> Result<(), AllocError>
    ensures { OnOk result (channels.new ≡ with_name part name.now tt channels.old) }
{
    if let Part::Chan = part {
        channels.put(alloc, name, ())?;
    }
    Ok(())
}

// Puts a station behind the others, and its place under its key.
fn put_station(
    alloc: Global,
    list: &mut Vec<Station>,
    places: &mut Named<usize>,
    station: Station,
) -> Result<(), AllocError>
    ensures list { OnOk result (list.new.items ≡ list.old.items ++ station ∷ []) }
    ensures places { OnOk result (places.new ≡ put places.old station.key (length list.old.items)) }
{
    let i = list.len();
    list.push(station)?;
    places.put(alloc, list[i].key.bytes(), i)?;
    Ok(())
}

impl Stations {
    /// No stations.
    pub(crate) fn new(alloc: Global) -> Self
        ensures { result ≡ [] }
    {
        Stations {
            list: Vec::new(alloc),
            places: Named::new(alloc),
            channels: Named::new(alloc),
        }
    }

    /// The stations. No two of them have one key.
    pub fn items(&self) -> &[Station]
        ensures items { result.now ≡ self.now }
        ensures once { AllPairs (λ x y. x ≢ y) (map (λ s. s.key) self.now) }
        ensures ranges { All IsStationOf self.now }
    {
        &self.list
    }

    /// The place of the station of a key, counted from 0.
    pub fn place(&self, key: &[u8]) -> Option<usize>
        ensures within { IfSome result (λ i. i < length self.now) }
        ensures there { IfSome result (λ i. slice_get self.now i ≡ station_with self.now key.now) }
        ensures none { IfNone result (station_with self.now key.now ≡ None) }
    {
        self.places.get(key).copied()
    }

    /// Whether some station has a channel of this name.
    pub fn has_channel(&self, name: &[u8]) -> bool
        ensures value { result ≡ has_channel self.now name.now }
        ensures name { result ≡ true → IsName name.now }
    {
        self.channels.has(name)
    }

    // Adds a station whose key is new, and which has no channels yet.
    fn add(self, alloc: Global, station: Station) -> Result<Self, AllocError>
        requires new { station_with self station.key ≡ None }
        requires bare { station.chans ≡ [] }
        requires sound { IsStationOf station }
        ensures { IfOk result (λ new. new ≡ self ++ station ∷ []) }
    {
        let Stations {
            mut list,
            mut places,
            channels,
        } = self;
        put_station(alloc, &mut list, &mut places, station)?;
        Ok(Stations {
            list,
            places,
            channels,
        })
    }

    // The station that a line states, where its key is new.
    fn new_station(&self, alloc: Global, fields: &[&[u8]]) -> Result<Station, JobKind>
        ensures stated { Grows (double_or_range (is_some (station_with self.now (field (map (λ field. field.now) fields.now) 0))) (station_in (map (λ field. field.now) fields.now)))
            (station_in (map (λ field. field.now) fields.now)) (result_map_both Some (λ kind. kind) result) }
        ensures new { IfOk result (λ station. station_with self.now station.key ≡ None) }
        ensures bare { IfOk result (λ station. station.chans ≡ []) }
        ensures sound { IfOk result IsStationOf }
    {
        if self.place(field(fields, 0)).is_some() {
            return Err(JobKind::Double);
        }
        let Some(station) = Station::stated(alloc, fields)? else {
            return Err(JobKind::Range);
        };
        Ok(station)
    }

    // Takes the line of a station.
    pub(crate) fn take_station(self, alloc: Global, fields: &[&[u8]]) -> Result<Self, JobKind>
        ensures { Grows (double_or_range (is_some (station_with self (field (map (λ field. field.now) fields.now) 0))) (station_in (map (λ field. field.now) fields.now)))
            (self ++ option_to_list (station_in (map (λ field. field.now) fields.now))) result }
    {
        let station = self.new_station(alloc, fields)?;
        Ok(self.add(alloc, station)?)
    }

    // Takes the line of a station's part.
    pub(crate) fn take_part(
        self,
        alloc: Global,
        part: Part,
        fields: &[&[u8]],
    ) -> Result<Self, JobKind>
        requires { IsUtf8 (field (map (λ field. field.now) fields.now) 1) }
        ensures { Grows (station_fault self (map (λ field. field.now) fields.now) (part_fault part (map (λ field. field.now) fields.now)))
            (changed self (field (map (λ field. field.now) fields.now) 0) (with_part part (map (λ field. field.now) fields.now))) result }
    {
        let Some(i) = self.place(field(fields, 0)) else {
            return Err(JobKind::Unknown);
        };
        let Stations {
            mut list,
            places,
            mut channels,
        } = self;
        list[i].take_part(alloc, part, fields)?;
        put_name(alloc, &mut channels, part, field(fields, 1))?;
        Ok(Stations {
            list,
            places,
            channels,
        })
    }
}
