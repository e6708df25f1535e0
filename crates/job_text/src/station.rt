//! A station of a job.
ghost use Rattle.std.specs.Prelude.{◌≡◌, ◌^◌, ◌≤◌, ◌++◌, ◌∷◌, [], OnOk, IfOk, IfSome, None, Some, false, map};
ghost use Rattle.job_text.specs.{Values.{field, station_in}, Faults.{is_taken, chan_fault, clock_fault, poly_fault, part_fault}};
ghost use Rattle.job_text.specs.{Growing.{Takes, with_file, with_chan, with_clock, with_poly, with_part}, Ranges.{IsStationOf, IsChanOf}};
ghost use Rattle.named_list.specs.Named.{named};
ghost use Rattle.num_time.specs.Times.{IsSecond};
ghost use Rattle.std.specs.Str.{IsUtf8};
ghost use Rattle.corr_model.specs.Delay.{IsClock};

use crate::entries::{add_entry, is_taken};
use crate::fault::JobKind;
use crate::frame::frame_in;
use crate::part::Part;
use crate::places::ChanPlace;
use crate::values::{chan_in, clock_in, poly_in};
use delay_poly::{PolyEntry, PolyList};
use job_lines::{field, second_of};
use named_list::Named;
use num_time::Name;
use station_clock::{ClockEntry, ClockList};
use std::alloc::{AllocError, Global};
use std::marker::Model;

/// A station: its key, and what all its frames have alike. `bits` is the number of bits in a sample,
/// the number of channels two to the power `chans_log2`, `frame_bytes` a frame's length with its header.
/// The files, the channels by their names, the clock and the polynomials are in the order of the lines.
#[derive(Drop)]
pub struct Station {
    pub key: Name,
    pub id: u16,
    pub bits: u8,
    pub chans_log2: u8,
    pub frame_bytes: u32,
    pub legacy: bool,
    pub files: Vec<Name>,
    pub chans: Named<ChanPlace>,
    pub clocks: ClockList,
    pub polys: PolyList,
}

impl Model for Station {
    ghost use Rattle.job_text.specs.{Job.{StationFields}, Ranges.{IsStationOf}, Shown.{station_shown}};

    ghost Value = { StationFields };

    ghost view = { station_shown };

    ghost invariant = { λ s. IsStationOf (station_shown s) };
}

impl Station {
    // The station that a line states, without what other lines say of it.
    pub(crate) fn stated(alloc: Global, fields: &[&[u8]]) -> Result<Option<Self>, AllocError>
        ensures value { IfOk result (λ station. station ≡ station_in (map (λ field. field.now) fields.now)) }
        ensures sound { IfOk result (λ station. IfSome station (λ s. IsStationOf s)) }
        ensures bare { IfOk result (λ station. IfSome station (λ s. s.chans ≡ [])) }
        ensures key { IfOk result (λ station. IfSome station (λ s. s.key ≡ field (map (λ field. field.now) fields.now) 0)) }
    {
        let Some(frame) = frame_in(fields) else {
            return Ok(None);
        };
        let key = Name::new(alloc, field(fields, 0))?;
        Ok(Some(Station {
            key,
            id: frame.id,
            bits: frame.bits,
            chans_log2: frame.chans_log2,
            frame_bytes: frame.frame_bytes,
            legacy: frame.legacy,
            files: Vec::new(alloc),
            chans: Named::new(alloc),
            clocks: ClockList::new(alloc),
            polys: PolyList::new(alloc),
        }))
    }

    /// The number of channels.
    pub fn chans_count(&self) -> u32
        ensures { result ≡ 2 ^ self.now.chans_log2 }
    {
        1 << self.chans_log2
    }

    // Takes the line of a file.
    fn take_file(&mut self, alloc: Global, fields: &[&[u8]]) -> Result<(), JobKind>
        requires { IsUtf8 (field (map (λ field. field.now) fields.now) 1) }
        ensures taken { Takes None (with_file (map (λ field. field.now) fields.now) self.old) result self.new }
        ensures key { self.new.key ≡ self.old.key }
        ensures sound { OnOk result (IsStationOf self.new) }
    {
        let file = Name::new(alloc, field(fields, 1))?;
        self.files.push(file)?;
        Ok(())
    }

    // Adds a channel that is not there.
    fn add_chan(&mut self, alloc: Global, name: &[u8], place: ChanPlace) -> Result<(), AllocError>
        requires new { named self.old.chans name.now ≡ None }
        requires place { IsChanOf self.old (name.now, place) }
        ensures added { OnOk result (self.new ≡ record self.old { chans = self.old.chans ++ (name.now, place) ∷ [] }) }
        ensures key { self.new.key ≡ self.old.key }
        ensures sound { OnOk result (IsStationOf self.new) }
    {
        self.chans.put(alloc, name, place)?;
        Ok(())
    }

    // Takes the line of a channel.
    #[tactic(auto, unfolding(crate::specs::Faults::chan_fault))]
    fn take_chan(&mut self, alloc: Global, fields: &[&[u8]]) -> Result<(), JobKind>
        ensures taken { Takes (chan_fault (map (λ field. field.now) fields.now) self.old) (with_chan (map (λ field. field.now) fields.now) self.old) result self.new }
        ensures key { self.new.key ≡ self.old.key }
        ensures sound { OnOk result (IsStationOf self.new) }
    {
        let name = field(fields, 1);
        if self.chans.has(name) {
            return Err(JobKind::Double);
        }
        let Some(place) = chan_in(self.chans_count(), fields) else {
            return Err(JobKind::Range);
        };
        self.add_chan(alloc, name, place)?;
        Ok(())
    }

    // Adds a clock entry of a second of which there is none.
    fn add_clock(&mut self, entry: ClockEntry) -> Result<(), AllocError>
        requires new { is_taken (λ e. e.second) (Some entry.second) self.old.clocks ≡ false }
        requires clock { IsClock entry }
        ensures added { OnOk result (self.new ≡ record self.old { clocks = self.old.clocks ++ entry ∷ [] }) }
        ensures key { self.new.key ≡ self.old.key }
        ensures sound { OnOk result (IsStationOf self.new) }
    {
        add_entry(&mut self.clocks, entry)
    }

    // Adds a polynomial of a second of which there is none.
    fn add_poly(&mut self, entry: PolyEntry) -> Result<(), AllocError>
        requires new { is_taken (λ e. e.second) (Some entry.second) self.old.polys ≡ false }
        requires second { IsSecond entry.second }
        ensures added { OnOk result (self.new ≡ record self.old { polys = self.old.polys ++ entry ∷ [] }) }
        ensures key { self.new.key ≡ self.old.key }
        ensures sound { OnOk result (IsStationOf self.new) }
    {
        add_entry(&mut self.polys, entry)
    }

    // Takes the line of a clock entry.
    #[tactic(auto, unfolding(crate::specs::Faults::clock_fault))]
    fn take_clock(&mut self, fields: &[&[u8]]) -> Result<(), JobKind>
        ensures taken { Takes (clock_fault (map (λ field. field.now) fields.now) self.old) (with_clock (map (λ field. field.now) fields.now) self.old) result self.new }
        ensures key { self.new.key ≡ self.old.key }
        ensures sound { OnOk result (IsStationOf self.new) }
    {
        if is_taken(&self.clocks, second_of(field(fields, 1))) {
            return Err(JobKind::Double);
        }
        let Some(entry) = clock_in(fields) else {
            return Err(JobKind::Range);
        };
        self.add_clock(entry)?;
        Ok(())
    }

    // Takes the line of a polynomial.
    #[tactic(auto, unfolding(crate::specs::Faults::poly_fault))]
    fn take_poly(&mut self, alloc: Global, fields: &[&[u8]]) -> Result<(), JobKind>
        ensures taken { Takes (poly_fault (map (λ field. field.now) fields.now) self.old) (with_poly (map (λ field. field.now) fields.now) self.old) result self.new }
        ensures key { self.new.key ≡ self.old.key }
        ensures sound { OnOk result (IsStationOf self.new) }
    {
        if is_taken(&self.polys, second_of(field(fields, 1))) {
            return Err(JobKind::Double);
        }
        let Some(entry) = poly_in(alloc, fields)? else {
            return Err(JobKind::Range);
        };
        self.add_poly(entry)?;
        Ok(())
    }

    // Takes the line of a part.
    pub(crate) fn take_part(
        &mut self,
        alloc: Global,
        part: Part,
        fields: &[&[u8]],
    ) -> Result<(), JobKind>
        requires { IsUtf8 (field (map (λ field. field.now) fields.now) 1) }
        ensures taken { Takes (part_fault part (map (λ field. field.now) fields.now) self.old) (with_part part (map (λ field. field.now) fields.now) self.old) result self.new }
        ensures key { self.new.key ≡ self.old.key }
        ensures sound { OnOk result (IsStationOf self.new) }
    {
        match part {
            Part::File => self.take_file(alloc, fields),
            Part::Chan => self.take_chan(alloc, fields),
            Part::Clock => self.take_clock(fields),
            Part::Poly => self.take_poly(alloc, fields),
        }
    }
}
