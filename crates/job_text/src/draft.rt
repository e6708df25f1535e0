//! What the lines of a job so far say.
ghost use Rattle.std.specs.Prelude.{◌≡◌, ◌&&◌, true, ◌++◌, [], List, Option, map, is_some, IfSome, OnOk, option_map, option_to_list};
ghost use Rattle.std.specs.{Str.{IsUtf8}, List.{All}};
ghost use Rattle.named_list.specs.Named.{named};
ghost use Rattle.job_lines.specs.declared.word.Word.TheVariants.{Auto, Station, Product, Take, Scan, Band as BandWord};
ghost use Rattle.job_text.specs.{Ranges.{IsName, IsSpan, IsStationOf, IsJob, AreDistinct}, Values.{field, scan_in}, Said.{said_by}, Faults.{double_or_range, has_channel, row_fault}};
ghost use Rattle.job_text.specs.{Growing.{Takes, Grows, grown, under, word_for}, Job.{StationFields}, declared.fault.JobKind.{JobKind}, Sound.{IsSaid, IsSoundRow}, Answer.{is_whole, job_by}};
ghost use Rattle.job_text.specs.Numbers.{job_from};

use crate::fault::JobKind;
use crate::job::Job;
use crate::numbers::Numbers;
use crate::pairs::Pairs;
use crate::part::Part;
use crate::places::{Band, ScanSpan};
use crate::stations::Stations;
use crate::values::{band_in, epoch_in, integration_in, knot_in, lags_in, rate_in, scan_in};
use job_lines::{Word, field};
use named_list::Named;
use std::alloc::Global;
use std::marker::Model;
use std::mem;

/// What the lines of a job so far say. After a fault it is not used again.
#[derive(Drop)]
pub(crate) struct Draft {
    pub(crate) lags: Option<u32>,
    pub(crate) integration: Option<u64>,
    pub(crate) epoch: Option<u32>,
    pub(crate) knot: Option<u32>,
    pub(crate) auto: bool,
    pub(crate) rate: Option<u32>,
    pub(crate) stations: Stations,
    pub(crate) products: Pairs,
    pub(crate) takes: Named<()>,
    pub(crate) scans: Named<ScanSpan>,
    pub(crate) bands: Named<Band>,
}

impl Model for Draft {
    ghost use Rattle.job_text.specs.{Said.{Said}, Shown.{draft_shown}};

    ghost Value = { Said };

    ghost view = { draft_shown };
}

// Takes what may be stated only once.
fn take_once<T: Drop>(kept: &mut Option<T>, stated: Option<T>) -> Result<(), JobKind>
    ensures { Takes (double_or_range (is_some kept.old) stated) stated result kept.new }
{
    if kept.is_some() {
        return Err(JobKind::Double);
    }
    if stated.is_none() {
        return Err(JobKind::Range);
    }
    *kept = stated;
    Ok(())
}

// Takes what is stated under a name, of which there may be only one.
fn take_named<T: Drop>(
    alloc: Global,
    things: &mut Named<T>,
    name: &[u8],
    stated: Option<T>,
) -> Result<(), JobKind>
    ensures { Takes (double_or_range (is_some (named things.old name.now)) (under name.now stated))
        (things.old ++ option_to_list (under name.now stated)) result things.new }
{
    if things.has(name) {
        return Err(JobKind::Double);
    }
    let Some(thing) = stated else {
        return Err(JobKind::Range);
    };
    things.put(alloc, name, thing)?;
    Ok(())
}

// Puts the stations that took a line in their place.
fn put_back(place: &mut Stations, taken: Result<Stations, JobKind>) -> Result<(), JobKind>
    ensures { (fault : Option JobKind) (grown : List StationFields) → Grows fault grown taken → Takes fault grown result place.new }
{
    *place = taken?;
    Ok(())
}

// Whether stations have channels of two names.
fn are_channels(stations: &Stations, x: &[u8], y: &[u8]) -> bool
    ensures value { result ≡ (has_channel stations.now x.now && has_channel stations.now y.now) }
    ensures names { result ≡ true → IsName x.now × IsName y.now }
{
    stations.has_channel(x) && stations.has_channel(y)
}

impl Draft {
    /// What no line says.
    #[tactic(auto, unfolding(crate::specs::Said::said_by, crate::specs::Said::each))]
    pub(crate) fn new(alloc: Global) -> Self
        ensures { result ≡ said_by [] }
    {
        Draft {
            lags: None,
            integration: None,
            epoch: None,
            knot: None,
            auto: false,
            rate: None,
            stations: Stations::new(alloc),
            products: Pairs::new(alloc),
            takes: Named::new(alloc),
            scans: Named::new(alloc),
            bands: Named::new(alloc),
        }
    }

    fn take_auto(&mut self) -> Result<(), JobKind>
        ensures { Takes (row_fault self.old Auto []) (grown self.old Auto []) result self.new }
    {
        if self.auto {
            return Err(JobKind::Double);
        }
        self.auto = true;
        Ok(())
    }

    fn take_scan(&mut self, alloc: Global, fields: &[&[u8]]) -> Result<(), JobKind>
        ensures taken { Takes (row_fault self.old Scan (map (λ field. field.now) fields.now)) (grown self.old Scan (map (λ field. field.now) fields.now)) result self.new }
        ensures span { IfSome (scan_in (map (λ field. field.now) fields.now)) IsSpan }
    {
        take_named(alloc, &mut self.scans, field(fields, 0), scan_in(fields))
    }

    fn take_band(&mut self, alloc: Global, fields: &[&[u8]]) -> Result<(), JobKind>
        ensures { Takes (row_fault self.old BandWord (map (λ field. field.now) fields.now)) (grown self.old BandWord (map (λ field. field.now) fields.now)) result self.new }
    {
        take_named(alloc, &mut self.bands, field(fields, 0), band_in(fields))
    }

    fn take_take(&mut self, alloc: Global, fields: &[&[u8]]) -> Result<(), JobKind>
        ensures { Takes (row_fault self.old Take (map (λ field. field.now) fields.now)) (grown self.old Take (map (λ field. field.now) fields.now)) result self.new }
    {
        if self.takes.has(field(fields, 0)) {
            return Err(JobKind::Double);
        }
        self.takes.put(alloc, field(fields, 0), ())?;
        Ok(())
    }

    fn take_product(&mut self, alloc: Global, fields: &[&[u8]]) -> Result<(), JobKind>
        ensures taken { Takes (row_fault self.old Product (map (λ field. field.now) fields.now)) (grown self.old Product (map (λ field. field.now) fields.now)) result self.new }
        ensures names { OnOk result (IsName (field (map (λ field. field.now) fields.now) 0) × IsName (field (map (λ field. field.now) fields.now) 1)) }
    {
        let x = field(fields, 0);
        let y = field(fields, 1);
        if !are_channels(&self.stations, x, y) {
            return Err(JobKind::Unknown);
        }
        if !self.products.add(alloc, x, y)? {
            return Err(JobKind::Double);
        }
        Ok(())
    }

    fn take_station(&mut self, alloc: Global, fields: &[&[u8]]) -> Result<(), JobKind>
        ensures { Takes (row_fault self.old Station (map (λ field. field.now) fields.now)) (grown self.old Station (map (λ field. field.now) fields.now)) result self.new }
    {
        let stations = mem::replace(&mut self.stations, Stations::new(alloc));
        put_back(&mut self.stations, stations.take_station(alloc, fields))
    }

    fn take_part(&mut self, alloc: Global, part: Part, fields: &[&[u8]]) -> Result<(), JobKind>
        requires { IsUtf8 (field (map (λ field. field.now) fields.now) 1) }
        ensures { Takes (row_fault self.old (word_for part) (map (λ field. field.now) fields.now)) (grown self.old (word_for part) (map (λ field. field.now) fields.now)) result self.new }
    {
        let stations = mem::replace(&mut self.stations, Stations::new(alloc));
        put_back(&mut self.stations, stations.take_part(alloc, part, fields))
    }

    /// Takes the fields behind a word.
    pub(crate) fn take_row(
        &mut self,
        alloc: Global,
        word: Word,
        fields: &[&[u8]],
    ) -> Result<(), JobKind>
        requires { IsUtf8 (field (map (λ field. field.now) fields.now) 1) }
        ensures taken { Takes (row_fault self.old word (map (λ field. field.now) fields.now)) (grown self.old word (map (λ field. field.now) fields.now)) result self.new }
        ensures sound { OnOk result (IsSoundRow word (map (λ field. field.now) fields.now)) }
    {
        match word {
            Word::Lags => take_once(&mut self.lags, lags_in(fields)),
            Word::Integration => take_once(&mut self.integration, integration_in(fields)),
            Word::Epoch => take_once(&mut self.epoch, epoch_in(fields)),
            Word::Knot => take_once(&mut self.knot, knot_in(fields)),
            Word::Auto => self.take_auto(),
            Word::Station => self.take_station(alloc, fields),
            Word::File => self.take_part(alloc, Part::File, fields),
            Word::Chan => self.take_part(alloc, Part::Chan, fields),
            Word::Clock => self.take_part(alloc, Part::Clock, fields),
            Word::Poly => self.take_part(alloc, Part::Poly, fields),
            Word::Product => self.take_product(alloc, fields),
            Word::Take => self.take_take(alloc, fields),
            Word::Rate => take_once(&mut self.rate, rate_in(fields)),
            Word::Scan => self.take_scan(alloc, fields),
            Word::Band => self.take_band(alloc, fields),
        }
    }

    /// Whether no line is missing beside those that state a number.
    fn is_whole(&self, inline: bool) -> bool
        ensures whole { result ≡ is_whole inline self.now }
        ensures stations { All IsStationOf self.now.stations }
        ensures keys { AreDistinct (map (λ s. s.key) self.now.stations) }
    {
        let stations = self.stations.items();
        !stations.is_empty()
            && self.products.len() > 0
            && (!inline || (self.rate.is_some() && self.scans.len() > 0))
    }

    /// The numbers of the job that the lines say, none where a line is missing.
    pub(crate) fn numbers(&self, inline: bool) -> Option<Numbers>
        requires { IsSaid self.now }
        ensures value { option_map (job_from self.now) result ≡ job_by inline self.now }
        ensures sound { IfSome result (λ numbers. IsJob (job_from self.now numbers)) }
    {
        let lags = self.lags?;
        let integration = self.integration?;
        let epoch = self.epoch?;
        if !self.is_whole(inline) {
            return None;
        }
        Some(Numbers {
            lags,
            integration,
            epoch,
        })
    }

    /// The job of these numbers.
    pub(crate) fn into_job(self, numbers: Numbers) -> Job
        requires { IsJob (job_from self numbers) }
        ensures { result ≡ job_from self numbers }
    {
        Job {
            lags: numbers.lags,
            integration: numbers.integration,
            epoch: numbers.epoch,
            knot: self.knot.unwrap_or(32_768),
            auto: self.auto,
            rate: self.rate,
            stations: self.stations,
            products: self.products,
            takes: self.takes,
            scans: self.scans,
            bands: self.bands,
        }
    }
}
