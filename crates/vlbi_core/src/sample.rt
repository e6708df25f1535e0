//! The job of a generated sample, correlated over devices in memory.
ghost use Rattle.std.specs.Prelude.{◌≡◌, ◌≤◌, IfOk, IfErr, codes};
ghost use Rattle.std.specs.Str.{IsUtf8};
ghost use Rattle.mem_devices.specs.MemShelfState.{files_of};
ghost use Rattle.sample_gen.specs.Frames.{recording_of};
ghost use Rattle.run_words.specs.Orders.{IsWork, IsSample};
ghost use Rattle.run_notes.specs.{Commands.{Tells}, Counted.{CountsWrites}};
ghost use Rattle.vis_records.specs.Content.{Content, IsRecordFile};
ghost use Rattle.sample_job.specs.Sample.{SampleOf, sample_files};
ghost use Rattle.vlbi_core.specs.{Sample.{IsSampled, sample_text}, Faults.{written_with}, Steps.{IsOfMemory, IsOfSample}};

use crate::correlation::correlate_job;
use crate::sure_shelf::SureShelf;
use dev_traits::{Gate, Sink};
use gen_summary::write_totals;
use mem_devices::{MemDisk, MemSink};
use num_time::Name;
use run_notes::Refusal;
use run_ready::laws::one_outcome;
use sample_gen::{generate, job_text};
use sample_job::comes_to_a_plan;
use std::alloc::{AllocError, Global};
use std::thread::Threads;
use vis_records::laws::one_content;
use vis_records::{SinkFault, Vis, VisKind, read_all};

/// Correlates the job of a generated sample over devices in memory, as a call of `run` does, and appends the totals of its
/// record file. The job comes to a plan: no verdict is due, and no read of a recording fails.
pub fn total_sample<R: Threads + Sync, S: Sink, G: Gate + Sync>(
    rt: &R,
    alloc: Global,
    seed: u64,
    seconds: u32,
    workers: u32,
    piece: u64,
    out: &mut S,
    gate: &G,
) -> Result<(), Refusal>
    requires sample { IsSample seconds }
    requires work { IsWork workers piece }
    ensures tells { Tells (SampleOf seed seconds) (sample_text seed seconds) (S.told out.old) (S.told out.new) result }
    ensures stage { IfErr result IsOfSample }
    ensures writes { CountsWrites (S.faults out.old) (S.faults out.new) result }
{
    one_content();
    let records = sample_records(rt, alloc, seed, seconds, workers, piece, gate)?;
    let vis = read_back(alloc, &records)?;
    answer(write_totals(&vis, records.len() as u64, out))
}

// The answer of a call that wrote totals.
fn answer(written: Result<(), SinkFault>) -> Result<(), Refusal>
    ensures { result ≡ written_with written }
{
    match written {
        Ok(()) => Ok(()),
        Err(_) => Err(Refusal::Write),
    }
}

// The record file of a sample.
fn sample_records<R: Threads + Sync, G: Gate + Sync>(
    rt: &R,
    alloc: Global,
    seed: u64,
    seconds: u32,
    workers: u32,
    piece: u64,
    gate: &G,
) -> Result<Vec<u8>, AllocError>
    requires sample { IsSample seconds }
    requires work { IsWork workers piece }
    ensures { IfOk result (λ bytes. IsSampled seed seconds bytes.items) }
{
    one_outcome();
    comes_to_a_plan();
    let job = sample_name(alloc)?;
    let mut shelf = SureShelf::new(alloc, sample_files(alloc, seed, seconds)?);
    let mut journal = MemDisk::new(alloc, Vec::new(alloc), Vec::new(alloc), None)?;
    let mut out = MemSink::new(alloc, usize::MAX, Vec::new(alloc));
    match correlate_job(
        rt,
        alloc,
        &job,
        None,
        None,
        workers,
        piece,
        &mut shelf,
        &mut journal,
        &mut out,
        gate,
    ) {
        Ok(()) => Ok(out.bytes().to_vec(alloc)?),
        Err(refusal) => Err(in_memory(refusal)),
    }
}

// The want of memory that a refusal over devices in memory is.
fn in_memory(refusal: Refusal) -> AllocError
    requires { IsOfMemory refusal }
{
    match refusal {
        Refusal::Memory => AllocError,
        Refusal::Journal(_) => AllocError,
        Refusal::Write => AllocError,
        Refusal::Words(_) => unreachable!(),
        Refusal::Due(_) => unreachable!(),
        Refusal::Other(_) => unreachable!(),
        Refusal::Read => unreachable!(),
    }
}

// The name of a sample's job.
fn sample_name(alloc: Global) -> Result<Name, AllocError>
    ensures name { IfOk result (λ name. name ≡ codes "job") }
    ensures text { IfOk result IsUtf8 }
{
    Name::new(alloc, "job".as_bytes())
}

// The job of a sample, and its recordings.
fn sample_files(
    alloc: Global,
    seed: u64,
    seconds: u32,
) -> Result<Vec<(String, Vec<u8>)>, AllocError>
    requires sample { IsSample seconds }
    ensures { IfOk result (λ files. files_of files.items ≡ sample_files seed seconds) }
{
    let mut files = Vec::new(alloc);
    files.push((String::from_str(alloc, "job")?, job_text(alloc, seconds)?))?;
    files.push((
        String::from_str(alloc, "s0.vdif")?,
        recording(alloc, seed, seconds, 0)?,
    ))?;
    files.push((
        String::from_str(alloc, "s1.vdif")?,
        recording(alloc, seed, seconds, 1)?,
    ))?;
    files.push((
        String::from_str(alloc, "s2.vdif")?,
        recording(alloc, seed, seconds, 2)?,
    ))?;
    files.push((
        String::from_str(alloc, "s3.vdif")?,
        recording(alloc, seed, seconds, 3)?,
    ))?;
    Ok(files)
}

// The recording of a station.
fn recording(alloc: Global, seed: u64, seconds: u32, station: u32) -> Result<Vec<u8>, AllocError>
    requires sample { IsSample seconds }
    requires station { station ≤ 3 }
    ensures { IfOk result (λ bytes. bytes.items ≡ recording_of seed seconds station) }
{
    let mut sink = MemSink::new(alloc, usize::MAX, Vec::new(alloc));
    match generate(seed, seconds, station, &mut sink) {
        Ok(()) => sink.bytes().to_vec(alloc),
        Err(_) => Err(AllocError),
    }
}

// The content of a record file.
fn read_back(alloc: Global, records: &[u8]) -> Result<Vis, AllocError>
    requires { (content : Content) × IsRecordFile records.now content }
    ensures { IfOk result (λ vis. IsRecordFile records.now vis) }
{
    match read_all(alloc, records) {
        Ok(vis) => Ok(vis),
        Err(fault) => match fault.kind {
            VisKind::Memory => Err(AllocError),
            _ => unreachable!(),
        },
    }
}
