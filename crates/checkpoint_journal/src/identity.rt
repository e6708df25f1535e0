//! Which job, or which part of one, a journal belongs to.
ghost use Rattle.std.specs.Prelude.{◌≡◌, List, ℕ, ◌++◌, length, flat_map, OnOk, IfOk};
ghost use Rattle.byteorder.specs.Endian.{little_bytes};
ghost use Rattle.journal_image.specs.Image.{IsIdentity};
ghost use Rattle.checkpoint_journal.specs.Identity.{identity_of, shard_of};

use byteorder::{ByteOrder, LittleEndian};
use std::alloc::{AllocError, Global};
use std::marker::Model;

/// The bytes that name a job, or a part of one, in its journal.
#[derive(Drop)]
pub struct Identity {
    bytes: Vec<u8>,
}

impl Model for Identity {
    ghost Value = { List ℕ };

    ghost view = { λ id. id.bytes.items };

    ghost invariant = { λ id. IsIdentity id.bytes.items };
}

impl Identity {
    /// Its bytes, as they stand in the journal behind the head gate.
    pub fn bytes(&self) -> &[u8]
        ensures is { result.now ≡ self.now }
        ensures named { IsIdentity self.now }
    {
        &self.bytes
    }
}

/// The identity of a job: the texts of its schedule, empty where there is none, and of its job, and the recordings'
/// lengths in bytes, in the job's order of stations and then of files.
pub fn job_identity(
    alloc: Global,
    schedule: &[u8],
    job: &[u8],
    sizes: &[u64],
) -> Result<Identity, AllocError>
    ensures { IfOk result (λ id. id ≡ identity_of schedule.now job.now sizes.now) }
{
    let mut bytes = b"VLBIJRN2".to_vec(alloc)?;
    push_number(&mut bytes, schedule.len() as u64)?;
    push_number(&mut bytes, job.len() as u64)?;
    push_number(&mut bytes, sizes.len() as u64)?;
    push_numbers(&mut bytes, sizes)?;
    bytes.extend_from_slice(schedule)?;
    bytes.extend_from_slice(job)?;
    Ok(Identity { bytes })
}

/// The identity of a part of a job: its integrations from number `from` up to, not including, `to`, counted from 0 through
/// all scans. In a journal with it each record carries its range.
pub fn shard_identity(
    alloc: Global,
    id: &Identity,
    from: u64,
    to: u64,
) -> Result<Identity, AllocError>
    ensures { IfOk result (λ shard. shard ≡ shard_of id.now from to) }
{
    let mut bytes = b"VLBISHD1".to_vec(alloc)?;
    push_number(&mut bytes, from)?;
    push_number(&mut bytes, to)?;
    bytes.extend_from_slice(&id.bytes[8..])?;
    Ok(Identity { bytes })
}

// Adds a number in eight bytes.
fn push_number(bytes: &mut Vec<u8>, n: u64) -> Result<(), AllocError>
    ensures { OnOk result (bytes.new.items ≡ bytes.old.items ++ little_bytes 8 n) }
{
    let mut number = [0; 8];
    LittleEndian::write_u64(&mut number, n);
    bytes.extend_from_slice(&number)
}

// Adds numbers in eight bytes each.
fn push_numbers(bytes: &mut Vec<u8>, numbers: &[u64]) -> Result<(), AllocError>
    ensures { OnOk result (bytes.new.items ≡ bytes.old.items ++ flat_map (little_bytes 8) numbers.now) }
{
    for n in numbers {
        push_number(bytes, *n)?;
    }
    Ok(())
}
