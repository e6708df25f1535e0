//! The head of a record.
ghost use Rattle.std.specs.Prelude.{◌≡◌, ◌≤◌, ◌++◌, length, drop};
ghost use Rattle.journal_image.specs.Head.{head_text, head_of};

use byteorder::{ByteOrder, LittleEndian};

/// The range of an epoch: samples `from` up to, not including, `to` of a scan, in its integration `m`. `scan` counts the
/// scans of the job.
#[derive(Clone, Copy, Debug, PartialEq, Eq)]
pub struct EpochRange {
    pub scan: u32,
    pub m: u64,
    pub from: u64,
    pub to: u64,
}

/// The range that the 28 bytes of a record's head say.
pub fn record_head(bytes: &[u8]) -> EpochRange
    requires { length bytes.now ≡ 28 }
    ensures numbers { result ≡ head_of bytes.now }
    ensures text { bytes.now ≡ head_text result }
{
    EpochRange {
        scan: LittleEndian::read_u32(bytes),
        m: LittleEndian::read_u64(&bytes[4..]),
        from: LittleEndian::read_u64(&bytes[12..]),
        to: LittleEndian::read_u64(&bytes[20..]),
    }
}

// The 28 bytes of a record's head.
pub(crate) fn head_bytes(range: &EpochRange) -> [u8; 28]
    ensures { result ≡ head_text range.now }
{
    let mut bytes = [0; 28];
    LittleEndian::write_u32(&mut bytes, range.scan);
    LittleEndian::write_u64(&mut bytes[4..], range.m);
    LittleEndian::write_u64(&mut bytes[12..], range.from);
    LittleEndian::write_u64(&mut bytes[20..], range.to);
    bytes
}

/// Writes the head of a record into the first 28 bytes.
pub fn write_head(bytes: &mut [u8], range: &EpochRange)
    requires { 28 ≤ length bytes.old }
    ensures { bytes.new ≡ head_text range.now ++ drop 28 bytes.old }
{
    bytes[..28].copy_from_slice(&head_bytes(range));
}
