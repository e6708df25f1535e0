//! The fields of a line.
ghost use Rattle.std.specs.Prelude.{◌≡◌, map, IfOk};
ghost use Rattle.job_lines.specs.Rows.{uncommented, is_allowed, is_clean, is_blank, fields_of};

use crate::bytes::len_before;
use std::alloc::{AllocError, Global};

// A line without its comment.
fn uncommented(line: &[u8]) -> &[u8]
    ensures { result.now ≡ uncommented line.now }
{
    &line[..len_before(line, b'#')]
}

/// Whether a line has no other bytes outside its comment than tabs, spaces and visible ASCII.
pub fn is_clean(line: &[u8]) -> bool
    ensures { result ≡ is_clean line.now }
{
    uncommented(line).iter().all(|b| is_allowed(*b))
}

fn is_allowed(b: u8) -> bool
    ensures { result ≡ is_allowed b }
{
    b == b'\t' || (32 <= b && b <= 126)
}

fn is_blank(b: u8) -> bool
    ensures { result ≡ is_blank b }
{
    b == b'\t' || b == b' '
}

/// The fields of a line: the stretches between its tabs and spaces, without the comment.
pub fn fields_of(alloc: Global, line: &[u8]) -> Result<Vec<&[u8]>, AllocError>
    ensures { IfOk result (λ fields. map (λ field. field.now) fields.items ≡ fields_of line.now) }
{
    let blank = |b: &u8| -> bool
        ensures { result ≡ is_blank b.now }
    { is_blank(*b) };
    uncommented(line)
        .split(blank)
        .filter(|field| !field.is_empty())
        .collect(alloc)
}
