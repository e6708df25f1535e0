//! The job that correlates the generated recordings.
ghost use Rattle.std.specs.Prelude.{◌≡◌, ◌≤◌, IfOk};
ghost use Rattle.sample_gen.specs.Job.{job_of};

use itoa::Buffer;
use std::alloc::{AllocError, Global};

// The job up to the scan's length.
const BEFORE: &str = "lags 32
integration 160000
epoch 50000
knot 1000
station S0 0 2 2 8032
file S0 s0.vdif
chan S0 X0 0 0
chan S0 X1 0 1
station S1 1 2 2 8032
file S1 s1.vdif
chan S1 X0 0 0
chan S1 X1 0 1
station S2 2 2 2 8032
file S2 s2.vdif
chan S2 X0 0 0
chan S2 X1 0 1
station S3 3 2 2 8032
file S3 s3.vdif
chan S3 X0 0 0
chan S3 X1 0 1
poly S1 2010y001d00h00m00s 2147483648 900000000000000
poly S2 2010y001d00h00m00s -6442450944 -900000000000000
clock S3 2010y001d00h00m00s 4294967296 1000
product X0 X0
product X1 X1
rate 160000
scan G 2010y001d00h00m00s ";

// The job behind the scan's length.
const BEHIND: &str = "
band X0 1600000000 U
band X1 1600000000 L
";

/// The job of 1 to 60 seconds: the four recordings as the files `s0.vdif` to `s3.vdif`, and one scan of 160,000 samples a
/// second.
pub fn job_text(alloc: Global, seconds: u32) -> Result<Vec<u8>, AllocError>
    requires some { 1 ≤ seconds }
    requires few { seconds ≤ 60 }
    ensures { IfOk result (λ text. text.items ≡ job_of seconds) }
{
    let mut samples = Buffer::new();
    let mut text = Vec::from_slice(alloc, BEFORE.as_bytes())?;
    text.extend_from_slice(samples.format(160_000 * seconds).as_bytes())?;
    text.extend_from_slice(BEHIND.as_bytes())?;
    Ok(text)
}
