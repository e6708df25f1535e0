// Reads of bytes in memory.
ghost use Rattle.std.specs.Prelude.{Some};
ghost use Rattle.dev_traits.specs.Files.{ReadsAt};

// Fills the front of `buf` with the bytes from `at` on, and answers how many there were and fit.
pub(crate) fn read_from(bytes: &[u8], at: u64, buf: &mut [u8]) -> usize
    ensures { ReadsAt (Some bytes.now) at buf.old result buf.new }
{
    let at = at as usize;
    if at >= bytes.len() {
        return 0;
    }
    let rest = &bytes[at..];
    let n = rest.len().min(buf.len());
    buf[..n].copy_from_slice(&rest[..n]);
    n
}
