// What a file holds that is written with a mark.
ghost use Rattle.std.specs.Prelude.{◌≡◌};
ghost use Rattle.real_devices.specs.Begun.{is_begun, are_zeros};

/// A disk writes so many bytes whole, or not at all.
pub(crate) const SECTOR: usize = 512;

/// Whether a file with this front, its first sector or all of a shorter one, is one whose writing was begun, with an open or a
/// closed gate and the mark behind it, or may be what a crash has left of its beginning.
pub(crate) fn is_begun(front: &[u8], mark: &[u8]) -> bool
    ensures { result ≡ is_begun mark.now front.now }
{
    if front.len() <= 1 {
        return true;
    }
    let rest = &front[1..];
    front[0] <= 1 && (rest.starts_with(mark) || mark.starts_with(rest) || are_zeros(rest))
}

fn are_zeros(bytes: &[u8]) -> bool
    ensures { result ≡ are_zeros bytes.now }
{
    bytes.iter().all(|byte| *byte == 0)
}
