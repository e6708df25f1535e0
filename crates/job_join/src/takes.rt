//! The scans that a job takes.
ghost use Rattle.std.specs.Prelude.{◌≡◌, not, is_some};
ghost use Rattle.std.specs.List.{position};
ghost use Rattle.named_list.specs.Named.{named, names};
ghost use Rattle.job_join.specs.Standing.{is_taken};

use named_list::Named;
use scan_list::Scan;

/// The first take that is not among these names.
pub(crate) fn unknown_take(takes: &Named<()>, scans: &Named<()>) -> Option<usize>
    ensures { result ≡ position (λ name. not (is_some (named scans.now name))) (names takes.now) }
{
    for i in 0..takes.len() {
        let (name, _) = takes.at(i);
        if !scans.has(name) {
            return Some(i);
        }
    }
    None
}

/// Whether a scan is taken.
pub(crate) fn is_taken(takes: &Named<()>, scan: &Scan) -> bool
    ensures { result ≡ is_taken (names takes.now) scan.now }
{
    takes.len() == 0 || takes.has(scan.name.bytes())
}
