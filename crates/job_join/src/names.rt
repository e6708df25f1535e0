//! Names that stand in a set.
ghost use Rattle.std.specs.Prelude.{◌≡◌, ◌||◌, ℕ, List, bytes_eq, is_some, OnOk, IfOk};
ghost use Rattle.std.specs.List.{list_any};
ghost use Rattle.named_list.specs.Named.{named};
ghost use Rattle.scan_list.specs.{declared.scan.Scan.{Scan}, declared.scan.Pass.{Pass}};

use named_list::Named;
use scan_list::{Pass, Scan};
use std::alloc::{AllocError, Global};

/// Puts a name into a set.
#[tactic(auto, using(crate::proofs::Sets::is_some_put))]
pub(crate) fn keep(alloc: Global, set: &mut Named<()>, name: &[u8]) -> Result<(), AllocError>
    ensures { OnOk result ((q : List ℕ) → is_some (named set.new q) ≡ (is_some (named set.old q) || bytes_eq name.now q)) }
{
    set.put(alloc, name, ())?;
    Ok(())
}

/// The names of some scans, as a set.
pub(crate) fn scan_names(alloc: Global, scans: &[Scan]) -> Result<Named<()>, AllocError>
    ensures { IfOk result (λ set. (q : List ℕ) → is_some (named set q) ≡ list_any (λ (scan : Scan). bytes_eq scan.name q) scans.now) }
{
    let mut set = Named::new(alloc);
    for scan in scans {
        keep(alloc, &mut set, scan.name.bytes())?;
    }
    Ok(set)
}

/// Puts the keys of some stations' parts into a set.
pub(crate) fn keep_keys(
    alloc: Global,
    set: &mut Named<()>,
    passes: &[Pass],
) -> Result<(), AllocError>
    ensures { OnOk result ((q : List ℕ) → is_some (named set.new q) ≡ (is_some (named set.old q) || list_any (λ (p : Pass). bytes_eq p.key q) passes.now)) }
{
    for pass in passes {
        keep(alloc, set, pass.key.bytes())?;
    }
    Ok(())
}
