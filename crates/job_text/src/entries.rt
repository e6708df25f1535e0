//! Entries by their seconds.
ghost use Rattle.std.specs.Prelude.{◌≡◌, ◌++◌, ◌∷◌, [], false, Some, OnOk, OnErr};
ghost use Rattle.job_text.specs.Faults.{is_taken};

use entry_list::{EntryList, HasSecond};
use std::alloc::AllocError;

/// Whether an entry of a second is there already.
pub(crate) fn is_taken<E: HasSecond>(entries: &EntryList<E>, second: Option<i64>) -> bool
    ensures { result ≡ is_taken E.second_of second entries.now }
{
    let Some(second) = second else {
        return false;
    };
    match entries.entry_for(second) {
        Some(entry) => entry.second() == second,
        None => false,
    }
}

/// Adds an entry of a second of which there is none.
pub(crate) fn add_entry<E: HasSecond>(
    entries: &mut EntryList<E>,
    entry: E,
) -> Result<(), AllocError>
    requires { is_taken E.second_of (Some (E.second_of entry)) entries.old ≡ false }
    ensures added { OnOk result (entries.new ≡ entries.old ++ entry ∷ []) }
    ensures unchanged { OnErr result (entries.new ≡ entries.old) }
{
    let _added = entries.add(entry)?;
    Ok(())
}
