//! Room for bytes, out of lists that are done with.
ghost use Rattle.std.specs.Prelude.{◌≡◌, ◌<◌, IfOk, IfSome, length};

use std::alloc::{AllocError, Global};

// Whether a list with room for `a` bytes serves better for so many bytes than one with room for `b`: it holds them, and
// the other does not or has more room.
fn serves_better(count: usize, a: usize, b: usize) -> bool {
    count <= a && (b < count || a < b)
}

// The place of the list that serves best for so many bytes; None where there is no list.
fn best_place(spare: &[Vec<u8>], count: usize) -> Option<usize>
    ensures { IfSome result (λ place. place < length spare.now) }
{
    let mut place = spare.len().checked_sub(1)?;
    for i in 0..spare.len() {
        if serves_better(count, spare[i].capacity(), spare[place].capacity()) {
            place = i;
        }
    }
    Some(place)
}

/// So many bytes that say nothing, in the room of one of the spare lists, or in room of their own where there is none.
pub fn take_room(
    alloc: Global,
    spare: &mut Vec<Vec<u8>>,
    count: usize,
) -> Result<Vec<u8>, AllocError>
    ensures { IfOk result (λ bytes. length bytes.items ≡ count) }
{
    let Some(place) = best_place(spare, count) else {
        return vec![in alloc; 0u8; count];
    };
    let mut bytes = spare.swap_remove(place);
    bytes.resize(count, 0)?;
    Ok(bytes)
}

/// Gives the room of a list to the spare ones; where there is no memory for its place among them, it goes.
pub(crate) fn leave_room(spare: &mut Vec<Vec<u8>>, bytes: Vec<u8>) {
    if bytes.capacity() > 0 {
        let _ = spare.push(bytes);
    }
}
