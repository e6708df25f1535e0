//! The words of a call.
ghost use Rattle.std.specs.Prelude.{◌≡◌, IfOk, map, string_bytes};
ghost use Rattle.run_words.specs.Orders.{order_of, Gives, IsOrder};

use crate::fault::WordsFault;
use crate::order::{Order, order_after};
use std::alloc::Global;

/// The order that the words of a call give: a command, and behind it its options, in any order that `clap` takes. Its names
/// are texts, its numbers in their ranges: 1 to 64 workers, epochs of 1 to 4,194,304 samples, pieces of 64 to 4,194,304, 1 to
/// 60 seconds, 0 to 4,096 rates on either side, divided by 1 to 65,536, a shard's part of a job has at least one integration, and
/// a merge's files stand in the order of the words.
pub fn read_words(alloc: Global, words: &[String]) -> Result<Order, WordsFault>
    ensures order { Gives result (order_of (map string_bytes words.now)) }
    ensures is_order { IfOk result IsOrder }
{
    let Some((command, options)) = words.split_first() else {
        return Err(WordsFault::NoCommand);
    };
    order_after(alloc, command.as_str(), options)
}
