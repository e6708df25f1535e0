//! The words of a seed.
ghost use Rattle.std.specs.Prelude.{◌≡◌, ◌+◌, ◌<◌, ◌^◌, ℕ};
ghost use Rattle.sample_gen.specs.Words.{AreNext, bytes_of};

use rand_core::{Rng, SeedableRng};
use rand_xoshiro::SplitMix64;

// The generator that is begun with the seed, after so many words.
pub(crate) fn words_after(seed: u64, count: u32) -> SplitMix64
    ensures { AreNext seed count result }
{
    let mut words = SplitMix64::seed_from_u64(seed);
    for _ in 0..count {
        words.next_u64();
    }
    words
}

// Draws the data array of a frame: 1,000 words.
pub(crate) fn draw_array(words: &mut SplitMix64) -> [u8; 8000]
    ensures next { (seed n : ℕ) → AreNext seed n words.old → AreNext seed (n + 1000) words.new }
    ensures bytes { (seed n : ℕ) → AreNext seed n words.old → result ≡ bytes_of seed n 1000 }
{
    let mut array = [0; 8000];
    words.fill_bytes(&mut array);
    array
}
