// What stands in words: a word for each number, and the bit pattern for each bound. Words behind the end count as 0.
ghost use Rattle.std.specs.Prelude.{◌≡◌, ◌+◌, ◌%◌, get_or};
ghost use Rattle.replay_lists.specs.Words.{interval_in, coordinate_in};

use crate::bytes::rest_of;
use coordinate::Coordinate;
use interval::{Interval, float_of};

/// A word's lower half.
pub fn lower_half(word: u64) -> u32
    ensures { result ≡ word % 4294967296 }
{
    (word % 4294967296) as u32
}

fn word_in(words: &[u64], at: usize) -> u64
    ensures { result ≡ get_or words.now at 0 }
{
    match words.get(at) {
        Some(word) => *word,
        None => 0,
    }
}

// The word behind a place.
fn word_behind(words: &[u64], at: usize) -> u64
    ensures { result ≡ get_or words.now (at + 1) 0 }
{
    word_in(rest_of(words, at), 1)
}

/// Bounds as they stand, legal or not.
pub fn interval_at(words: &[u64], at: usize) -> Interval
    ensures { result ≡ interval_in words.now at }
{
    Interval {
        lower: float_of(word_in(words, at)),
        upper: float_of(word_behind(words, at)),
    }
}

/// An index, and a rank in the next word's lowest byte.
pub fn coordinate_at(words: &[u64], at: usize) -> Coordinate
    ensures { result ≡ coordinate_in words.now at }
{
    Coordinate {
        index: word_in(words, at),
        rank: (word_behind(words, at) % 256) as u8,
    }
}
