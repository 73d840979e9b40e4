// The calls with a table of tile counts. The counts stand among the words, a word each; a call gets them as 32-bit numbers, and all go back into the words,
// also those that it was not lent.
use crate::record::ends_at;
use crate::tables::{NUMBERS, Tables, WORDS};
use replay_lists::words::lower_half;

// The counts out of the words, the call, and the counts back into what it leaves.
pub(crate) fn with_counts<F: FnOnce(&mut Tables, &mut [u32])>(
    given: &Tables,
    left: &mut Tables,
    call: F,
)
    requires { F.IsAlwaysCallable call }
{
    let mut table = [0u32; WORDS - NUMBERS];
    for (count, word) in table.iter_mut().zip(&given.words[NUMBERS..]) {
        *count = lower_half(*word);
    }
    let lent = ends_at(&given.words).numbers;
    call(left, &mut table[..lent]);
    for (word, count) in left.words[NUMBERS..].iter_mut().zip(&table) {
        *word = u64::from(*count);
    }
}
