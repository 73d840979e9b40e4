// Reading a list: its next bytes, its next words, and its entries one after the other.
ghost use Rattle.std.specs.Prelude.{◌≡◌, ◌<◌, ◌≤◌, ℕ, ◌*◌, length, flat_map, IsTrue, IfOk, OnErr, MatchOption};
ghost use Rattle.std.specs.Int.{w64, to_le_bytes};
ghost use Rattle.std.specs.Io.KnownBytes.{Consumes};
ghost use Rattle.replay_lists.specs.Reading.{Ends, Reads, ReadsAll, ReadsFewer, ReadsFirst, ReadsSome};

use crate::bytes::first_bytes;
use std::io;
use std::io::Read;

/// The next N bytes of a list. Those behind its end are 0.
pub fn next_bytes<const N: usize, R: Read>(from: &mut R) -> io::Result<[u8; N]>
    ensures ok { IfOk result (ReadsFirst N (R.remaining from.old) (R.remaining from.new)) }
    ensures err { OnErr result (ReadsFewer N (R.remaining from.old) (R.remaining from.new)) }
{
    let mut bytes = [0u8; N];
    let count = stream::read_full(from, &mut bytes)?;
    // `read_full` says nothing of the bytes behind those that it read.
    let all = &bytes[..];
    Ok(first_bytes(&all[..count]))
}

/// The next record of N bytes; none where the list ends before it does.
pub fn next_record<const N: usize, R: Read>(from: &mut R) -> io::Result<Option<[u8; N]>>
    ensures ok { IfOk result (λ entry. MatchOption entry
        (Ends N (R.remaining from.old) (R.remaining from.new))
        (Consumes (R.remaining from.old) (R.remaining from.new))) }
    ensures err { OnErr result (ReadsFewer N (R.remaining from.old) (R.remaining from.new)) }
{
    let mut bytes = [0u8; N];
    if stream::read_full(from, &mut bytes)? < N {
        return Ok(None);
    }
    Ok(Some(bytes))
}

// Puts into words the numbers that their bytes spell.
fn put_words(words: &mut [u64], bytes: &[u8])
    requires { length bytes.now ≡ 8 * length words.old }
    ensures { flat_map (to_le_bytes w64) words.new ≡ bytes.now }
{
    for (i, word) in words.iter_mut().enumerate() {
        let spelling = *bytes[8 * i..].first_chunk().unwrap();
        *word = u64::from_le_bytes(spelling);
    }
}

// Reads 64 words at most, all by one call. Whether the list had them all.
fn read_group<R: Read>(from: &mut R, words: &mut [u64]) -> io::Result<bool>
    requires { length words.old ≤ 64 }
    ensures all { IfOk result (λ all. IsTrue all
        → Consumes (R.remaining from.old) (R.remaining from.new) (flat_map (to_le_bytes w64) words.new)) }
    ensures end { IfOk result (λ all. (IsTrue all → ⊥) → Ends (8 * length words.new) (R.remaining from.old) (R.remaining from.new)) }
    ensures err { OnErr result (ReadsFewer (8 * length words.new) (R.remaining from.old) (R.remaining from.new)) }
{
    let mut bytes = [0u8; 512];
    let bytes = &mut bytes[..8 * words.len()];
    if stream::read_full(from, bytes)? < bytes.len() {
        return Ok(false);
    }
    put_words(words, bytes);
    Ok(true)
}

// Reads all of them, in groups.
fn read_words<R: Read>(from: &mut R, words: &mut [u64]) -> io::Result<bool>
    ensures all { IfOk result (λ all. IsTrue all
        → Consumes (R.remaining from.old) (R.remaining from.new) (flat_map (to_le_bytes w64) words.new)) }
    ensures end { IfOk result (λ all. (IsTrue all → ⊥) → Ends (8 * length words.new) (R.remaining from.old) (R.remaining from.new)) }
    ensures err { OnErr result (ReadsFewer (8 * length words.new) (R.remaining from.old) (R.remaining from.new)) }
{
    // By places: nothing is known of what the parts end as that `chunks_mut` lends.
    let mut done = 0;
    'groups: while done < words.len() {
        let end = done + (words.len() - done).min(64);
        if !read_group(from, &mut words[done..end])? {
            return Ok(false);
        }
        done = end;
    }
    Ok(true)
}

/// The next record of N words, of which the least significant byte stands first; none where the list ends before it does.
pub fn next_words<const N: usize, R: Read>(from: &mut R) -> io::Result<Option<[u64; N]>>
    ensures ok { IfOk result (λ entry. MatchOption entry
        (Ends (8 * N) (R.remaining from.old) (R.remaining from.new))
        (λ words. Consumes (R.remaining from.old) (R.remaining from.new) (flat_map (to_le_bytes w64) words))) }
    ensures err { OnErr result (ReadsFewer (8 * N) (R.remaining from.old) (R.remaining from.new)) }
{
    let mut words = [0u64; N];
    if !read_words(from, &mut words)? {
        return Ok(None);
    }
    Ok(Some(words))
}

/// What a list holds: entries of one size, each of which is read and then played.
pub trait Entry: Drop {
    /// How many bytes one has.
    ghost size: { ℕ };

    /// The next one; none where the list ends before it does.
    fn next<R: Read>(from: &mut R) -> io::Result<Option<Self>>
    where
        Self: Sized,
        ensures ok { IfOk result (λ entry. MatchOption entry
            (Ends size (R.remaining from.old) (R.remaining from.new))
            (λ _. Reads size (R.remaining from.old) (R.remaining from.new))) }
        ensures err { OnErr result (ReadsFewer size (R.remaining from.old) (R.remaining from.new)) };

    /// Plays it, and prints what came out.
    fn play<P: Print>(&self, rt: &P) -> io::Result<()>
    where
        Self: Sized;
}

/// Plays the entries of a list, but no more than so many. Answers how many there were; none where so many were played, and more may stand behind them.
pub fn play_entries<E: Entry, R: Read, P: Print>(
    rt: &P,
    from: &mut R,
    most: u64,
) -> io::Result<Option<u64>>
    ensures ok { IfOk result (λ played. MatchOption played
        (Reads (most * E.size) (R.remaining from.old) (R.remaining from.new))
        (λ n. (n < most) × ReadsAll E.size n (R.remaining from.old) (R.remaining from.new))) }
    ensures err { OnErr result (ReadsSome E.size most (R.remaining from.old) (R.remaining from.new)) }
{
    for played in 0..most {
        let Some(entry) = E::next(from)? else {
            return Ok(Some(played));
        };
        entry.play(rt)?;
    }
    Ok(None)
}
