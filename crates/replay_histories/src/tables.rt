// All that a call is given and leaves: a table of words and one of bytes. make.py's tables.py says where each thing stands in them.
ghost use Rattle.std.specs.Prelude.{◌+◌, ◌≤◌, length};

use std::fmt::Display;
use std::io;

// How many words and bytes there are.
pub(crate) const WORDS: usize = 2048;

pub(crate) const BYTES: usize = 5120;

// Where the cells and the tile counts begin among the words; the verdicts and the picture among the bytes, the other ring where the verdicts do.
pub(crate) const CELLS: usize = 128;

pub(crate) const NUMBERS: usize = 1536;

pub(crate) const VERDICTS: usize = 3072;

pub(crate) const PICTURE: usize = 3584;

pub(crate) type Words = [u64; WORDS];

#[derive(Clone, Copy, PartialEq, Eq)]
pub(crate) struct Tables {
    pub words: Words,
    pub bytes: [u8; BYTES],
}

impl Tables {
    pub(crate) fn new() -> Tables {
        Tables {
            words: [0; WORDS],
            bytes: [0; BYTES],
        }
    }

    // A word, where the table has it.
    pub(crate) fn put(&mut self, at: usize, v: u64) {
        if let Some(word) = self.words.get_mut(at) {
            *word = v;
        }
    }

    // A byte, where the table has it.
    pub(crate) fn put_byte(&mut self, at: usize, v: u8) {
        if let Some(byte) = self.bytes.get_mut(at) {
            *byte = v;
        }
    }

    // Words from a place on.
    pub(crate) fn put_all(&mut self, at: usize, words: &[u64])
        requires { at + length words.now ≤ 2048 }
    {
        self.words[at..at + words.len()].copy_from_slice(words);
    }

    // The first word and the first byte that differ from those that are wanted.
    pub(crate) fn say_difference(&self, rt: &impl Print, wanted: &Tables) -> io::Result<()> {
        say_first(rt, "word", &self.words, &wanted.words)?;
        say_first(rt, "byte", &self.bytes, &wanted.bytes)
    }
}

fn say_first<T: PartialEq + Display>(
    rt: &impl Print,
    what: &str,
    left: &[T],
    wanted: &[T],
) -> io::Result<()> {
    for (at, (got, want)) in left.iter().zip(wanted).enumerate() {
        if got != want {
            return println!(rt; ": {what} {at} is {got}, not {want}");
        }
    }
    Ok(())
}
