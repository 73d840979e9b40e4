// The queue under test, and what a record does to it.
ghost use Rattle.std.specs.Prelude.{◌≤◌};

use crate::answers::{same_appended, same_measure, same_taken};
use crate::kind::Kind;
use crate::record::{Record, block_at, last_at};
use crate::score::Outcome;
use queue::{Appended, Last, remember, starting_last};
use replay_lists::bytes::{bytes_at, number_at};

// Its ring are the first bytes of a buffer. Head and use are as the record that started it has them, sound or not; each side remembers a block.
#[derive(Clone, Copy)]
pub(crate) struct Tested {
    pub buffer: [u8; 192],
    pub len: usize,
    pub set: u8,
    pub head: usize,
    pub used: usize,
    pub front: Last,
    pub back: Last,
    ghost fits: { len ≤ 192 },
}

impl Tested {
    ghost use Rattle.std.specs.Prelude.{◌≡◌};
    ghost use Rattle.replay_blocks.specs.Replay.{measure_agrees, append_agrees, take_agrees, ring_agrees, outcome};

    // No queue yet.
    pub(crate) fn new() -> Tested {
        let last = starting_last();
        Tested {
            buffer: [0; 192],
            len: 0,
            set: 0,
            head: 0,
            used: 0,
            front: last,
            back: last,
        }
    }

    // A new ring: its set, length, head, use and bytes.
    fn start(rec: &Record) -> Tested {
        let last = starting_last();
        Tested {
            buffer: bytes_at(rec, 16),
            len: number_at(rec, 2).min(192),
            set: rec[1],
            head: number_at(rec, 4),
            used: number_at(rec, 6),
            front: last,
            back: last,
        }
    }

    // Both sides remember a block.
    fn recall(&mut self, rec: &Record)
        ensures { self.new.len ≡ self.old.len }
    {
        let last = remember(block_at(rec, 8));
        self.front = last;
        self.back = last;
    }

    // Whether a block is measured as its record says.
    fn measures(&self, rec: &Record) -> bool
        ensures { result ≡ measure_agrees rec.now self.now }
    {
        let measured = queue::measure(self.set, self.back, block_at(rec, 8));
        same_measure(measured, number_at(rec, 4), last_at(rec, 91))
    }

    // A block appended: whether the answer is the record's.
    fn appends(&mut self, rec: &Record) -> bool
        ensures agrees { result ≡ append_agrees rec.now self.old }
        ensures same_len { self.new.len ≡ self.old.len }
    {
        let measured = self.measures(rec);
        // Lent from a variable and put back: no proof is made where a part of a struct with an invariant is lent to be changed.
        let mut buffer = self.buffer;
        let answer = queue::append(
            &mut buffer[..self.len],
            self.head,
            self.used,
            self.set,
            self.back,
            block_at(rec, 8),
        );
        self.buffer = buffer;
        if let Ok(Appended { last, used }) = answer {
            self.back = last;
            self.used = used;
        }
        measured & same_appended(answer, rec[1], number_at(rec, 2), last_at(rec, 91))
    }

    // The front block taken: whether the answer is the record's.
    fn takes(&mut self, rec: &Record) -> bool
        ensures agrees { result ≡ take_agrees rec.now self.old }
        ensures same_len { self.new.len ≡ self.old.len }
    {
        let answer = queue::take(
            &self.buffer[..self.len],
            self.head,
            self.used,
            self.set,
            self.front,
        );
        if let Ok(taken) = answer {
            self.front = taken.last;
            self.head = taken.head;
            self.used = taken.used;
        }
        same_taken(
            answer,
            rec[1],
            number_at(rec, 2),
            number_at(rec, 4),
            block_at(rec, 8),
            last_at(rec, 91),
        )
    }

    // Whether the ring's bytes are the record's.
    fn has_ring(&self, rec: &Record) -> bool
        ensures { result ≡ ring_agrees rec.now self.now }
    {
        self.buffer[..self.len] == rec[16..16 + self.len]
    }

    // A record played, and what became of it.
    pub(crate) fn play(&mut self, rec: &Record) -> Outcome
        ensures { result ≡ outcome rec.now self.old }
    {
        match Kind::try_from(rec[0]) {
            Ok(Kind::Start) => {
                *self = Tested::start(rec);
                Outcome::SetUp
            }
            Ok(Kind::Recall) => {
                self.recall(rec);
                Outcome::SetUp
            }
            Ok(Kind::Append) => Outcome::from(self.appends(rec)),
            Ok(Kind::Take) => Outcome::from(self.takes(rec)),
            Ok(Kind::Compare) => Outcome::from(self.has_ring(rec)),
            Err(_) => Outcome::Differed,
        }
    }
}
