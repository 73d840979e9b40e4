// What stands in the table of words: records, ranges and blocks, a word for each number and the bit pattern for each bound.
ghost use Rattle.std.specs.Prelude.{◌≡◌, ◌+◌, ◌<◌, ◌≤◌, min, length, get_or};
ghost use Rattle.replay_histories.specs.Words.{last_in, chosen_at, state_at, ranges_at, EndsInTables};

use crate::tables::{BYTES, CELLS, NUMBERS, PICTURE, Tables, VERDICTS, WORDS, Words};
use decide::Chosen;
use implicit::{Ranges, State};
use interval::{Interval, bits_of};
use queue::{Block, Last};
use replay_lists::words::{interval_at, lower_half};

// Where the budget of a run stands, or the steps that a ring is asked for; and the column of a pixel and its row from the top.
pub(crate) const STEPS: usize = 39;

pub(crate) const COLUMN: usize = 108;

pub(crate) const ROW: usize = 109;

#[tactic(auto, unfolding(crate::specs::Words::last_in))]
fn last_at(w: &Words, at: usize) -> Last
    requires { at + 10 ≤ 2048 }
    ensures { result ≡ last_in w.now at }
{
    Last {
        x: w[at],
        y: w[at + 1],
        m: interval_at(w, at + 2),
        n: interval_at(w, at + 4),
        theta: interval_at(w, at + 6),
        t: interval_at(w, at + 8),
    }
}

// The sides in words 0 and 1; the set and the reserved bytes in word 2, the set lowest.
pub(crate) fn chosen_at(w: &Words) -> Chosen
    ensures { result ≡ chosen_at w.now }
{
    let [set, reserved1, reserved2, reserved3, ..] = w[2].to_le_bytes();
    Chosen {
        width: lower_half(w[0]),
        height: lower_half(w[1]),
        set,
        reserved1,
        reserved2,
        reserved3,
    }
}

// The record in words 0 to 27.
#[tactic(auto, unfolding(crate::specs::Words::state_at))]
pub(crate) fn state_at(w: &Words) -> State
    ensures { result ≡ state_at w.now }
{
    State {
        chosen: chosen_at(w),
        taken: w[3],
        queued: w[4],
        len: w[5] as usize,
        head: w[6] as usize,
        used: w[7] as usize,
        front: last_at(w, 8),
        back: last_at(w, 18),
    }
}

// The ranges in words 28 to 35.
#[tactic(auto, unfolding(crate::specs::Words::ranges_at))]
pub(crate) fn ranges_at(w: &Words) -> Ranges
    ensures { result ≡ ranges_at w.now }
{
    Ranges {
        m: interval_at(w, 28),
        n: interval_at(w, 30),
        theta: interval_at(w, 32),
        t: interval_at(w, 34),
    }
}

// The length in a word, cut to what a table has room for.
fn length_at(w: &Words, at: usize, most: usize) -> usize
    requires { at < 2048 }
    ensures { result ≡ min (get_or w.now at 0) most }
{
    (w[at] as usize).min(most)
}

// Where what a call is lent ends: the ring, the verdicts, the picture and the other ring among the bytes, the cells among the words; and how many tile counts.
#[derive(Clone, Copy)]
pub(crate) struct Ends {
    pub ring: usize,
    pub cells: usize,
    pub verdicts: usize,
    pub picture: usize,
    pub other: usize,
    pub numbers: usize,
}

// By the lengths in words 36, 37, 38, 40, 106 and 107.
pub(crate) fn ends_at(w: &Words) -> Ends
    ensures { EndsInTables result }
{
    Ends {
        ring: length_at(w, 36, VERDICTS),
        cells: CELLS + length_at(w, 37, NUMBERS - CELLS),
        verdicts: VERDICTS + length_at(w, 38, PICTURE - VERDICTS),
        picture: PICTURE + length_at(w, 40, BYTES - PICTURE),
        other: VERDICTS + length_at(w, 106, 1024),
        numbers: length_at(w, 107, WORDS - NUMBERS),
    }
}

// The bounds of four parameters, by their bits.
fn parameter_words(m: Interval, n: Interval, theta: Interval, t: Interval) -> [u64; 8] {
    [
        bits_of(m.lower),
        bits_of(m.upper),
        bits_of(n.lower),
        bits_of(n.upper),
        bits_of(theta.lower),
        bits_of(theta.upper),
        bits_of(t.lower),
        bits_of(t.upper),
    ]
}

fn put_last(left: &mut Tables, at: usize, l: Last)
    requires { at ≤ 100 }
{
    left.put_all(at, &[l.x, l.y]);
    left.put_all(at + 2, &parameter_words(l.m, l.n, l.theta, l.t));
}

// The record, into words 0 to 27.
pub(crate) fn put_state(left: &mut Tables, s: State) {
    let p = s.chosen;
    let picture = [
        u64::from(p.width),
        u64::from(p.height),
        u64::from(u32::from_le_bytes([p.set, p.reserved1, p.reserved2, p.reserved3])),
    ];
    left.put_all(0, &picture);
    left.put_all(
        3,
        &[
            s.taken,
            s.queued,
            s.len as u64,
            s.head as u64,
            s.used as u64,
        ],
    );
    put_last(left, 8, s.front);
    put_last(left, 18, s.back);
}

// A block, into 13 words.
pub(crate) fn put_block(left: &mut Tables, at: usize, b: Block)
    requires { at ≤ 100 }
{
    let places = [
        b.x.index,
        u64::from(b.x.rank),
        b.y.index,
        u64::from(b.y.rank),
    ];
    left.put_all(at, &places);
    left.put_all(at + 4, &parameter_words(b.m, b.n, b.theta, b.t));
    left.put(at + 12, u64::from(b.dir));
}
