// The record of a picture being refined, and what the entries answer.
use decide::Chosen;
use interval::Interval;
use queue::Last;
use refusal::Refusal;

// The record. What setup chose stays in `chosen`, which no step changes. Blocks are numbered in the order in which they are queued, from 0:
// `taken` is the number of the front block, `queued` that of the next new one. Of the ring's `len` bytes, `used` from `head` on hold the queue.
// `front` and `back` are the remembered values of the last block taken and of the last one queued.
#[repr(C)]
#[derive(Clone, Copy)]
pub struct State {
    pub chosen: Chosen,
    pub taken: u64,
    pub queued: u64,
    pub len: usize,
    pub head: usize,
    pub used: usize,
    pub front: Last,
    pub back: Last,
}

// The ranges that the parameters are given; those of parameters that are not used are not looked at.
#[repr(C)]
#[derive(Clone, Copy)]
pub struct Ranges {
    pub m: Interval,
    pub n: Interval,
    pub theta: Interval,
    pub t: Interval,
}

// Why a step, a run or a move was refused, with the record as it was given.
#[derive(Clone, Copy)]
pub struct Refused {
    pub why: Refusal,
    pub state: State,
}

// A finished step: the record it leaves, its evaluations and the verdict bytes it took.
#[derive(Clone, Copy)]
pub struct Finished {
    pub state: State,
    pub evaluations: u64,
    pub verdicts: usize,
}

// How a run ends.
#[derive(Clone, Copy)]
pub enum Ending {
    // The queue is empty and no pixel is given up.
    Done,
    // The queue is empty and a pixel is given up.
    Limit,
    // The budget is spent.
    More,
    // A step was refused.
    Stop(Refusal),
}

// A run that began: the record that its finished steps leave, their number, evaluations and tape bytes, and the ending.
#[derive(Clone, Copy)]
pub struct Ended {
    pub state: State,
    pub steps: u64,
    pub evaluations: u64,
    pub tape: usize,
    pub ending: Ending,
}

// Pixels by reading, given-up cells (these are uncertain too), queued blocks, and the settled pixels in thousandths.
#[repr(C)]
#[derive(Clone, Copy)]
pub struct Tally {
    pub trues: u64,
    pub falses: u64,
    pub uncertain: u64,
    pub givenup: u64,
    pub queued: u64,
    pub share: u64,
}
