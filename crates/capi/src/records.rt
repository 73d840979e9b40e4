// What crosses besides the engine's own records `State`, `Ranges`, `Tally` and `Interval`, and `Plot` with its parts.
use boxes::Edges;
use implicit::{State, Tally};
use interval::Interval;

// What a rank is more than its level.
pub(crate) const RANK_OF_LEVEL_0: i32 = 48;
// The lowest level that has a rank.
pub(crate) const LOWEST_LEVEL: i32 = -48;

// A coordinate: an index, and the document's level k.
#[repr(C)]
#[derive(Clone, Copy)]
pub struct Coordinate {
    pub index: u64,
    pub level: i32,
}

// A child of the front block, as an evaluator is asked about it.
#[repr(C)]
#[derive(Clone, Copy)]
pub struct Child {
    pub x: Coordinate,
    pub y: Coordinate,
    pub m: Interval,
    pub n: Interval,
    pub theta: Interval,
    pub t: Interval,
}

// A setup's answer.
#[repr(C)]
#[derive(Clone, Copy)]
pub struct Started {
    pub refusal: u64,
    pub state: State,
}

// A move's answer.
#[repr(C)]
#[derive(Clone, Copy)]
pub struct Moved {
    pub refusal: u64,
    pub state: State,
}

// The children listed, the first `count` of four.
#[repr(C)]
#[derive(Clone, Copy)]
pub struct Listed {
    pub refusal: u64,
    pub count: usize,
    pub at: [Child; 4],
}

// A step's answer.
#[repr(C)]
#[derive(Clone, Copy)]
pub struct Stepped {
    pub refusal: u64,
    pub evaluations: u64,
    pub tape: usize,
    pub state: State,
}

// A run's answer: the ending is 1 done, 2 limit, 3 more, 4 stop, and `stop` the refusal that stopped it.
#[repr(C)]
#[derive(Clone, Copy)]
pub struct Ran {
    pub refusal: u64,
    pub ending: u64,
    pub stop: u64,
    pub steps: u64,
    pub evaluations: u64,
    pub tape: usize,
    pub state: State,
}

// The counts' answer.
#[repr(C)]
#[derive(Clone, Copy)]
pub struct Counted {
    pub refusal: u64,
    pub counts: Tally,
}

// A number, or 1 for yes and 0 for no.
#[repr(C)]
#[derive(Clone, Copy)]
pub struct Number {
    pub refusal: u64,
    pub value: u64,
}

// A point of an interval.
#[repr(C)]
#[derive(Clone, Copy)]
pub struct Point {
    pub refusal: u64,
    pub value: f64,
}

// The pieces of a cut, the first `count` of three.
#[repr(C)]
#[derive(Clone, Copy)]
pub struct Pieces {
    pub refusal: u64,
    pub count: usize,
    pub at: [Interval; 3],
}

// A small number's code: the head byte, then the `count` low bytes of `tail`, lowest first.
#[repr(C)]
#[derive(Clone, Copy)]
pub struct Code {
    pub refusal: u64,
    pub head: u8,
    pub tail: u64,
    pub count: usize,
}

// A small number read, and how many bytes its code took.
#[repr(C)]
#[derive(Clone, Copy)]
pub struct Read {
    pub refusal: u64,
    pub value: u64,
    pub count: usize,
}

// The halves of a coordinate.
#[repr(C)]
#[derive(Clone, Copy)]
pub struct Halved {
    pub refusal: u64,
    pub low: Coordinate,
    pub high: Coordinate,
}

// A block's box: its edges, and the intervals along x and y, from level 0 down narrowed.
#[repr(C)]
#[derive(Clone, Copy)]
pub struct Boxed {
    pub refusal: u64,
    pub edges: Edges,
    pub x: Interval,
    pub y: Interval,
}

// An explanation's answer: the reason is 1 true, 2 false, 3 given up, 4 waiting, and 0 where there is none; what does not apply is blank.
#[repr(C)]
#[derive(Clone, Copy)]
pub struct Explained {
    pub refusal: u64,
    pub reason: u64,
    pub step: u64,
    pub child: u64,
    pub point: u64,
    pub number: u64,
    pub before: u64,
    pub block: Child,
    pub direction: u64,
    pub ending: u64,
    pub steps: u64,
    pub evaluations: u64,
    pub tape: usize,
    pub state: State,
}
