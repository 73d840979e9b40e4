// What an explanation answers.
use implicit::{Ending, State};
use queue::Block;
use refusal::Refusal;

// A step of the run, and a child's place in it, among all its children; both count from 1. 0 is none and no Option, as is the point of a mark: so C's record
// has them, so they are printed, and so `last_mark`, `last_denial` and `last_giving_up` of specs/ define them.
#[repr(C)]
#[derive(Clone, Copy, Default)]
pub struct Moment {
    pub step: u64,
    pub child: u8,
}

// Why a pixel reads what it reads.
#[derive(Clone, Copy)]
pub enum Reason {
    // It is True: the child that marked it last, by its area verdict, for which `point` is 0, or by the sample point at this place.
    True {
        at: Moment,
        point: u8,
    },
    // It reads False: the step that took the last block that covers it, and the first covering child there answered false.
    False {
        at: Moment,
    },
    // It is given up: the last step that gave it up, and the first child there that found no direction.
    GivenUp {
        at: Moment,
    },
    // It waits: the number of the last queued block that covers it, how many stand before it, and the block.
    Waiting {
        number: u64,
        before: u64,
        block: Block,
    },
}

// The reason, after the finished steps, with what a run of them reports; or the number of the step that refused, with the same.
#[derive(Clone, Copy)]
pub enum Explanation {
    Of {
        reason: Reason,
        state: State,
        steps: u64,
        evaluations: u64,
        tape: usize,
        ending: Ending,
    },
    Stopped {
        why: Refusal,
        state: State,
        steps: u64,
        evaluations: u64,
        tape: usize,
    },
}
