// The call that explains a pixel. Word 108 has the column, 109 the row from the top; the answer's words are 41 to 45 as of a run (41 also the number of a step
// that refused on the way), 110 the reason (0 none, 1 true, 2 false, 3 given up, 4 waiting), 111 the step, 112 the child, 113 the point, 114 the number of the
// block that the pixel waits for, 115 the blocks before it, from 53 on that block. What does not apply stays as it was.
use crate::answers::{put_answer, put_ended, put_refusal};
use crate::calls::{lent, verdicts_of};
use crate::record::{COLUMN, ROW, STEPS, chosen_at, put_block, ranges_at};
use crate::tables::Tables;
use explain::{Explanation, Moment, Reason, explain};
use implicit::{Ended, Ending};
use queue::Block;
use replay_lists::words::lower_half;

fn put_moment(left: &mut Tables, kind: u64, at: Moment) {
    left.put(110, kind);
    left.put(111, at.step);
    left.put(112, at.child as u64);
}

fn put_waiting(left: &mut Tables, number: u64, before: u64, block: Block) {
    left.put(110, 4);
    left.put(114, number);
    left.put(115, before);
    put_block(left, 53, block);
}

fn put_reason(left: &mut Tables, reason: Reason) {
    match reason {
        Reason::True { at, point } => {
            put_moment(left, 1, at);
            left.put(113, point as u64);
        }
        Reason::False { at } => put_moment(left, 2, at),
        Reason::GivenUp { at } => put_moment(left, 3, at),
        Reason::Waiting {
            number,
            before,
            block,
        } => put_waiting(left, number, before, block),
    }
}

fn put_explanation(left: &mut Tables, answer: Explanation) {
    match answer {
        Explanation::Of {
            reason,
            state,
            steps,
            evaluations,
            tape,
            ending,
        } => {
            put_ended(
                left,
                Ended {
                    state,
                    steps,
                    evaluations,
                    tape,
                    ending,
                },
            );
            put_reason(left, reason);
        }
        Explanation::Stopped {
            why,
            state,
            steps,
            evaluations,
            tape,
        } => {
            let ending = Ending::Stop(why);
            put_ended(
                left,
                Ended {
                    state,
                    steps,
                    evaluations,
                    tape,
                    ending,
                },
            );
            put_refusal(left, why);
            left.put(110, 0);
        }
    }
}

pub(crate) fn play_explain(given: &Tables, left: &mut Tables) {
    let chosen = chosen_at(&given.words);
    let ranges = ranges_at(&given.words);
    let tape = verdicts_of(given);
    let steps = lower_half(given.words[STEPS]);
    let column = lower_half(given.words[COLUMN]);
    let row = lower_half(given.words[ROW]);
    let answer = lent(given, left, |ring, cells| {
        explain(chosen, ranges, ring, cells, tape, steps, column, row)
    });
    put_answer(left, answer, put_explanation);
}
