// What a call answered, into the words of the copy: 41 the answer, 0 or a refusal's number, 42 evaluations, 43 verdict bytes taken, 44 steps, 45 the ending (1
// done, 2 limit, 3 more, 100 and a refusal's number: stop), 46 to 51 the counts, 52 the number of children and from 53 on four blocks, 105 the bytes that a
// ring needs; the record in 0 to 27. A refusal leaves 42 to 51 and 105 as they were.
use crate::record::{put_block, put_state};
use crate::tables::Tables;
use coordinate::Coordinate;
use decide::Children;
use implicit::{Ended, Ending, Finished, Refused, Tally};
use queue::{Block, whole_line};
use refusal::Refusal;

pub(crate) fn put_refusal(left: &mut Tables, why: Refusal) {
    left.put(41, refusal::number_of(why) as u64);
}

// An answer: what was found, put by a function for it, or why nothing was.
pub(crate) fn put_answer<T, F: FnOnce(&mut Tables, T)>(
    left: &mut Tables,
    answer: Result<T, Refusal>,
    put_found: F,
)
    requires { F.IsAlwaysCallable put_found }
{
    match answer {
        Ok(found) => {
            left.put(41, 0);
            put_found(left, found);
        }
        Err(why) => put_refusal(left, why),
    }
}

// The same of a call that hands back the record where it is refused.
pub(crate) fn put_answer_or_state<T, F: FnOnce(&mut Tables, T)>(
    left: &mut Tables,
    answer: Result<T, Refused>,
    put_found: F,
)
    requires { F.IsAlwaysCallable put_found }
{
    if let Err(refused) = &answer {
        put_state(left, refused.state);
    }
    put_answer(left, answer.map_err(|refused| refused.why), put_found);
}

// That a call was done, or why not.
pub(crate) fn put_done(left: &mut Tables, answer: Result<(), Refusal>) {
    put_answer(left, answer, |_left, ()| ());
}

// The children of a front block; where they are refused, none, and blocks of rank 0.
pub(crate) fn put_listed(left: &mut Tables, answer: Result<Children, Refusal>) {
    put_children(left, answer.unwrap_or(no_children()));
    put_done(left, answer.map(|_| ()));
}

fn no_children() -> Children {
    let c = Coordinate { index: 0, rank: 0 };
    let all = whole_line();
    let b = Block {
        x: c,
        y: c,
        m: all,
        n: all,
        theta: all,
        t: all,
        dir: 0,
    };
    Children {
        at: [b; 4],
        count: 0,
    }
}

fn put_children(left: &mut Tables, kids: Children) {
    left.put(52, kids.count as u64);
    for (i, block) in kids.at.iter().enumerate() {
        put_block(left, 53 + 13 * i, *block);
    }
}

pub(crate) fn put_finished(left: &mut Tables, f: Finished) {
    put_state(left, f.state);
    left.put_all(42, &[f.evaluations, f.verdicts as u64]);
}

fn ending_number(ending: Ending) -> u64 {
    match ending {
        Ending::Done => 1,
        Ending::Limit => 2,
        Ending::More => 3,
        Ending::Stop(why) => 100 + refusal::number_of(why) as u64,
    }
}

// What a run left: the record, its sums and its ending.
pub(crate) fn put_ended(left: &mut Tables, e: Ended) {
    put_state(left, e.state);
    left.put_all(
        42,
        &[
            e.evaluations,
            e.tape as u64,
            e.steps,
            ending_number(e.ending),
        ],
    );
}

pub(crate) fn put_tally(left: &mut Tables, n: Tally) {
    left.put_all(
        46,
        &[n.trues, n.falses, n.uncertain, n.givenup, n.queued, n.share],
    );
}

pub(crate) fn put_needed(left: &mut Tables, bytes: usize) {
    left.put(105, bytes as u64);
}
