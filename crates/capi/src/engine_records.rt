// The answers of the engine and of the leaves as records: the refusal's number first, and blank values beside it where something is refused.
ghost use Rattle.std.specs.Prelude.{◌≡◌};
ghost use Rattle.coordinate.specs.Axis.{level};
ghost use Rattle.refusal.specs.Number.{number};
ghost use Rattle.implicit.specs.Answers.{blank_state, stop_number, call_number};
ghost use Rattle.capi.specs.Engine.{coordinate_record, child_record, setup_record, children_record, list_record, no_children, step_record, ending_number, run_record, counts_record, needed_record, move_record};

use crate::records::{
    Child, Coordinate, Counted, Listed, Moved, Number, RANK_OF_LEVEL_0, Ran, Started, Stepped,
};
use decide::{Children, Chosen};
use implicit::{Ended, Ending, Finished, Refused, State, Tally};
use queue::{Block, starting_last};
use refusal::{Refusal, number_of};

// The refusal's number: a function, as no `From` can join two types that are not this crate's. So are the other numbers below.
pub(crate) fn refusal_number(why: Refusal) -> u64
    ensures { result ≡ number why }
{
    number_of(why) as u64
}

// A record of no picture, which every call refuses.
pub(crate) fn blank_state() -> State
    ensures { result ≡ blank_state }
{
    let last = starting_last();
    State {
        chosen: Chosen {
            width: 0,
            height: 0,
            set: 0,
            reserved1: 0,
            reserved2: 0,
            reserved3: 0,
        },
        taken: 0,
        queued: 0,
        len: 0,
        head: 0,
        used: 0,
        front: last,
        back: last,
    }
}

impl From<Result<State, Refusal>> for Started {
    ghost from_gives = { λ a r. r ≡ setup_record a };

    fn from(a: Result<State, Refusal>) -> Started {
        match a {
            Ok(state) => Started { refusal: 0, state },
            Err(why) => Started {
                refusal: refusal_number(why),
                state: blank_state(),
            },
        }
    }
}

// The bytes that a setup needs.
impl From<Result<usize, Refusal>> for Number {
    ghost from_gives = { λ a r. r ≡ needed_record a };

    fn from(a: Result<usize, Refusal>) -> Number {
        match a {
            Ok(count) => Number {
                refusal: 0,
                value: count as u64,
            },
            Err(why) => Number {
                refusal: refusal_number(why),
                value: 0,
            },
        }
    }
}

impl From<Result<State, Refused>> for Moved {
    ghost from_gives = { λ a r. r ≡ move_record a };

    fn from(a: Result<State, Refused>) -> Moved {
        match a {
            Ok(state) => Moved { refusal: 0, state },
            Err(r) => Moved {
                refusal: refusal_number(r.why),
                state: r.state,
            },
        }
    }
}

impl From<Result<Finished, Refused>> for Stepped {
    ghost from_gives = { λ a r. r ≡ step_record a };

    fn from(a: Result<Finished, Refused>) -> Stepped {
        match a {
            Ok(f) => Stepped {
                refusal: 0,
                evaluations: f.evaluations,
                tape: f.verdicts,
                state: f.state,
            },
            Err(r) => Stepped {
                refusal: refusal_number(r.why),
                evaluations: 0,
                tape: 0,
                state: r.state,
            },
        }
    }
}

// The ending's number. No `From`: `Ending` is of `implicit`.
pub(crate) fn ending_number(e: Ending) -> u64
    ensures { result ≡ ending_number e }
{
    match e {
        Ending::Done => 1,
        Ending::Limit => 2,
        Ending::More => 3,
        Ending::Stop(_) => 4,
    }
}

// The number of the refusal that stopped a run. A second number of an ending could be no `From` in any case.
fn stop_number(e: Ending) -> u64
    ensures { result ≡ stop_number e }
{
    match e {
        Ending::Done => 0,
        Ending::Limit => 0,
        Ending::More => 0,
        Ending::Stop(why) => refusal_number(why),
    }
}

impl From<Result<Ended, Refused>> for Ran {
    ghost from_gives = { λ a r. r ≡ run_record a };

    fn from(a: Result<Ended, Refused>) -> Ran {
        match a {
            Ok(e) => Ran {
                refusal: 0,
                ending: ending_number(e.ending),
                stop: stop_number(e.ending),
                steps: e.steps,
                evaluations: e.evaluations,
                tape: e.tape,
                state: e.state,
            },
            Err(r) => Ran {
                refusal: refusal_number(r.why),
                ending: 0,
                stop: 0,
                steps: 0,
                evaluations: 0,
                tape: 0,
                state: r.state,
            },
        }
    }
}

// The number of a call that answers nothing else. No `From`: `Result` and `u64` are not this crate's.
pub(crate) fn call_number(a: Result<(), Refusal>) -> u64
    ensures { result ≡ call_number a }
{
    match a {
        Ok(()) => 0,
        Err(why) => refusal_number(why),
    }
}

impl From<Result<Tally, Refusal>> for Counted {
    ghost from_gives = { λ a r. r ≡ counts_record a };

    fn from(a: Result<Tally, Refusal>) -> Counted {
        match a {
            Ok(counts) => Counted { refusal: 0, counts },
            Err(why) => Counted {
                refusal: refusal_number(why),
                counts: Tally {
                    trues: 0,
                    falses: 0,
                    uncertain: 0,
                    givenup: 0,
                    queued: 0,
                    share: 0,
                },
            },
        }
    }
}

// A coordinate with its level for its rank.
impl From<coordinate::Coordinate> for Coordinate {
    ghost from_gives = { λ c r. r ≡ coordinate_record c };

    fn from(c: coordinate::Coordinate) -> Coordinate {
        Coordinate {
            index: c.index,
            level: level_of(c.rank),
        }
    }
}

fn level_of(rank: u8) -> i32
    ensures { result ≡ level rank }
{
    rank as i32 - RANK_OF_LEVEL_0
}

impl From<Block> for Child {
    ghost from_gives = { λ b r. r ≡ child_record b };

    fn from(b: Block) -> Child {
        Child {
            x: b.x.into(),
            y: b.y.into(),
            m: b.m,
            n: b.n,
            theta: b.theta,
            t: b.t,
        }
    }
}

impl From<Result<Children, Refusal>> for Listed {
    ghost from_gives = { λ a r. r ≡ children_record a };

    fn from(a: Result<Children, Refusal>) -> Listed {
        match a {
            Ok(k) => list_record(0, k),
            Err(why) => list_record(refusal_number(why), no_children()),
        }
    }
}

// Four children, with the number of the refusal or 0. By place: an array's `map` first moves the blocks into an iterator, and asks for more proof.
fn list_record(refusal: u64, k: Children) -> Listed
    ensures { result ≡ list_record refusal k }
{
    let at = k.at;
    let first = at[0];
    let second = at[1];
    let third = at[2];
    let fourth = at[3];
    Listed {
        refusal,
        count: k.count,
        at: [first.into(), second.into(), third.into(), fourth.into()],
    }
}

// What stands in the places of children that are not listed.
fn no_children() -> Children
    ensures { result ≡ no_children }
{
    let c = coordinate::Coordinate { index: 0, rank: 0 };
    let b = Block {
        x: c,
        y: c,
        ..explain::blank_block()
    };
    Children {
        at: [b, b, b, b],
        count: 0,
    }
}
