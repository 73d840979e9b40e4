// A block's parameters by direction, the block as the queue keeps it, and what is remembered of it.
ghost use Rattle.std.specs.Prelude.{◌≡◌};
ghost use Rattle.queue.specs.Directions.{in_use};
ghost use Rattle.queue.specs.Block.{is_integer, parameter_of, with_parameter, recalled, as_queued};
ghost use Rattle.queue.specs.Block.{as_queued_at, remembered, starting_last};

use super::directions::{Direction, is_used};
use super::{Block, Last};
use interval::{Interval, whole_line};

// Whether a direction is an integer parameter.
pub fn is_integer(d: Direction) -> bool
    ensures { result ≡ is_integer d }
{
    matches!(d, Direction::M | Direction::N | Direction::Theta)
}

// A block's parameter; the whole line where the direction is none.
pub fn parameter_of(b: Block, d: Direction) -> Interval
    ensures { result ≡ parameter_of b d }
{
    match d {
        Direction::XY => whole_line(),
        Direction::M => b.m,
        Direction::N => b.n,
        Direction::Theta => b.theta,
        Direction::T => b.t,
    }
}

// The block with another interval for a parameter; the block itself where the direction is none.
pub fn with_parameter(b: Block, d: Direction, p: Interval) -> Block
    ensures { result ≡ with_parameter b d p }
{
    match d {
        Direction::XY => b,
        Direction::M => Block { m: p, ..b },
        Direction::N => Block { n: p, ..b },
        Direction::Theta => Block { theta: p, ..b },
        Direction::T => Block { t: p, ..b },
    }
}

// What is remembered of a parameter; the whole line where the direction is none.
pub(crate) fn recall(last: Last, d: Direction) -> Interval
    ensures { result ≡ recalled last d }
{
    match d {
        Direction::XY => whole_line(),
        Direction::M => last.m,
        Direction::N => last.n,
        Direction::Theta => last.theta,
        Direction::T => last.t,
    }
}

// The block as the queue keeps it: used parameters with their zeros put, unused ones the whole line.
#[tactic(auto, unfolding(crate::specs::Block::as_queued))]
pub fn as_queued(set: u8, b: Block) -> Block
    ensures { result ≡ as_queued set b }
{
    Block {
        m: as_queued_one(set, Direction::M, b.m),
        n: as_queued_one(set, Direction::N, b.n),
        theta: as_queued_one(set, Direction::Theta, b.theta),
        t: as_queued_one(set, Direction::T, b.t),
        ..b
    }
}

// One parameter of it.
fn as_queued_one(set: u8, d: Direction, p: Interval) -> Interval
    ensures { result ≡ as_queued_at (in_use set d) p }
{
    if is_used(set, d) {
        interval::put(p)
    } else {
        whole_line()
    }
}

// What is remembered once a block was queued, or taken.
#[tactic(auto, unfolding(crate::specs::Block::remembered))]
pub fn remember(b: Block) -> Last
    ensures { result ≡ remembered b }
{
    Last {
        x: b.x.index,
        y: b.y.index,
        m: b.m,
        n: b.n,
        theta: b.theta,
        t: b.t,
    }
}

// The same in a set without parameters: only the place is looked at.
#[tactic(auto, unfolding(crate::specs::Block::remembered, crate::specs::Block::as_queued, crate::specs::Block::starting_last))]
pub(crate) fn remember_place(b: Block) -> Last
    ensures { result ≡ remembered (as_queued 0 b) }
{
    Last {
        x: b.x.index,
        y: b.y.index,
        ..starting_last()
    }
}

// What is remembered before the first block.
#[tactic(auto, unfolding(crate::specs::Block::starting_last))]
pub fn starting_last() -> Last
    ensures { result ≡ starting_last }
{
    let line = whole_line();
    Last {
        x: 0,
        y: 0,
        m: line,
        n: line,
        theta: line,
        t: line,
    }
}
