// What stands in a record of the list, and when two values have the same bits.
ghost use Rattle.std.specs.Prelude.{◌≡◌, ◌+◌, ◌≤◌};
ghost use Rattle.replay_blocks.specs.Record.{interval_at, coordinate_at, block_at, last_at, same_bounds, same_place, same_block, same_last};

use coordinate::Coordinate;
use interval::{Interval, float_of};
use queue::{Block, Last};
use replay_lists::bytes::word_at;

// A record's bytes, with zeros behind them.
pub(crate) type Record = [u8; 256];

// Bounds as they stand, legal or not.
#[tactic(auto, unfolding(crate::specs::Record::interval_at))]
fn interval_at(rec: &Record, at: usize) -> Interval
    requires { at + 16 ≤ 256 }
    ensures { result ≡ interval_at rec.now at }
{
    Interval {
        lower: float_of(word_at(rec, at)),
        upper: float_of(word_at(rec, at + 8)),
    }
}

#[tactic(auto, unfolding(crate::specs::Record::coordinate_at))]
fn coordinate_at(rec: &Record, at: usize) -> Coordinate
    requires { at + 9 ≤ 256 }
    ensures { result ≡ coordinate_at rec.now at }
{
    Coordinate {
        index: word_at(rec, at),
        rank: rec[at + 8],
    }
}

// A block of 83 bytes: x and y with their ranks, four parameters, the direction.
#[tactic(auto, unfolding(crate::specs::Record::block_at))]
pub(crate) fn block_at(rec: &Record, at: usize) -> Block
    requires { at + 83 ≤ 256 }
    ensures { result ≡ block_at rec.now at }
{
    Block {
        x: coordinate_at(rec, at),
        y: coordinate_at(rec, at + 9),
        m: interval_at(rec, at + 18),
        n: interval_at(rec, at + 34),
        theta: interval_at(rec, at + 50),
        t: interval_at(rec, at + 66),
        dir: rec[at + 82],
    }
}

// What is remembered, 80 bytes: the indices of x and y, four parameters.
#[tactic(auto, unfolding(crate::specs::Record::last_at))]
pub(crate) fn last_at(rec: &Record, at: usize) -> Last
    requires { at + 80 ≤ 256 }
    ensures { result ≡ last_at rec.now at }
{
    Last {
        x: word_at(rec, at),
        y: word_at(rec, at + 8),
        m: interval_at(rec, at + 16),
        n: interval_at(rec, at + 32),
        theta: interval_at(rec, at + 48),
        t: interval_at(rec, at + 64),
    }
}

// Whether two intervals have the same bits. `==` on floats would not do: it takes one zero for the other, and a NaN for another number than itself.
fn same_bounds(a: Interval, b: Interval) -> bool
    ensures { result ≡ same_bounds a b }
{
    (interval::bits_of(a.lower) == interval::bits_of(b.lower))
        & (interval::bits_of(a.upper) == interval::bits_of(b.upper))
}

fn same_place(a: Coordinate, b: Coordinate) -> bool
    ensures { result ≡ same_place a b }
{
    (a.index == b.index) & (a.rank == b.rank)
}

#[tactic(auto, unfolding(crate::specs::Record::same_block))]
pub(crate) fn same_block(a: Block, b: Block) -> bool
    ensures { result ≡ same_block a b }
{
    same_place(a.x, b.x)
        & same_place(a.y, b.y)
        & same_bounds(a.m, b.m)
        & same_bounds(a.n, b.n)
        & same_bounds(a.theta, b.theta)
        & same_bounds(a.t, b.t)
        & (a.dir == b.dir)
}

#[tactic(auto, unfolding(crate::specs::Record::same_last))]
pub(crate) fn same_last(a: Last, b: Last) -> bool
    ensures { result ≡ same_last a b }
{
    (a.x == b.x)
        & (a.y == b.y)
        & same_bounds(a.m, b.m)
        & same_bounds(a.n, b.n)
        & same_bounds(a.theta, b.theta)
        & same_bounds(a.t, b.t)
}
