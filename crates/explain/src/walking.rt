// A queued block, found by reading the queue from its front. Nothing is taken from it.
ghost use Rattle.std.specs.Prelude.{◌≡◌};
ghost use Rattle.queue.specs.Answers.{blank_block, taken_block};
ghost use Rattle.implicit.specs.Listing.{front_of};
ghost use Rattle.explain.specs.Reasons.{block_behind};
ghost use Rattle.explain.specs.RepeatComputed.{taken_behind};

use coordinate::{Coordinate, PIXEL_RANK};
use implicit::State;
use queue::{Block, QueueError, Taken, whole_line};

// The queued block with so many before it; where the bytes on the way are damaged, a blank one.
pub(crate) fn block_behind(s: State, ring: &[u8], before: u64) -> Block
    ensures { result ≡ block_behind before ring.now s.chosen.set (front_of s ring.now) }
{
    let p = s.chosen;
    let mut t = queue::take(ring, s.head, s.used, p.set, s.front);
    for _i in 0..before {
        t = take_behind(ring, p.set, t);
    }
    block_of(t)
}

// What is taken after this.
fn take_behind(ring: &[u8], set: u8, t: Result<Taken, QueueError>) -> Result<Taken, QueueError>
    ensures { result ≡ taken_behind ring.now set t }
{
    let before = t?;
    queue::take(ring, before.head, before.used, set, before.last)
}

// No `map_or`: it would make the blank block each time.
fn block_of(t: Result<Taken, QueueError>) -> Block
    ensures { result ≡ taken_block t }
{
    match t {
        Ok(taken) => taken.block,
        Err(_) => blank_block(),
    }
}

// A block that stands where there is none. That in the places of children has its coordinates' ranks 0, and crosses to C so; it is made of this one.
pub fn blank_block() -> Block
    ensures { result ≡ blank_block }
{
    let c = Coordinate {
        index: 0,
        rank: PIXEL_RANK,
    };
    let all = whole_line();
    Block {
        x: c,
        y: c,
        m: all,
        n: all,
        theta: all,
        t: all,
        dir: 0,
    }
}
