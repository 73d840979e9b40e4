// The block queue over a lent ring of bytes. Document 01, "The queue's bytes"; from the Rust's block.rs (`Block`, `BlockQueue`).
// Here stand the types and what other crates call: each function takes every number and every ring, and what cannot be done
// is an error that changes nothing.
#![tactic(auto)]

ghost use Rattle.std.specs.Prelude.{◌≡◌, length};
ghost use Rattle.queue.specs.Answers.{refusal_of};
ghost use Rattle.queue.specs.Queue.{taken, taken_by, copied, copied_ring};

use coordinate::Coordinate;
use interval::Interval;
use read::read_block;
use refusal::Refusal;
use ring::{fits_ring, move_on, store_stretches};

mod appending;
mod code;
mod directions;
mod kept;
mod legal;
mod length;
mod measuring;
mod read;
mod ring;

pub use appending::append;
pub use directions::{Direction, direction_at, direction_count, is_used, parameter_count};
pub use interval::whole_line;
pub use kept::{as_queued, is_integer, parameter_of, remember, starting_last, with_parameter};
pub use legal::are_parameters_legal;
pub use measuring::measure;
pub use ring::Stretches;

// The longest code of a block: two coordinates of 8 bytes and a level byte each, four parameters of 16, and the direction.
pub const LONGEST_CODE: usize = 83;
// The longest code where there are no parameters.
pub const LONGEST_PLAIN_CODE: usize = 19;
// As many bytes as four blocks can take.
pub const FOUR_CODES: usize = 332;

// A block: its square of the picture, its part of each parameter's range, and the place of its direction in the list of those in use.
#[repr(C)]
#[derive(Clone, Copy)]
pub struct Block {
    pub x: Coordinate,
    pub y: Coordinate,
    pub m: Interval,
    pub n: Interval,
    pub theta: Interval,
    pub t: Interval,
    pub dir: u8,
}

// The remembered values, which a block's code leans on: those of the last block queued, or of the last one taken.
#[repr(C)]
#[derive(Clone, Copy)]
pub struct Last {
    pub x: u64,
    pub y: u64,
    pub m: Interval,
    pub n: Interval,
    pub theta: Interval,
    pub t: Interval,
}

// Why the queue does not do what it is asked.
#[derive(Clone, Copy, Debug, PartialEq, Eq)]
pub enum QueueError {
    // The bytes used are no block's code.
    Damaged,
    // The head or the use does not fit the ring.
    Outside,
    // The new bytes do not fit: a code behind the bytes used, or those in the other ring.
    NoRoom,
    // The block cannot be queued, or a remembered index is none that a block has.
    NotCodable,
}

// The refusal that document 01 has for it.
impl From<QueueError> for Refusal {
    ghost from_gives = { λ why r. r ≡ refusal_of why };

    fn from(why: QueueError) -> Refusal {
        match why {
            QueueError::NoRoom => Refusal::Room,
            _ => Refusal::Damaged,
        }
    }
}

// The front block as it is read, and the head and the use once it is taken.
#[derive(Clone, Copy)]
pub struct Peeked {
    pub block: Block,
    pub head: usize,
    pub used: usize,
}

// The front block taken: what is remembered of it, and the head and the use afterwards.
#[derive(Clone, Copy)]
pub struct Taken {
    pub block: Block,
    pub last: Last,
    pub head: usize,
    pub used: usize,
}

// A block appended: what is remembered of it, and the use afterwards.
#[derive(Clone, Copy)]
pub struct Appended {
    pub last: Last,
    pub used: usize,
}

// How many bytes a block's code takes, and what is remembered once it is queued.
#[derive(Clone, Copy)]
pub struct Measured {
    pub count: usize,
    pub last: Last,
}

// Reads the front block: its bytes are free once the head and the use that it answers are kept. No byte changes.
// The ring, its head and its use come apart here and below: the engine's record, a C record, has head and use as its own fields.
pub fn peek(
    ring: &[u8],
    head: usize,
    used: usize,
    set: u8,
    front: Last,
) -> Result<Peeked, QueueError>
    ensures { taken_by result ≡ taken ring.now head used set front }
{
    if !fits_ring(ring.len(), head, used) {
        return Err(QueueError::Outside);
    }
    match read_block(Stretches::of(ring, head, used), set, front) {
        None => Err(QueueError::Damaged),
        Some((block, count)) => Ok(Peeked {
            block: by_fields(block),
            head: move_on(ring.len(), head, count),
            used: used - count,
        }),
    }
}

// The block field by field, so that no bytes between the fields are copied.
fn by_fields(b: Block) -> Block
    ensures { result ≡ b }
{
    let x = b.x;
    let y = b.y;
    let m = b.m;
    let n = b.n;
    let theta = b.theta;
    let t = b.t;
    Block {
        x: Coordinate {
            index: x.index,
            rank: x.rank,
        },
        y: Coordinate {
            index: y.index,
            rank: y.rank,
        },
        m,
        n,
        theta,
        t,
        dir: b.dir,
    }
}

// Takes the front block, with what is remembered of it.
pub fn take(
    ring: &[u8],
    head: usize,
    used: usize,
    set: u8,
    front: Last,
) -> Result<Taken, QueueError>
    ensures { result ≡ taken ring.now head used set front }
{
    let read = peek(ring, head, used, set, front)?;
    Ok(Taken {
        block: read.block,
        last: remember(read.block),
        head: read.head,
        used: read.used,
    })
}

// Copies the bytes used to another ring, longer or shorter, from its byte 0 on; the bytes behind them stay.
pub fn copy(ring: &[u8], head: usize, used: usize, other: &mut [u8]) -> Result<(), QueueError>
    ensures value { result ≡ copied (length ring.now) head used (length other.old) }
    ensures other_after { other.new ≡ copied_ring ring.now head used other.old }
{
    if !fits_ring(ring.len(), head, used) {
        return Err(QueueError::Outside);
    }
    if !fits_ring(other.len(), 0, used) {
        return Err(QueueError::NoRoom);
    }
    store_stretches(other, Stretches::of(ring, head, used));
    Ok(())
}
