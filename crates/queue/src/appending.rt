// Appending a block: its code stored behind the bytes used.
ghost use Rattle.std.specs.Prelude.{◌≡◌, true, length, ◌+◌, ◌^◌, ◌≤◌, ◌<◌};
ghost use Rattle.queue.specs.Ring.{fits_ring};
ghost use Rattle.queue.specs.RingComputed.{straight_room};
ghost use Rattle.queue.specs.Ring.{stored_behind};
ghost use Rattle.queue.specs.CodeComputed.{place_codable, Written};
ghost use Rattle.queue.specs.Queue.{codable, code_of_kept, appended_code, appended, changed_by, appended_ring};

use super::code::{put_block, put_coordinate};
use super::kept::{as_queued, remember, remember_place};
use super::legal::{are_parameters_legal, is_place_codable};
use super::ring::{fits_ring, move_on, store};
use super::{Appended, Block, LONGEST_CODE, LONGEST_PLAIN_CODE, Last, QueueError};

// Appends a block behind the bytes used.
pub fn append(
    ring: &mut [u8],
    head: usize,
    used: usize,
    set: u8,
    back: Last,
    b: Block,
) -> Result<Appended, QueueError>
    ensures { (result ≡ appended (length ring.old) head used set back b) × (ring.new ≡ appended_ring ring.old head used set back b) }
{
    if !fits_ring(ring.len(), head, used) {
        return Err(QueueError::Outside);
    }
    if !is_place_codable(b.x, b.y, back.x, back.y) {
        return Err(QueueError::NotCodable);
    }
    if set % 16 == 0 {
        return append_place(ring, head, used, back, b);
    }
    append_used(ring, head, used, set, back, b)
}

// The same in a set without parameters, where head and use fit and the place can be coded.
fn append_place(
    ring: &mut [u8],
    head: usize,
    used: usize,
    back: Last,
    b: Block,
) -> Result<Appended, QueueError>
    requires { (fits_ring (length ring.old) head used ≡ true) × (codable 0 back b ≡ true) }
    ensures { (result ≡ appended (length ring.old) head used 0 back b) × (ring.new ≡ appended_ring ring.old head used 0 back b) }
{
    if is_straight(ring.len(), head, used) {
        return append_straight(ring, head, used, back, b);
    }
    append_across(ring, head, used, back, b)
}

// Whether the longest code of a place and a direction fits, and before the ring's end.
fn is_straight(len: usize, head: usize, used: usize) -> bool
    requires { (fits_ring len head used ≡ true) × (len < 2 ^ 63) }
    ensures { result ≡ straight_room 19 len head used }
{
    let from = move_on(len, head, used);
    (LONGEST_PLAIN_CODE <= len - from) & (LONGEST_PLAIN_CODE <= len - used)
}

// Then the code goes into the ring as it is made.
fn append_straight(
    ring: &mut [u8],
    head: usize,
    used: usize,
    back: Last,
    b: Block,
) -> Result<Appended, QueueError>
    requires { (fits_ring (length ring.old) head used ≡ true) × (codable 0 back b ≡ true) × (straight_room 19 (length ring.old) head used ≡ true) }
    ensures { (result ≡ appended (length ring.old) head used 0 back b) × (ring.new ≡ appended_ring ring.old head used 0 back b) }
{
    let from = move_on(ring.len(), head, used);
    let end = put_plain(ring, from, back, b);
    Ok(Appended {
        last: remember_place(b),
        used: used + (end - from),
    })
}

// Else it is made apart, and stored round the ring's end if there is room.
fn append_across(
    ring: &mut [u8],
    head: usize,
    used: usize,
    back: Last,
    b: Block,
) -> Result<Appended, QueueError>
    requires { (fits_ring (length ring.old) head used ≡ true) × (codable 0 back b ≡ true) }
    ensures { (result ≡ appended (length ring.old) head used 0 back b) × (ring.new ≡ appended_ring ring.old head used 0 back b) }
{
    let mut code = [0u8; LONGEST_PLAIN_CODE];
    let count = put_plain(&mut code, 0, back, b);
    append_code(ring, head, used, &code[..count], remember_place(b))
}

// The code of a place and a direction from a position on. Answers where it ends.
// Compiled into both its callers, so that the usual way stays short.
#[inline(always)]
fn put_plain(out: &mut [u8], at: usize, back: Last, b: Block) -> usize
    requires { (at + 19 ≤ length out.old) × (codable 0 back b ≡ true) }
    ensures { Written out.old at (code_of_kept 0 back b) result out.new }
{
    let middle = put_coordinate(out, at, back.x, b.x.index, b.x.rank);
    let end = put_coordinate(out, middle, back.y, b.y.index, b.y.rank);
    out[end] = b.dir;
    end + 1
}

// A block's code stored behind the bytes used, if there is room.
fn append_code(
    ring: &mut [u8],
    head: usize,
    used: usize,
    code: &[u8],
    last: Last,
) -> Result<Appended, QueueError>
    requires { fits_ring (length ring.old) head used ≡ true }
    ensures { (result ≡ appended_code (length ring.old) used code.now last) × (ring.new ≡ changed_by (appended_code (length ring.old) used code.now last) ring.old (stored_behind ring.old head used code.now)) }
{
    if ring.len() - used < code.len() {
        return Err(QueueError::NoRoom);
    }
    let from = move_on(ring.len(), head, used);
    store(ring, from, code);
    Ok(Appended {
        last,
        used: used + code.len(),
    })
}

// The same in any set, where head and use fit and the place can be coded.
fn append_used(
    ring: &mut [u8],
    head: usize,
    used: usize,
    set: u8,
    back: Last,
    b: Block,
) -> Result<Appended, QueueError>
    requires { (fits_ring (length ring.old) head used ≡ true) × (place_codable b.x b.y back.x back.y ≡ true) }
    ensures { (result ≡ appended (length ring.old) head used set back b) × (ring.new ≡ appended_ring ring.old head used set back b) }
{
    if !are_parameters_legal(set, b.m, b.n, b.theta, b.t) {
        return Err(QueueError::NotCodable);
    }
    append_kept(ring, head, used, set, back, b)
}

// The same where head and use fit and the block can be coded.
fn append_kept(
    ring: &mut [u8],
    head: usize,
    used: usize,
    set: u8,
    back: Last,
    b: Block,
) -> Result<Appended, QueueError>
    requires { (fits_ring (length ring.old) head used ≡ true) × (codable set back b ≡ true) }
    ensures { (result ≡ appended (length ring.old) head used set back b) × (ring.new ≡ appended_ring ring.old head used set back b) }
{
    let kept = as_queued(set, b);
    let mut code = [0u8; LONGEST_CODE];
    let count = put_block(&mut code, set, back, kept);
    append_code(ring, head, used, &code[..count], remember(kept))
}
