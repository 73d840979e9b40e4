// Whether what a step queues fits: the numbers of the new blocks, and the room for their codes. Nothing is written.
ghost use Rattle.std.specs.Prelude.{◌≡◌, ◌+◌, ◌^◌, ◌≤◌};
ghost use Rattle.queue.specs.Queue.{measured};
ghost use Rattle.decide.specs.ChildAt.{child_of};
ghost use Rattle.decide.specs.Turn.{turned_to, turned_found};
ghost use Rattle.implicit.specs.StepComputed.{Four, with_code, sized_turn, sized_child};
ghost use Rattle.implicit.specs.StepComputed.{size_of, size_check, room_check};

use crate::deciding::Decided;
use crate::record::put_last;
use decide::{Chosen, Cut, Outcome, child_of, find_direction, start_of};
use plan::is_incomplete;
use queue::{Block, FOUR_CODES, Last, Measured};
use refusal::Refusal;

// How many children are queued so far, their bytes, and what is remembered of the last of them.
#[derive(Clone, Copy)]
struct Size {
    queued: u64,
    total: usize,
    last: Last,
}

// The numbers of the new blocks, and the room for them behind the bytes used.
// A code has at most 83 bytes: with room for four of that length, and numbers for four, nothing is measured.
pub(crate) fn check_room(
    p: Chosen,
    queued: u64,
    back: Last,
    len: usize,
    g: Decided,
) -> Result<(), Refusal>
    requires { (queued ≤ 2 ^ 32) × (g.used ≤ len) × Four g }
    ensures { result ≡ room_check p queued back len g }
{
    let room = len - g.used;
    if (FOUR_CODES <= room) & (queued <= 4294967292) {
        return Ok(());
    }
    check_size(queued, room, size_of(p, put_last(back), g))
}

// By what was measured.
fn check_size(queued: u64, room: usize, z: Size) -> Result<(), Refusal>
    requires { (queued ≤ 2 ^ 32) × (z.queued ≤ 4) }
    ensures { result ≡ size_check queued room z }
{
    if 4294967296 < queued + z.queued {
        return Err(Refusal::Numbers);
    }
    if room < z.total {
        return Err(Refusal::Room);
    }
    Ok(())
}

// How many children are queued, and their bytes, each coded against the one before.
fn size_of(p: Chosen, back: Last, g: Decided) -> Size
    requires { Four g }
    ensures { (result ≡ size_of p back g) × (result.queued ≤ 4) }
{
    let b = g.block;
    let k = g.cut;
    let j = g.judged;
    let start = start_of(p, b, j.incomplete);
    let mut z = Size {
        queued: 0,
        total: 0,
        last: back,
    };
    for i in 0..k.count {
        z = add_child(p, start, z, b, k, i, j.at[i]);
    }
    z
}

// A child by its outcome: only an incomplete one can be queued.
fn add_child(p: Chosen, start: u16, z: Size, b: Block, k: Cut, i: usize, o: Outcome) -> Size
    requires { (z.total ≤ 1000) × (z.queued ≤ 10) }
    ensures { (result ≡ sized_child p (turned_found p start) z (child_of k b i) o) × (result.total ≤ z.total + 83) × (result.queued ≤ z.queued + 1) }
{
    if !is_incomplete(o) {
        return z;
    }
    add_turned(p, start, z, child_of(k, b, i))
}

// A child that is to be queued, if it finds a direction.
fn add_turned(p: Chosen, start: u16, z: Size, c: Block) -> Size
    requires { (z.total ≤ 1000) × (z.queued ≤ 10) }
    ensures { (result ≡ sized_turn p.set z (turned_found p start c)) × (result.total ≤ z.total + 83) × (result.queued ≤ z.queued + 1) }
{
    match find_direction(p, c, start) {
        Some(dir) => add_code(p.set, z, turn_to(c, dir)),
        None => z,
    }
}

// The block with another direction byte.
fn turn_to(c: Block, dir: u8) -> Block
    ensures { result ≡ turned_to c dir }
{
    let mut t = c;
    t.dir = dir;
    t
}

// The bytes of one block more.
fn add_code(set: u8, z: Size, b: Block) -> Size
    requires { (z.total ≤ 1000) × (z.queued ≤ 10) }
    ensures { (result ≡ with_code z (measured set z.last b)) × (result.total ≤ z.total + 83) × (result.queued ≤ z.queued + 1) }
{
    match queue::measure(set, z.last, b) {
        Ok(Measured { count, last }) => Size {
            queued: z.queued + 1,
            total: z.total + count,
            last,
        },
        Err(_) => z,
    }
}
