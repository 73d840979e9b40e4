// Room for the queue: a ring that is enough for so many steps, and a move to another ring. Added to document 01; the Rust's queue grows by itself.
ghost use Rattle.std.specs.Prelude.{◌≡◌, ◌≤◌};
ghost use Rattle.implicit.specs.Room.{step_growth, enough_ring};
ghost use Rattle.implicit.specs.Move.{moved_record, MovesAs};

use crate::record::is_sound;
use crate::setting_up::least_ring;
use crate::state::{Ranges, Refused, State};
use decide::Chosen;
use queue::parameter_count;
use refusal::Refusal;

// A ring with which none of the first `steps` steps from the setup is refused for room, whatever the verdicts.
pub fn enough_ring(chosen: Chosen, ranges: Ranges, steps: u32) -> Result<usize, Refusal>
    ensures { result ≡ enough_ring chosen ranges steps }
{
    let first = least_ring(chosen, ranges)?;
    Ok(first + steps as usize * step_growth(chosen.set))
}

// What a step adds to the bytes used, at most.
fn step_growth(set: u8) -> usize
    ensures value { result ≡ step_growth set }
    ensures upper_bound { result ≤ 122 }
{
    let count = parameter_count(set) as usize;
    if count == 0 {
        return 27;
    }
    50 + 18 * count
}

// Moves the queue to another ring, longer or shorter: its bytes are copied from byte 0 on. The answer's record goes with the other ring; the old one stays.
pub fn move_queue(s: State, ring: &[u8], other: &mut [u8]) -> Result<State, Refused>
    ensures { MovesAs s ring.now other.old result other.new }
{
    if !is_sound(ring.len(), s) {
        return Err(Refused {
            why: Refusal::Damaged,
            state: s,
        });
    }
    let len = other.len();
    match queue::copy(ring, s.head, s.used, other) {
        Ok(()) => Ok(move_record(s, len)),
        Err(why) => Err(Refused {
            why: Refusal::from(why),
            state: s,
        }),
    }
}

// The record over a ring of so many bytes, with byte 0 as its head.
fn move_record(s: State, len: usize) -> State
    ensures { result ≡ moved_record s len }
{
    let mut t = s;
    t.len = len;
    t.head = 0;
    t
}
