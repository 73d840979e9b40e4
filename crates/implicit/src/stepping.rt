// The step: take, decide, check the room, commit. From the Rust's `refine_impl`. All refusals are known before `commit`, the only writer, is called.
// The parts have their stack to themselves, since every kind of step calls them.
ghost use Rattle.std.specs.Prelude.{◌≡◌, ◌^◌, ◌≤◌, length};
ghost use Rattle.implicit.specs.Record.{sound_record};
ghost use Rattle.implicit.specs.Step.{world_of, step_with, step_of, tape_step_of, EndsAs};
ghost use Rattle.implicit.specs.StepComputed.{finished_by};

use crate::commit::{Behind, commit};
use crate::deciding::{Decided, decide};
use crate::fitting::check_room;
use crate::record::is_sound;
use crate::state::{Finished, Refused, State};
use queue::remember;

// One step, with a verdict for each child of the front block.
pub fn step(
    s: State,
    ring: &mut [u8],
    cells: &mut [u64],
    verdicts: &[u8],
) -> Result<Finished, Refused>
    ensures { EndsAs (world_of s ring.old cells.old) (step_of (world_of s ring.old cells.old)
        verdicts.now) result ring.new cells.new }
{
    let sound = is_sound(ring.len(), s);
    step_known(s, sound, ring, cells, verdicts, false)
}

// One step of a run, for callers that take a run's steps one by one: verdicts beyond those that it takes stay for the next.
pub fn tape_step(
    s: State,
    ring: &mut [u8],
    cells: &mut [u64],
    tape: &[u8],
) -> Result<Finished, Refused>
    ensures { EndsAs (world_of s ring.old cells.old) (tape_step_of (world_of s ring.old cells.old) tape.now)
        result ring.new cells.new }
{
    let sound = is_sound(ring.len(), s);
    step_known(s, sound, ring, cells, tape, true)
}

// One step, single or on a tape, of a record that is known to be sound or not. Compiled into each of its callers: a call of its own would take 1,072 bytes of
// stack more.
#[inline(always)]
pub(crate) fn step_known(
    s: State,
    sound: bool,
    ring: &mut [u8],
    cells: &mut [u64],
    verdicts: &[u8],
    tape: bool,
) -> Result<Finished, Refused>
    requires { sound ≡ sound_record (length ring.old) s }
    ensures { EndsAs (world_of s ring.old cells.old)
        (step_with tape (world_of s ring.old cells.old) verdicts.now) result ring.new cells.new }
{
    let p = s.chosen;
    let left = s.taken < s.queued;
    let g = match decide(
        p, sound, left, ring, s.head, s.used, s.front, cells, verdicts, tape,
    ) {
        Ok(g) => g,
        Err(why) => return Err(Refused { why, state: s }),
    };
    if let Err(why) = check_room(p, s.queued, s.back, ring.len(), g) {
        return Err(Refused { why, state: s });
    }
    let left = commit(p, s.taken, s.queued, s.back, ring, cells, g);
    Ok(finish(s, g, left))
}

// The record that the step leaves, with its evaluations and the verdict bytes that it took.
fn finish(s: State, g: Decided, left: Behind) -> Finished
    requires { s.taken ≤ 2 ^ 32 }
    ensures { result ≡ finished_by s left g }
{
    let state = State {
        chosen: s.chosen,
        taken: s.taken + 1,
        queued: left.queued,
        len: s.len,
        head: g.head,
        used: left.used,
        front: remember(g.block),
        back: left.back,
    };
    Finished {
        state,
        evaluations: g.judged.evaluations,
        verdicts: g.cut.count,
    }
}
