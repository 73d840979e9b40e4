// The run: steps on a tape of verdicts until the queue is empty, the budget is spent or a step refuses. From the Rust's `refine`, whose clock is the budget here.
ghost use Rattle.std.specs.Prelude.{◌≡◌, true, ◌+◌, ◌*◌, ◌-◌, ◌^◌, ◌≤◌, ◌<◌, leb, length};
ghost use Rattle.implicit.specs.Record.{pixel_count, sound_record};
ghost use Rattle.implicit.specs.Step.{world_of};
ghost use Rattle.implicit.specs.Run.{RunsAs, run_of, run_from, empty_ending};
ghost use Rattle.implicit.specs.RunComputed.{going_on, stopped, passed_to, stepped, next_step, ended_by, SoundByUse, OnceGone, Tried, Bounded, RunTo};

use crate::record::{has_sound_use, is_empty, is_sound, pixel_count};
use crate::state::{Ended, Ending, Finished, Refused, State};
use crate::stepping::step_known;
use decide::Chosen;
use image::CellKind;
use refusal::Refusal;

// How far a run is: the record that its steps leave, and what they took.
#[derive(Clone, Copy)]
pub(crate) struct Progress {
    pub state: State,
    pub steps: u64,
    pub evaluations: u64,
    pub tape: usize,
}

// Steps until the queue is empty, the budget is spent or a step refuses.
pub fn run(
    s: State,
    ring: &mut [u8],
    cells: &mut [u64],
    tape: &[u8],
    budget: u32,
) -> Result<Ended, Refused>
    ensures { RunsAs (world_of s ring.old cells.old) (run_of budget (world_of s ring.old cells.old) tape.now) result ring.new cells.new }
{
    if !is_sound(ring.len(), s) {
        return Err(Refused {
            why: Refusal::Damaged,
            state: s,
        });
    }
    if cells.len() < pixel_count(s.chosen) {
        return Err(Refused {
            why: Refusal::Cells,
            state: s,
        });
    }
    let (p, ending) = take_steps(s, ring, cells, tape, budget);
    Ok(report(p, ending))
}

pub(crate) fn report(p: Progress, ending: Ending) -> Ended
    ensures { result ≡ ended_by (stopped p ending) }
{
    Ended {
        state: p.state,
        steps: p.steps,
        evaluations: p.evaluations,
        tape: p.tape,
        ending,
    }
}

// All steps of a run: how far they came, and how they ended.
fn take_steps(
    s: State,
    ring: &mut [u8],
    cells: &mut [u64],
    tape: &[u8],
    budget: u32,
) -> (Progress, Ending)
    requires { (leb (pixel_count s.chosen) (length cells.old) ≡ true) × (sound_record (length ring.old) s ≡ true) }
    ensures { RunTo (run_from budget (world_of s ring.old cells.old) tape.now) (stopped result.0 result.1) ring.new cells.new }
{
    let mut p = Progress {
        state: s,
        steps: 0,
        evaluations: 0,
        tape: 0,
    };
    loop {
        match go_on(p, ring, cells, tape, budget) {
            Ok(next) => p = next,
            Err(ending) => return (p, ending),
        }
    }
}

// The tests of a run in their order, and the next step; or how the run ends here.
fn go_on(
    p: Progress,
    ring: &mut [u8],
    cells: &mut [u64],
    tape: &[u8],
    budget: u32,
) -> Result<Progress, Ending>
    requires { Bounded budget tape.now (going_on p) × (leb (pixel_count p.state.chosen) (length cells.old) ≡ true) × SoundByUse (length ring.old) p.state }
    ensures { OnceGone budget (going_on p) (world_of p.state ring.old cells.old)
        (next_step (going_on p) ring.old cells.old tape.now) (passed_to p result) ring.new cells.new }
{
    if is_empty(p.state) {
        let s = p.state;
        return Err(empty_ending(s.chosen, cells));
    }
    if budget as u64 <= p.steps {
        return Err(Ending::More);
    }
    go_step(p, ring, cells, tape)
}

// How a run ends whose queue is empty.
pub(crate) fn empty_ending(p: Chosen, cells: &[u64]) -> Ending
    requires { leb (pixel_count p) (length cells.now) ≡ true }
    ensures { result ≡ empty_ending p cells.now }
{
    let all = image::whole(p.width, p.height);
    let given_up = image::rectangle_holds(cells, p.width, p.height, all, CellKind::GivenUp);
    if given_up.unwrap_or(false) {
        Ending::Limit
    } else {
        Ending::Done
    }
}

// The next step, on the rest of the tape. What the step before left is sound if its use is, so that only this is tested.
fn go_step(p: Progress, ring: &mut [u8], cells: &mut [u64], tape: &[u8]) -> Result<Progress, Ending>
    requires { (p.tape ≤ length tape.now) × (p.steps < 2 ^ 32) × (p.evaluations ≤ 24 * p.steps) × SoundByUse (length ring.old) p.state }
    ensures { Tried (going_on p) (world_of p.state ring.old cells.old)
        (next_step (going_on p) ring.old cells.old tape.now) (passed_to p result) ring.new cells.new }
{
    let at = p.tape;
    let sound = has_sound_use(p.state);
    match step_known(p.state, sound, ring, cells, &tape[at..], true) {
        Ok(f) => Ok(add_step(p, f)),
        Err(f) => Err(Ending::Stop(f.why)),
    }
}

pub(crate) fn add_step(p: Progress, f: Finished) -> Progress
    requires { (p.steps < 2 ^ 32) × (p.evaluations + f.evaluations < 2 ^ 64) × (p.tape + f.verdicts < 2 ^ 64) }
    ensures { going_on result ≡ stepped (going_on p) f.state f.evaluations f.verdicts }
{
    Progress {
        state: f.state,
        steps: p.steps + 1,
        evaluations: p.evaluations + f.evaluations,
        tape: p.tape + f.verdicts,
    }
}
