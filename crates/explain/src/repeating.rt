// The steps of a setup, repeated one by one on their tape, with notes about the pixel. By the engine's own step on a tape.
ghost use Rattle.std.specs.Prelude.{◌≡◌, true, ◌+◌, ◌*◌, ◌^◌, ◌≤◌, ◌<◌, leb, length};
ghost use Rattle.implicit.specs.Record.{pixel_count};
ghost use Rattle.implicit.specs.Step.{world_of};
ghost use Rattle.implicit.specs.Run.{run_from, empty_ending};
ghost use Rattle.explain.specs.NotesComputed.{no_notes};
ghost use Rattle.explain.specs.RepeatComputed.{BoundedBy, RepeatedTo, repeated_step, RepeatGone, RepeatTried, notes_after};

use crate::noting::{Notes, note_step};
use crate::pixel::Pixel;
use decide::Chosen;
use image::CellKind;
use implicit::{Ending, Finished, State};

// How far the repetition is: what a run has counted, and the notes.
#[derive(Clone, Copy)]
pub(crate) struct Repeated {
    pub state: State,
    pub steps: u64,
    pub evaluations: u64,
    pub tape: usize,
    pub notes: Notes,
}

// All steps: as many as asked for, fewer where the queue is empty or a step refuses. How far they came, and how they ended.
pub(crate) fn repeat_steps(
    s: State,
    ring: &mut [u8],
    cells: &mut [u64],
    tape: &[u8],
    budget: u32,
    pixel: Pixel,
) -> (Repeated, Ending)
    requires { leb (pixel_count s.chosen) (length cells.old) ≡ true }
    ensures repeated_to { RepeatedTo (run_from budget (world_of s ring.old cells.old) tape.now) result.0 result.1
        ring.new cells.new }
    ensures notes { result.0.notes ≡ notes_after pixel.column pixel.row budget (world_of s ring.old cells.old) tape.now 0 no_notes }
    ensures chosen { result.0.state.chosen ≡ s.chosen }
{
    let mut p = Repeated {
        state: s,
        steps: 0,
        evaluations: 0,
        tape: 0,
        notes: Notes::default(),
    };
    loop {
        match go_on(p, ring, cells, tape, budget, pixel) {
            Ok(next) => p = next,
            Err(ending) => return (p, ending),
        }
    }
}

// The tests of a run in their order, and the next step; or how the repetition ends here. The ring, the cells and the tape go one by one, as a struct of two
// mutable slices would be lent again at each call, and each contract would name its parts all the same.
fn go_on(
    p: Repeated,
    ring: &mut [u8],
    cells: &mut [u64],
    tape: &[u8],
    budget: u32,
    pixel: Pixel,
) -> Result<Repeated, Ending>
    requires { BoundedBy budget tape.now p × (leb (pixel_count p.state.chosen) (length cells.old) ≡ true) }
    ensures { RepeatGone budget pixel.column pixel.row p (world_of p.state ring.old cells.old) tape.now result
        ring.new cells.new }
{
    let s = p.state;
    if (s.taken == s.queued) & (s.used == 0) {
        return Err(empty_ending(s.chosen, cells));
    }
    if budget as u64 <= p.steps {
        return Err(Ending::More);
    }
    go_step(p, ring, cells, tape, pixel)
}

// How a run ends whose queue is empty.
fn empty_ending(p: Chosen, cells: &[u64]) -> Ending
    requires { leb (pixel_count p) (length cells.now) ≡ true }
    ensures { result ≡ empty_ending p cells.now }
{
    let all = image::whole(p.width, p.height);
    let given_up = image::rectangle_holds(cells, p.width, p.height, all, CellKind::GivenUp);
    if given_up.unwrap_or(false) {
        Ending::Limit
    } else {
        Ending::Done
    }
}

// The next step on the rest of the tape. What it does to the pixel is noted before it writes, and kept if it is finished.
fn go_step(
    p: Repeated,
    ring: &mut [u8],
    cells: &mut [u64],
    tape: &[u8],
    pixel: Pixel,
) -> Result<Repeated, Ending>
    requires { (p.tape ≤ length tape.now) × (p.steps < 2 ^ 32) × (p.evaluations ≤ 24 * p.steps) }
    ensures { RepeatTried pixel.column pixel.row p (world_of p.state ring.old cells.old) tape.now result
        ring.new cells.new }
{
    let at = p.tape;
    let notes = note_step(
        p.state,
        ring,
        cells,
        &tape[at..],
        p.steps + 1,
        pixel,
        p.notes,
    );
    match implicit::tape_step(p.state, ring, cells, &tape[at..]) {
        Ok(f) => Ok(add_step(p, f, notes)),
        Err(f) => Err(Ending::Stop(f.why)),
    }
}

fn add_step(p: Repeated, f: Finished, notes: Notes) -> Repeated
    requires { (p.steps < 2 ^ 32) × (p.evaluations + f.evaluations < 2 ^ 64) × (p.tape + f.verdicts < 2 ^ 64) }
    ensures { result ≡ repeated_step p f.state f.evaluations f.verdicts notes }
{
    Repeated {
        state: f.state,
        steps: p.steps + 1,
        evaluations: p.evaluations + f.evaluations,
        tape: p.tape + f.verdicts,
        notes,
    }
}
