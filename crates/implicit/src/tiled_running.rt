// The run with a table of tile counts beside the picture: document 02, (iv). Its steps are the run's own, each with the tiles recounted that it touched.
// The loop stands beside the plain run's own: called from two places it was no longer compiled into the plain run, which took 5 to 10 % more
// (docs/DECISIONS.md, D147).
ghost use Rattle.std.specs.Prelude.{◌≡◌, true, ◌*◌, ◌^◌, ◌≤◌, ◌<◌, leb, length};
ghost use Rattle.implicit.specs.Record.{pixel_count, sound_record};
ghost use Rattle.implicit.specs.Step.{world_of};
ghost use Rattle.implicit.specs.RunComputed.{going_on, stopped, passed_to, SoundByUse, OnceGone, Tried, Bounded, RunTo};
ghost use Rattle.implicit.specs.Tiled.{table_after, tiled_run_from, table_run_from, tiled_run_of, TiledRunsAs};
ghost use Rattle.implicit.specs.TiledComputed.{CleanIf, looked_over, next_tiled, table_once};

use crate::record::{has_sound_use, is_empty, is_sound, pixel_count};
use crate::running::{Progress, add_step, empty_ending, report};
use crate::state::{Ended, Ending, Refused, State};
use crate::tiled::{has_room_for_tiles, step_tiled};
use crate::view::are_sound_cells;
use refusal::Refusal;

// Steps until the queue is empty, the budget is spent or a step refuses; each brings the table up to date.
pub fn run_with_table(
    s: State,
    ring: &mut [u8],
    cells: &mut [u64],
    table: &mut [u32],
    tape: &[u8],
    budget: u32,
) -> Result<Ended, Refused>
    ensures { TiledRunsAs budget (world_of s ring.old cells.old) tape.now table.old
        (tiled_run_of budget (length table.old) (world_of s ring.old cells.old) tape.now) result
        ring.new cells.new table.new }
{
    if !is_sound(ring.len(), s) {
        return Err(Refused {
            why: Refusal::Damaged,
            state: s,
        });
    }
    if cells.len() < pixel_count(s.chosen) {
        return Err(Refused {
            why: Refusal::Cells,
            state: s,
        });
    }
    if !has_room_for_tiles(s.chosen, table.len()) {
        return Err(Refused {
            why: Refusal::Table,
            state: s,
        });
    }
    let (p, ending) = take_tiled_steps(s, ring, cells, table, tape, budget);
    Ok(report(p, ending))
}

// All steps of the run: how far they came, and how they ended.
fn take_tiled_steps(
    s: State,
    ring: &mut [u8],
    cells: &mut [u64],
    table: &mut [u32],
    tape: &[u8],
    budget: u32,
) -> (Progress, Ending)
    requires { (leb (pixel_count s.chosen) (length cells.old) ≡ true) × (sound_record (length ring.old) s ≡ true) }
    ensures run_to { RunTo (tiled_run_from (length table.old) budget (world_of s ring.old cells.old)
        tape.now) (stopped result.0 result.1) ring.new cells.new }
    ensures table_after { table.new ≡ table_run_from budget (world_of s ring.old cells.old) tape.now
        table.old }
{
    let mut p = Progress {
        state: s,
        steps: 0,
        evaluations: 0,
        tape: 0,
    };
    let clean = is_clean(s, cells, budget);
    loop {
        match go_on_tiled(p, clean, ring, cells, table, tape, budget) {
            Ok(next) => p = next,
            Err(ending) => return (p, ending),
        }
    }
}

// The tests of a run in their order, and the next step; or how the run ends here.
fn go_on_tiled(
    p: Progress,
    clean: bool,
    ring: &mut [u8],
    cells: &mut [u64],
    table: &mut [u32],
    tape: &[u8],
    budget: u32,
) -> Result<Progress, Ending>
    requires { Bounded budget tape.now (going_on p) × (leb (pixel_count p.state.chosen) (length cells.old) ≡ true) × SoundByUse
        (length ring.old) p.state × CleanIf clean p.state.chosen cells.old }
    ensures once_gone { OnceGone budget (going_on p) (world_of p.state ring.old cells.old)
        (next_tiled (length table.old) (going_on p) ring.old cells.old tape.now) (passed_to p result)
        ring.new cells.new }
    ensures table_after { table.new ≡ table_once budget (going_on p) (world_of p.state ring.old cells.old)
        (next_tiled (length table.old) (going_on p) ring.old cells.old tape.now) table.old }
{
    if is_empty(p.state) {
        let s = p.state;
        return Err(empty_ending(s.chosen, cells));
    }
    if budget as u64 <= p.steps {
        return Err(Ending::More);
    }
    go_tiled_step(p, clean, ring, cells, table, tape)
}

// The next step, on the rest of the tape, with the tiles recounted that it touched.
fn go_tiled_step(
    p: Progress,
    clean: bool,
    ring: &mut [u8],
    cells: &mut [u64],
    table: &mut [u32],
    tape: &[u8],
) -> Result<Progress, Ending>
    requires { (p.tape ≤ length tape.now) × (p.steps < 2 ^ 32) × (p.evaluations ≤ 24 * p.steps) × SoundByUse (length ring.old)
        p.state × CleanIf clean p.state.chosen cells.old }
    ensures tried { Tried (going_on p) (world_of p.state ring.old cells.old)
        (next_tiled (length table.old) (going_on p) ring.old cells.old tape.now) (passed_to p result)
        ring.new cells.new }
    ensures table_after { table.new ≡ table_after (world_of p.state ring.old cells.old) table.old
        (next_tiled (length table.old) (going_on p) ring.old cells.old tape.now) }
{
    let at = p.tape;
    let sound = has_sound_use(p.state);
    match step_tiled(p.state, sound, clean, ring, cells, table, &tape[at..], true) {
        Ok(f) => Ok(add_step(p, f)),
        Err(f) => Err(Ending::Stop(f.why)),
    }
}

// Whether no pixel's cell is damaged: looked at once, where the steps would look at as many cells. What steps leave is then clean too.
fn is_clean(s: State, cells: &[u64], budget: u32) -> bool
    requires { leb (pixel_count s.chosen) (length cells.now) ≡ true }
    ensures { result ≡ looked_over budget s cells.now }
{
    let looked = 256 * budget as usize;
    if looked < pixel_count(s.chosen) {
        return false;
    }
    are_sound_cells(s, cells)
}
