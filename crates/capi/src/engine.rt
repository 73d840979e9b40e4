// The engine's entries, and what a caller asks before a setup: how many cells, and how long a ring.
ghost use Rattle.std.specs.Prelude.{◌≡◌, ◌&&◌, length};
ghost use Rattle.decide.specs.Damage.{legal_side};
ghost use Rattle.implicit.specs.Listing.{children_listed};
ghost use Rattle.implicit.specs.Room.{enough_ring};
ghost use Rattle.implicit.specs.Run.{run_of, run_answer, world_run};
ghost use Rattle.implicit.specs.Setup.{setup_answer, ring_begun, cells_begun, cleared, least_ring};
ghost use Rattle.implicit.specs.Step.{world_of, step_of, step_answer, world_after};
ghost use Rattle.implicit.specs.View.{picture_answer, picture_left, if_done, counts_answer};
ghost use Rattle.implicit.specs.Answers.{call_number};
ghost use Rattle.capi.specs.Engine.{setup_record, children_record, step_record, run_record, counts_record, cells_record, needed_record, MovesAcross};

use crate::engine_records::call_number;
use crate::records::{Counted, Listed, Moved, Number, Ran, Started, Stepped};
use decide::{Chosen, is_legal_side};
use implicit::{Ranges, State};

// How many cells a picture of these sides takes.
#[unsafe(no_mangle)]
pub extern "C" fn smyrilox_cells(width: u32, height: u32) -> Number
    ensures { result ≡ cells_record width height }
{
    if are_legal_sides(width, height) {
        return Number {
            refusal: 0,
            value: width as u64 * height as u64,
        };
    }
    Number {
        refusal: 1,
        value: 0,
    }
}

// Whether there are pictures with these sides.
pub(crate) fn are_legal_sides(width: u32, height: u32) -> bool
    ensures { result ≡ (legal_side width && legal_side height) }
{
    is_legal_side(width) & is_legal_side(height)
}

// The shortest ring with which a setup is not refused by 6; what later steps need is not promised.
#[unsafe(no_mangle)]
pub extern "C" fn smyrilox_least_ring(chosen: Chosen, ranges: Ranges) -> Number
    ensures { result ≡ needed_record (least_ring chosen ranges) }
{
    implicit::least_ring(chosen, ranges).into()
}

// A ring with which none of the first `steps` steps from the setup is refused by 6.
#[unsafe(no_mangle)]
pub extern "C" fn smyrilox_enough_ring(chosen: Chosen, ranges: Ranges, steps: u32) -> Number
    ensures { result ≡ needed_record (enough_ring chosen ranges steps) }
{
    implicit::enough_ring(chosen, ranges, steps).into()
}

// Begins a picture over a ring and cells.
#[unsafe(no_mangle)]
pub extern "C" fn smyrilox_setup(
    chosen: Chosen,
    ranges: Ranges,
    ring: &mut [u8],
    cells: &mut [u64],
) -> Started
    ensures value { result ≡ setup_record (setup_answer (cleared chosen) ranges (length ring.old) (length cells.old)) }
    ensures ring_after { ring.new ≡ ring_begun (cleared chosen) ranges ring.old cells.old }
    ensures cells_after { cells.new ≡ cells_begun (cleared chosen) ranges ring.old cells.old }
{
    implicit::setup(chosen, ranges, ring, cells).into()
}

// The children of the front block.
#[unsafe(no_mangle)]
pub extern "C" fn smyrilox_children(state: State, ring: &[u8]) -> Listed
    ensures { result ≡ children_record (children_listed state ring.now) }
{
    implicit::children(state, ring).into()
}

// One step, with a verdict for each child.
#[unsafe(no_mangle)]
pub extern "C" fn smyrilox_step(
    state: State,
    ring: &mut [u8],
    cells: &mut [u64],
    verdicts: &[u8],
) -> Stepped
    ensures value { result ≡ step_record (step_answer state (step_of (world_of state ring.old cells.old) verdicts.now)) }
    ensures ring_after { ring.new ≡ (world_after (world_of state ring.old cells.old) (step_of (world_of state ring.old cells.old) verdicts.now)).ring }
    ensures cells_after { cells.new ≡ (world_after (world_of state ring.old cells.old) (step_of (world_of state ring.old cells.old) verdicts.now)).cells }
{
    implicit::step(state, ring, cells, verdicts).into()
}

// Steps on a tape of verdicts.
#[unsafe(no_mangle)]
pub extern "C" fn smyrilox_run(
    state: State,
    ring: &mut [u8],
    cells: &mut [u64],
    tape: &[u8],
    budget: u32,
) -> Ran
    ensures value { result ≡ run_record (run_answer state (run_of budget (world_of state ring.old cells.old) tape.now)) }
    ensures ring_after { ring.new ≡ (world_run (world_of state ring.old cells.old) (run_of budget (world_of state ring.old cells.old) tape.now)).ring }
    ensures cells_after { cells.new ≡ (world_run (world_of state ring.old cells.old) (run_of budget (world_of state ring.old cells.old) tape.now)).cells }
{
    implicit::run(state, ring, cells, tape, budget).into()
}

// Moves the queue to another ring.
#[unsafe(no_mangle)]
pub extern "C" fn smyrilox_move_queue(state: State, ring: &[u8], other: &mut [u8]) -> Moved
    ensures { MovesAcross state ring.now other.old result other.new }
{
    implicit::move_queue(state, ring, other).into()
}

// The picture's bytes; the answer is the refusal, or 0.
#[unsafe(no_mangle)]
pub extern "C" fn smyrilox_picture(state: State, cells: &[u64], picture: &mut [u8]) -> u64
    ensures value { result ≡ call_number (picture_answer state cells.now (length picture.old)) }
    ensures picture_after { picture.new ≡ if_done (picture_answer state cells.now (length picture.old)) (picture_left state cells.now picture.old) picture.old }
{
    call_number(implicit::picture(state, cells, picture))
}

// The pixels by reading, and what else is counted.
#[unsafe(no_mangle)]
pub extern "C" fn smyrilox_counts(state: State, cells: &[u64]) -> Counted
    ensures { result ≡ counts_record (counts_answer state cells.now) }
{
    implicit::counts(state, cells).into()
}
