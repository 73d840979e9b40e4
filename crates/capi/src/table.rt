// The engine's entries with a table of tile counts beside the picture, and how many tiles a picture has: document 02, (iv).
// Each answers the record of the call without a table.
ghost use Rattle.std.specs.Prelude.{◌≡◌, length};
ghost use Rattle.implicit.specs.Answers.{call_number};
ghost use Rattle.implicit.specs.Setup.{cleared};
ghost use Rattle.implicit.specs.Tiled.{fill_answer};
ghost use Rattle.capi.specs.Engine.{tile_count_record, setup_with_table, ring_set_up, cells_set_up, table_set_up};
ghost use Rattle.capi.specs.Engine.{step_with_table, world_stepped, table_stepped, run_with_table, world_taken, table_taken, table_left};

use crate::engine::are_legal_sides;
use crate::engine_records::call_number;
use crate::records::{Number, Ran, Started, Stepped};
use decide::Chosen;
use implicit::{Ranges, State};

// How many tiles a picture of these sides has: a table has four numbers for each.
#[unsafe(no_mangle)]
pub extern "C" fn smyrilox_tile_count(width: u32, height: u32) -> Number
    ensures { result ≡ tile_count_record width height }
{
    if are_legal_sides(width, height) {
        return Number {
            refusal: 0,
            value: tiles::tile_count(width, height) as u64,
        };
    }
    Number {
        refusal: 1,
        value: 0,
    }
}

// Begins a picture over a ring and cells, and fills the table.
#[unsafe(no_mangle)]
pub extern "C" fn smyrilox_setup_with_table(
    chosen: Chosen,
    ranges: Ranges,
    ring: &mut [u8],
    cells: &mut [u64],
    table: &mut [u32],
) -> Started
    ensures value { result ≡ setup_with_table (cleared chosen) ranges ring.old cells.old table.old }
    ensures ring_after { ring.new ≡ ring_set_up (cleared chosen) ranges ring.old cells.old table.old }
    ensures cells_after { cells.new ≡ cells_set_up (cleared chosen) ranges ring.old cells.old table.old }
    ensures table_after { table.new ≡ table_set_up (cleared chosen) ranges ring.old cells.old table.old }
{
    implicit::setup_with_table(chosen, ranges, ring, cells, table).into()
}

// One step, with a verdict for each child, which brings the table up to date.
#[unsafe(no_mangle)]
pub extern "C" fn smyrilox_step_with_table(
    state: State,
    ring: &mut [u8],
    cells: &mut [u64],
    table: &mut [u32],
    verdicts: &[u8],
) -> Stepped
    ensures value { result ≡ step_with_table state ring.old cells.old table.old verdicts.now }
    ensures ring_after { ring.new ≡ (world_stepped state ring.old cells.old table.old verdicts.now).ring }
    ensures cells_after { cells.new ≡ (world_stepped state ring.old cells.old table.old verdicts.now).cells }
    ensures table_after { table.new ≡ table_stepped state ring.old cells.old table.old verdicts.now }
{
    implicit::step_with_table(state, ring, cells, table, verdicts).into()
}

// Steps on a tape of verdicts, each of which brings the table up to date.
#[unsafe(no_mangle)]
pub extern "C" fn smyrilox_run_with_table(
    state: State,
    ring: &mut [u8],
    cells: &mut [u64],
    table: &mut [u32],
    tape: &[u8],
    budget: u32,
) -> Ran
    ensures value { result ≡ run_with_table budget state ring.old cells.old table.old tape.now }
    ensures ring_after { ring.new ≡ (world_taken budget state ring.old cells.old table.old tape.now).ring }
    ensures cells_after { cells.new ≡ (world_taken budget state ring.old cells.old table.old tape.now).cells }
    ensures table_after { table.new ≡ table_taken budget state ring.old cells.old table.old tape.now }
{
    implicit::run_with_table(state, ring, cells, table, tape, budget).into()
}

// Fills a table from a record and its cells; the answer is the refusal, or 0.
#[unsafe(no_mangle)]
pub extern "C" fn smyrilox_fill_table(state: State, cells: &[u64], table: &mut [u32]) -> u64
    ensures value { result ≡ call_number (fill_answer state cells.now (length table.old)) }
    ensures table_after { table.new ≡ table_left state cells.now table.old }
{
    call_number(implicit::fill_table(state, cells, table))
}
