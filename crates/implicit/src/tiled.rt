// Setup, step and filling with a table of tile counts beside the picture: document 02, (iv). Each is the call without a table, so that one body serves
// both: 17 and the cells of touched tiles are looked at before it, and what it touched is recounted after it.
ghost use Rattle.std.specs.Prelude.{◌≡◌, ◌&&◌, not, leb, length};
ghost use Rattle.tiles.specs.Tiles.{table_recounted};
ghost use Rattle.image.specs.Range.{whole_picture};
ghost use Rattle.decide.specs.Damage.{legal_side};
ghost use Rattle.implicit.specs.Record.{pixel_count, sound_record};
ghost use Rattle.implicit.specs.Setup.{cleared};
ghost use Rattle.implicit.specs.Step.{world_of};
ghost use Rattle.implicit.specs.View.{if_done};
ghost use Rattle.implicit.specs.Tiled.{room_for_tiles, tiled_setup_answer, tiled_ring_begun, tiled_cells_begun, table_begun};
ghost use Rattle.implicit.specs.Tiled.{tiled_step_of, tiled_step_with, TiledEndsAs, fill_answer, table_filled};
ghost use Rattle.implicit.specs.TiledComputed.{CleanIf, touch_of, touch_front, touch_block};

use crate::record::{is_sound, pixel_count};
use crate::setting_up::{begin, check_setup, clear};
use crate::state::{Finished, Ranges, Refused, State};
use crate::stepping::step_known;
use crate::view::examine;
use decide::{Chosen, is_legal_side};
use image::PixelRange;
use queue::Block;
use refusal::Refusal;

// Whether a table of so many numbers has four for each tile.
pub(crate) fn has_room_for_tiles(p: Chosen, room: usize) -> bool
    ensures { result ≡ room_for_tiles p room }
{
    4 * tiles::tile_count(p.width, p.height) <= room
}

// Begins a picture and fills the table: refused by 1, 2, 17, 3 or 6 it writes nothing.
pub fn setup_with_table(
    chosen: Chosen,
    ranges: Ranges,
    ring: &mut [u8],
    cells: &mut [u64],
    table: &mut [u32],
) -> Result<State, Refusal>
    ensures value { result ≡ tiled_setup_answer (cleared chosen) ranges (length ring.old) (length cells.old)
        (length table.old) }
    ensures ring_after { ring.new ≡ tiled_ring_begun (cleared chosen) ranges ring.old (length cells.old)
        (length table.old) }
    ensures cells_after { cells.new ≡ tiled_cells_begun (cleared chosen) ranges (length ring.old) cells.old
        (length table.old) }
    ensures table_after { table.new ≡ table_begun (cleared chosen) ranges (length ring.old) cells.old table.old }
{
    if is_table_short(chosen, cells.len(), table.len()) {
        return Err(Refusal::Table);
    }
    let p = clear(chosen);
    check_setup(p, ranges, ring.len(), cells.len())?;
    let s = begin(p, ranges, ring, cells);
    recount_all(p, 0, cells, table);
    Ok(s)
}

// Whether 17 applies to a setup: what comes before it, 1 and 2, does not.
fn is_table_short(p: Chosen, count: usize, room: usize) -> bool
    ensures { result ≡ ((legal_side p.width && legal_side p.height) && (leb (pixel_count p) count && not (room_for_tiles p room))) }
{
    (is_legal_side(p.width) & is_legal_side(p.height))
        & ((pixel_count(p) <= count) & !has_room_for_tiles(p, room))
}

// Recounts every tile, when so many blocks have been taken.
fn recount_all(p: Chosen, taken: u64, cells: &[u64], table: &mut [u32])
    ensures { table.new ≡ table_recounted p.width p.height (whole_picture p.width p.height) taken
        cells.now table.old }
{
    let all = image::whole(p.width, p.height);
    tiles::recount(cells, p.width, p.height, all, taken, table);
}

// One step, with a verdict for each child of the front block; the tiles that the block touches are recounted.
pub fn step_with_table(
    s: State,
    ring: &mut [u8],
    cells: &mut [u64],
    table: &mut [u32],
    verdicts: &[u8],
) -> Result<Finished, Refused>
    ensures { TiledEndsAs (world_of s ring.old cells.old) table.old
        (tiled_step_of (length table.old) (world_of s ring.old cells.old) verdicts.now) result ring.new
        cells.new table.new }
{
    let sound = is_sound(ring.len(), s);
    step_tiled(s, sound, false, ring, cells, table, verdicts, false)
}

// The same, single or on a tape, of a record that is known to be sound or not. Where no pixel's cell is damaged, `clean`, no tile's is looked at.
// The step's answer is handed on as it came: taken apart by `?` and made anew, it took 160 bytes of stack more.
pub(crate) fn step_tiled(
    s: State,
    sound: bool,
    clean: bool,
    ring: &mut [u8],
    cells: &mut [u64],
    table: &mut [u32],
    verdicts: &[u8],
    tape: bool,
) -> Result<Finished, Refused>
    requires { (sound ≡ sound_record (length ring.old) s) × CleanIf clean s.chosen cells.old }
    ensures { TiledEndsAs (world_of s ring.old cells.old) table.old
        (tiled_step_with tape (length table.old) (world_of s ring.old cells.old) verdicts.now) result
        ring.new cells.new table.new }
{
    match touch(s, sound, clean, ring, cells, table.len()) {
        Ok(r) => {
            let answer = step_known(s, sound, ring, cells, verdicts, tape);
            if let Ok(f) = answer {
                recount_touched(f.state, cells, r, table);
            }
            answer
        }
        Err(why) => Err(Refused { why, state: s }),
    }
}

// The pixels that a step's block covers, once it is not refused by 8 for the record, 2, 17, 13 or 8 for the cells.
fn touch(
    s: State,
    sound: bool,
    clean: bool,
    ring: &[u8],
    cells: &[u64],
    room: usize,
) -> Result<PixelRange, Refusal>
    requires { (sound ≡ sound_record (length ring.now) s) × CleanIf clean s.chosen cells.now }
    ensures { result ≡ touch_of room (world_of s ring.now cells.now) }
{
    if !sound {
        return Err(Refusal::Damaged);
    }
    if cells.len() < pixel_count(s.chosen) {
        return Err(Refusal::Cells);
    }
    if !has_room_for_tiles(s.chosen, room) {
        return Err(Refusal::Table);
    }
    touch_front(s, clean, ring, cells)
}

// The same by the front block alone.
fn touch_front(s: State, clean: bool, ring: &[u8], cells: &[u64]) -> Result<PixelRange, Refusal>
    requires { CleanIf clean s.chosen cells.now }
    ensures { result ≡ touch_front (world_of s ring.now cells.now) }
{
    if s.queued <= s.taken {
        return Err(Refusal::Empty);
    }
    let p = s.chosen;
    let read = queue::peek(ring, s.head, s.used, p.set, s.front)?;
    touch_block(p, clean, read.block, cells)
}

fn touch_block(p: Chosen, clean: bool, b: Block, cells: &[u64]) -> Result<PixelRange, Refusal>
    requires { CleanIf clean p cells.now }
    ensures { result ≡ touch_block p cells.now b }
{
    let r = image::rectangle(b.x, b.y, p.width, p.height);
    if clean {
        return Ok(r);
    }
    if tiles::holds_damage(cells, p.width, p.height, r).unwrap_or(true) {
        return Err(Refusal::Damaged);
    }
    Ok(r)
}

// The tiles that a finished step touched, recounted by the record that it leaves.
fn recount_touched(s: State, cells: &[u64], r: PixelRange, table: &mut [u32])
    ensures { table.new ≡ table_recounted s.chosen.width s.chosen.height r s.taken cells.now table.old }
{
    let p = s.chosen;
    tiles::recount(cells, p.width, p.height, r, s.taken, table);
}

// Fills a table from a record and its cells: refused by 8, 2, 17, or 8 for a cell, it writes nothing.
pub fn fill_table(s: State, cells: &[u64], table: &mut [u32]) -> Result<(), Refusal>
    ensures value { result ≡ fill_answer s cells.now (length table.old) }
    ensures table_after { table.new ≡ if_done result (table_filled s cells.now table.old) table.old }
{
    if is_filling_short(s, cells.len(), table.len()) {
        return Err(Refusal::Table);
    }
    examine(s, cells, pixel_count(s.chosen))?;
    recount_all(s.chosen, s.taken, cells, table);
    Ok(())
}

// Whether 17 applies to filling a table: what comes before it, 8 for the record and 2, does not.
fn is_filling_short(s: State, count: usize, room: usize) -> bool
    ensures { result ≡ (sound_record s.len s && (leb (pixel_count s.chosen) count && not (room_for_tiles s.chosen room))) }
{
    is_sound(s.len, s) & ((pixel_count(s.chosen) <= count) & !has_room_for_tiles(s.chosen, room))
}
