// A rectangle's cells, row by row: each loop is a plain count over the part of the cells that is one row of it.
// The rectangle lies in the picture and every pixel has a cell, which the callers have tested.
ghost use Rattle.std.specs.Prelude.{◌≡◌, true, [], ◌∷◌, map, ℕ, ◌+◌, ◌-◌, ◌/◌, ◌%◌, ◌≤◌, ◌<◌, length};
ghost use Rattle.image.specs.Cell.{meaning_of, meanings, codes, of_kind, tallied};
ghost use Rattle.image.specs.RowsComputed.{touched, ReadyRows, tile_shaped, tally_sum, SmallTally, packed_tally, unpacked_tally};
ghost use Rattle.image.specs.RowsComputed.{settled_weight, false_weight, untaken_tally};
ghost use Rattle.image.specs.Painting.{painted, held_cells, some_of};

use crate::region::Region;
use crate::{CellKind, CellTally, GIVEN_UP, Op, PixelRange, Reading, TRUE, read_cell};

// By the rows' numbers: each makes the slice that is lent.
pub(crate) fn paint_rows(cells: &mut [u64], width: usize, r: PixelRange, op: Op)
    requires { ReadyRows width r (length cells.old) }
    ensures { cells.new ≡ codes (painted width r op (meanings cells.old)) }
{
    let left = r.left;
    let right = r.right;
    let bottom = r.bottom;
    for row in r.top..bottom {
        let start = row * width + left;
        let end = row * width + right;
        paint_row(&mut cells[start..end], op);
    }
}

fn paint_row(row: &mut [u64], op: Op)
    ensures { row.new ≡ map (touched op) row.old }
{
    match op {
        Op::Mark => fill_row(row, TRUE),
        Op::Name { from, to } => name_row(row, from, to),
        Op::GiveUp => fill_row(row, GIVEN_UP),
        Op::Fill { to } => fill_row(row, to),
    }
}

// A loop and not `fill`, which takes a fifth more instructions for a row of 16 cells and more for shorter ones.
fn fill_row(row: &mut [u64], code: u64)
    ensures { row.new ≡ map (λ (n : ℕ). code) row.old }
{
    for cell in row.iter_mut() {
        *cell = code;
    }
}

fn name_row(row: &mut [u64], from: u64, to: u64)
    ensures { row.new ≡ map (touched (Op.Name from to)) row.old }
{
    for cell in row.iter_mut() {
        *cell = name_cell(*cell, from, to);
    }
}

fn name_cell(cell: u64, from: u64, to: u64) -> u64
    ensures { result ≡ touched (Op.Name from to) cell }
{
    if (from <= cell) & (cell < TRUE) {
        to
    } else {
        cell
    }
}

// Row by row. With `TILE` the compiler writes out each pass over a row of sixteen cells, which is fastest for the rows of a tile; without, this is
// compiled into its callers, which look at one cell at a time.
pub(crate) fn find_in_rows<const TILE: bool>(v: Region<'_>, kind: CellKind) -> bool
    ensures { result ≡ some_of (of_kind kind) (held_cells v.entry.width v.entry.r (meanings v.entry.cells.now)) }
{
    for row in v.r.top..v.r.bottom {
        if find_in_one::<TILE>(v.row(row), kind) {
            return true;
        }
    }
    false
}

fn find_in_one<const TILE: bool>(row: &[u64], kind: CellKind) -> bool
    ensures { result ≡ some_of (of_kind kind) (meanings row.now) }
{
    if TILE {
        if let Some(sixteen) = row.as_array::<16>() {
            return find_in_row(sixteen, kind);
        }
    }
    find_in_row(row, kind)
}

// A loop and not `any`, which takes six instructions a cell where this takes five.
pub(crate) fn find_in_row(row: &[u64], kind: CellKind) -> bool
    ensures { result ≡ some_of (of_kind kind) (meanings row.now) }
{
    for cell in row {
        if is_of(kind, *cell) {
            return true;
        }
    }
    false
}

fn is_of(kind: CellKind, cell: u64) -> bool
    ensures { result ≡ of_kind kind (meaning_of cell) }
{
    match kind {
        CellKind::Unmarked => cell != TRUE,
        CellKind::GivenUp => cell == GIVEN_UP,
        CellKind::Damaged => GIVEN_UP < cell,
    }
}

// The rows of a tile are counted together, other rows one by one.
pub(crate) fn count_rectangle(v: Region<'_>, taken: u64) -> CellTally
    ensures { result ≡ tallied taken (held_cells v.entry.width v.entry.r (meanings v.entry.cells.now)) }
{
    if is_tile_shaped(v) & (0 < taken) & (taken < TRUE) {
        return count_tile(v, (taken - 1) as u32);
    }
    count_others(v, taken)
}

// A tile at the start of a picture, and what is no tile.
fn count_others(v: Region<'_>, taken: u64) -> CellTally
    ensures { result ≡ tallied taken (held_cells v.entry.width v.entry.r (meanings v.entry.cells.now)) }
{
    if is_tile_shaped(v) & (taken == 0) {
        return untaken(count_tile(v, 0));
    }
    count_rows(v, taken)
}

// The counts when no block has been taken from those when one has.
fn untaken(t: CellTally) -> CellTally
    requires { SmallTally t }
    ensures { result ≡ untaken_tally t }
{
    CellTally {
        trues: t.trues,
        falses: 0,
        uncertain: t.uncertain + t.falses,
        givenup: t.givenup,
    }
}

fn is_tile_shaped(v: Region<'_>) -> bool
    ensures { result ≡ tile_shaped v.entry.r }
{
    (v.r.right - v.r.left == 16) & (v.r.bottom - v.r.top <= 16)
}

// The counts of up to 256 cells are summed in one number: that is taken apart once and not for each row.
// `last` is the last block that has been taken. The way out is never gone: with it the compiler adds cells of one row, not cells of four rows.
fn count_tile(v: Region<'_>, last: u32) -> CellTally
    requires { tile_shaped v.r ≡ true }
    ensures { result ≡ tallied (last + 1) (held_cells v.entry.width v.entry.r (meanings v.entry.cells.now)) }
{
    let mut packed: u32 = 0;
    for row in v.r.top..v.r.bottom {
        packed += pack_row(&v.row(row)[..16], last);
        if 536870912 < packed {
            return CellTally::default();
        }
    }
    unpack(packed, 16 * (v.r.bottom - v.r.top) as u64)
}

// The counts of a row in one number: in one sum of 32-bit numbers the compiler adds four cells at once.
fn pack_row(row: &[u64], last: u32) -> u32
    requires { length row.now ≤ 16 }
    ensures { result ≡ packed_tally (tallied (last + 1) (meanings row.now)) }
{
    row.iter().map(|cell| pack_cell(*cell, last)).sum()
}

// What a cell adds: its two halves are compared, since 64-bit numbers are compared one by one.
fn pack_cell(cell: u64, last: u32) -> u32
    ensures { result ≡ packed_tally (tallied (last + 1) (meanings (cell ∷ []))) }
{
    let high = (cell >> 32) as u32;
    let low = (cell % TRUE) as u32;
    weigh_settled(high, low) | weigh_false(high, low, last)
}

// 1024 for True and 1025 for given up: that `high` is 1 and `low` 0 or 1, in one comparison.
fn weigh_settled(high: u32, low: u32) -> u32
    ensures { result ≡ settled_weight high low }
{
    if (high | (2 * (low / 2))) == 1 {
        low + 1024
    } else {
        0
    }
}

// 1048576 for a number that has been taken, in one comparison too.
fn weigh_false(high: u32, low: u32, last: u32) -> u32
    ensures { result ≡ false_weight high low (last + 1) }
{
    if (high | (last < low) as u32) == 0 {
        1048576
    } else {
        0
    }
}

// The counts of so many cells from their number.
fn unpack(packed: u32, cells: u64) -> CellTally
    requires { (packed % 1024 ≤ packed / 1024 % 1024) × (packed / 1024 % 1024 - packed % 1024 + packed / 1048576 ≤ cells) }
    ensures { result ≡ unpacked_tally cells packed }
{
    let givenup = (packed % 1024) as u64;
    let trues = (packed / 1024 % 1024) as u64 - givenup;
    let falses = (packed / 1048576) as u64;
    CellTally {
        trues,
        falses,
        uncertain: cells - trues - falses,
        givenup,
    }
}

fn count_rows(v: Region<'_>, taken: u64) -> CellTally
    ensures { result ≡ tallied taken (held_cells v.entry.width v.entry.r (meanings v.entry.cells.now)) }
{
    let mut tally = CellTally::default();
    for row in v.r.top..v.r.bottom {
        tally = sum(tally, count_cells(v.row(row), taken));
    }
    tally
}

fn count_cells(row: &[u64], taken: u64) -> CellTally
    ensures { result ≡ tallied taken (meanings row.now) }
{
    let mut tally = CellTally::default();
    for cell in row {
        tally = sum(tally, count_cell(*cell, taken));
    }
    tally
}

fn count_cell(cell: u64, taken: u64) -> CellTally
    ensures { result ≡ tallied taken (meanings (cell ∷ [])) }
{
    match read_cell(cell, taken) {
        Reading::True => CellTally {
            trues: 1,
            ..CellTally::default()
        },
        Reading::False => CellTally {
            falses: 1,
            ..CellTally::default()
        },
        Reading::Uncertain => CellTally {
            uncertain: 1,
            givenup: (cell == GIVEN_UP) as u64,
            ..CellTally::default()
        },
    }
}

fn sum(t: CellTally, u: CellTally) -> CellTally
    requires { SmallTally t × SmallTally u }
    ensures { result ≡ tally_sum t u }
{
    CellTally {
        trues: t.trues + u.trues,
        falses: t.falses + u.falses,
        uncertain: t.uncertain + u.uncertain,
        givenup: t.givenup + u.givenup,
    }
}
