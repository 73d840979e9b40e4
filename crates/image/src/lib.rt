// The picture's cells: what a cell means and reads, which cells a block covers, and what is done to a rectangle of them.
// Document 01, "Picture and step": rows from the top, y from the bottom. The numbers that stand for True and given up appear in this crate only.
// What takes a rectangle takes any, and any cells: where the rectangle leaves the picture, or the cells are fewer than the pixels, it changes
// nothing and says so (`false` or `None`), and cells beyond the pixels are never read or written. `cells_hold` and `draw` take no rectangle but all cells that are lent.
#![tactic(auto)]

ghost use Rattle.std.specs.Prelude.{◌≡◌, ◌+◌, ◌-◌, ◌^◌, ◌≤◌, ◌<◌, min, eqb, length};
ghost use Rattle.image.specs.Cell.{meaning_of, meanings, nameable, reading, of_kind, character_of, share_of};
ghost use Rattle.image.specs.Range.{first_pixel, rectangle_of, whole_picture, picture_ready};
ghost use Rattle.image.specs.Painting.{paintable, painted_cells, some_of, some_seen, all_true_seen, tally_answer, drawn_bytes};

mod region;
mod rows;
mod stretches;

use coordinate::{Coordinate, PIXEL_RANK};
use region::Region;

// The code of a cell that is True; smaller numbers name blocks.
const TRUE: u64 = 4294967296;
// The code of a cell that is given up; larger numbers are damage.
const GIVEN_UP: u64 = 4294967297;

// What a pixel shows.
#[derive(Clone, Copy, Debug, PartialEq, Eq)]
pub enum Reading {
    // No solution is left to be found.
    False,
    // Not settled.
    Uncertain,
    // A solution was found.
    True,
}

// What happens to each cell of a rectangle.
#[derive(Clone, Copy, Debug, PartialEq, Eq)]
pub enum Op {
    // A solution was found.
    Mark,
    // A block is queued: a cell that names block `from` or a later one names `to`.
    Name { from: u64, to: u64 },
    // No direction is left to cut in.
    GiveUp,
    // The picture begins: the cell names `to`, whatever it held.
    Fill { to: u64 },
}

// What is looked for in a rectangle.
#[derive(Clone, Copy, Debug, PartialEq, Eq)]
pub enum CellKind {
    // Anything but True.
    Unmarked,
    // Given up.
    GivenUp,
    // Neither a block's number, nor True, nor given up.
    Damaged,
}

// Columns left to right and rows top to bottom, the last of each left out. Rows count from the top.
#[repr(C)]
#[derive(Clone, Copy, Debug, PartialEq, Eq)]
pub struct PixelRange {
    pub left: usize,
    pub right: usize,
    pub top: usize,
    pub bottom: usize,
}

// How many cells read True, False and Uncertain, and how many are given up (these read Uncertain too).
#[repr(C)]
#[derive(Clone, Copy, Debug, Default, PartialEq, Eq)]
pub struct CellTally {
    pub trues: u64,
    pub falses: u64,
    pub uncertain: u64,
    pub givenup: u64,
}

// What a cell reads when so many blocks have been taken.
pub fn read_cell(cell: u64, taken: u64) -> Reading
    ensures { result ≡ reading taken (meaning_of cell) }
{
    if cell == TRUE {
        return Reading::True;
    }
    if TRUE < cell {
        return Reading::Uncertain;
    }
    if taken <= cell {
        Reading::Uncertain
    } else {
        Reading::False
    }
}

// The printed character for a reading.
pub fn reading_character(r: Reading) -> u8
    ensures { result ≡ character_of r }
{
    match r {
        Reading::False => b'.',
        Reading::Uncertain => b'?',
        Reading::True => b'#',
    }
}

// All pixels of the picture.
pub fn whole(width: u32, height: u32) -> PixelRange
    ensures { result ≡ whole_picture width height }
{
    PixelRange {
        left: 0,
        right: width as usize,
        top: 0,
        bottom: height as usize,
    }
}

// The pixels of the picture that a block with these coordinates covers.
pub fn rectangle(x: Coordinate, y: Coordinate, width: u32, height: u32) -> PixelRange
    ensures { result ≡ rectangle_of x y width height }
{
    let left = first_pixel(x.index, x.rank, width as u64);
    let right = past_pixel(left, x.rank, width as u64);
    let low = first_pixel(y.index, y.rank, height as u64);
    let high = past_pixel(low, y.rank, height as u64);
    PixelRange {
        left: left as usize,
        right: right as usize,
        top: (height as u64 - high) as usize,
        bottom: (height as u64 - low) as usize,
    }
}

// The pixel that a coordinate begins in, or the side's end. From rank 80 up a coordinate is longer than every side.
fn first_pixel(index: u64, rank: u8, side: u64) -> u64
    requires { side < 4294967296 }
    ensures { result ≡ first_pixel side rank index }
{
    if rank < PIXEL_RANK {
        return (index >> (PIXEL_RANK - rank)).min(side);
    }
    if index == 0 {
        return 0;
    }
    if (4294967296 <= index) | (80 <= rank) {
        return side;
    }
    (index << (rank - PIXEL_RANK)).min(side)
}

// The pixel after the last that a coordinate covers, or the side's end.
fn past_pixel(first: u64, rank: u8, side: u64) -> u64
    requires { (side < 4294967296) × (first ≤ side) }
    ensures { result ≡ min (first + 2 ^ (rank - 48)) side }
{
    if rank <= PIXEL_RANK {
        return (first + 1).min(side);
    }
    if 80 <= rank {
        return side;
    }
    (first + (1 << (rank - PIXEL_RANK))).min(side)
}

// Whether the rectangle lies in the picture and every pixel has a cell.
pub fn is_ready(width: u32, height: u32, r: PixelRange, count: usize) -> bool
    ensures { result ≡ picture_ready width height r count }
{
    (r.left <= r.right)
        & (r.right <= width as usize)
        & (r.top <= r.bottom)
        & (r.bottom <= height as usize)
        & (width as usize * height as usize <= count)
}

// Whether what the cells are to name is a block's number.
fn is_nameable(op: Op) -> bool
    ensures { result ≡ nameable op }
{
    match op {
        Op::Name { from: _, to } | Op::Fill { to } => to < TRUE,
        Op::Mark | Op::GiveUp => true,
    }
}

// Changes every cell of the rectangle and no other; answers whether it was done.
pub fn paint(cells: &mut [u64], width: u32, height: u32, r: PixelRange, op: Op) -> bool
    ensures value { result ≡ paintable width height r op (length cells.old) }
    ensures cells_after { cells.new ≡ painted_cells width height r op cells.old }
{
    if !is_ready(width, height, r, cells.len()) {
        return false;
    }
    if is_nameable(op) {
        rows::paint_rows(cells, width as usize, r, op);
        return true;
    }
    false
}

// Whether every cell of the rectangle is True.
pub fn are_all_true(cells: &[u64], width: u32, height: u32, r: PixelRange) -> Option<bool>
    ensures { result ≡ all_true_seen width height r cells.now }
{
    let unmarked = rectangle_holds(cells, width, height, r, CellKind::Unmarked)?;
    Some(!unmarked)
}

// Whether a cell of the rectangle is of a kind.
pub fn rectangle_holds(
    cells: &[u64],
    width: u32,
    height: u32,
    r: PixelRange,
    kind: CellKind,
) -> Option<bool>
    ensures { result ≡ some_seen width height r kind cells.now }
{
    let region = Region::of(cells, width, height, r)?;
    Some(rows::find_in_rows::<false>(region, kind))
}

// The same, fastest where the rows have sixteen cells, as those of a tile; `rectangle_holds` is for rectangles of one cell or few.
pub fn tile_holds(
    cells: &[u64],
    width: u32,
    height: u32,
    r: PixelRange,
    kind: CellKind,
) -> Option<bool>
    ensures { result ≡ some_seen width height r kind cells.now }
{
    let region = Region::of(cells, width, height, r)?;
    Some(rows::find_in_rows::<true>(region, kind))
}

// The counts of the rectangle when so many blocks have been taken.
pub fn count(cells: &[u64], width: u32, height: u32, r: PixelRange, taken: u64) -> Option<CellTally>
    ensures { result ≡ tally_answer width height r taken cells.now }
{
    let region = Region::of(cells, width, height, r)?;
    Some(rows::count_rectangle(region, taken))
}

// The settled pixels in thousandths of all, rounded down: 1000 says that every pixel is settled. Of no pixels it is 0.
pub fn share_of(settled: u32, pixels: u32) -> u64
    ensures { result ≡ share_of settled pixels }
{
    if pixels == 0 {
        return 0;
    }
    1000 * settled as u64 / pixels as u64
}

// Whether one of the cells is of a kind.
pub fn cells_hold(cells: &[u64], kind: CellKind) -> bool
    ensures { result ≡ some_of (of_kind kind) (meanings cells.now) }
{
    stretches::find_in_stretch(cells, kind)
}

// Writes the byte of each cell when so many blocks have been taken, if there are as many bytes as cells; answers whether it was done.
pub fn draw(cells: &[u64], taken: u64, out: &mut [u8]) -> bool
    ensures value { result ≡ eqb (length cells.now) (length out.old) }
    ensures out_after { out.new ≡ drawn_bytes taken cells.now out.old }
{
    if cells.len() == out.len() {
        stretches::draw_stretch(cells, taken.min(TRUE), out);
        return true;
    }
    false
}
