// The counting, tile by tile: each loop is a plain count over columns or rows of tiles.
// Every pixel has a cell and every tile its four numbers, which the caller has tested.
ghost use Rattle.std.specs.Prelude.{◌≡◌, true, ◌+◌, ◌*◌, ◌<◌, ◌≤◌, eqb, length};
ghost use Rattle.image.specs.Cell.{meanings};
ghost use Rattle.image.specs.Range.{in_stretch, holds_cell, in_picture};
ghost use Rattle.tiles.specs.Tiles.{tiles_along, recounted_where};
ghost use Rattle.tiles.specs.TilesComputed.{TilesReady, SmallNumbers, tile_in, numbers_put};

use crate::tiles_along;
use image::{CellTally, PixelRange};

// Counts rows of tiles, by their numbers, which make the tiles' places.
pub(crate) fn recount_rows(
    cells: &[u64],
    width: u32,
    height: u32,
    tiles: PixelRange,
    taken: u64,
    table: &mut [u32],
)
    requires tiles_ready { TilesReady width height (length cells.now) (length table.old) }
    requires tiles_value { in_picture (tiles_along width) (tiles_along height) tiles ≡ true }
    ensures { table.new
        ≡ recounted_where (holds_cell (tiles_along width) tiles) width height taken (meanings cells.now) table.old }
{
    let left = tiles.left;
    let right = tiles.right;
    let bottom = tiles.bottom;
    for row in tiles.top..bottom {
        recount_row(cells, width, height, left, right, row, taken, table);
    }
}

// Counts the tiles of a row, from one column to another, by their numbers too.
fn recount_row(
    cells: &[u64],
    width: u32,
    height: u32,
    left: usize,
    right: usize,
    row: usize,
    taken: u64,
    table: &mut [u32],
)
    requires tiles_ready { TilesReady width height (length cells.now) (length table.old) }
    requires left_le_right { (left ≤ right) × (right ≤ tiles_along width) × (row < tiles_along height) }
    ensures { table.new
        ≡ recounted_where (in_stretch (row * tiles_along width + left) (row * tiles_along width + right)) width height taken
        (meanings cells.now) table.old }
{
    for column in left..right {
        recount_tile(cells, width, height, column, row, taken, table);
    }
}

// Counts a tile. Cells and sides come one by one, since `count` takes them so: a struct of them would be taken apart here.
fn recount_tile(
    cells: &[u64],
    width: u32,
    height: u32,
    column: usize,
    row: usize,
    taken: u64,
    table: &mut [u32],
)
    requires tiles_ready { TilesReady width height (length cells.now) (length table.old) }
    requires column_bound { (column < tiles_along width) × (row < tiles_along height) }
    ensures { table.new
        ≡ recounted_where (λ i. eqb i (row * tiles_along width + column)) width height taken (meanings cells.now) table.old }
{
    let tile = tile_in(width as usize, height as usize, column, row);
    let at = 4 * (row * tiles_along(width as usize) + column);
    let Some(tally) = image::count(cells, width, height, tile, taken) else {
        return;
    };
    put_numbers(table, at, tally);
}

// The pixels of the tile in a column and a row of tiles, as far as the picture goes.
fn tile_in(width: usize, height: usize, column: usize, row: usize) -> PixelRange
    requires { (column < 4294967296) × (row < 4294967296) }
    ensures { result ≡ tile_in width height column row }
{
    PixelRange {
        left: 16 * column,
        right: (16 * column + 16).min(width),
        top: 16 * row,
        bottom: (16 * row + 16).min(height),
    }
}

// Writes a tile's four numbers from a place on.
fn put_numbers(table: &mut [u32], at: usize, tally: CellTally)
    requires { (at + 4 ≤ length table.old) × SmallNumbers tally }
    ensures { table.new ≡ numbers_put tally at table.old }
{
    table[at] = tally.trues as u32;
    table[at + 1] = tally.falses as u32;
    table[at + 2] = tally.uncertain as u32;
    table[at + 3] = tally.givenup as u32;
}
