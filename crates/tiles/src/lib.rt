// Tiles of 16 by 16 pixels: the counts of each in a lent table, kept tile by tile, and whether the tiles that a rectangle touches are sound.
// Document 02, (iv). Tiles count row by row from the top left, and those at the right and bottom edge may be smaller.
// What takes a rectangle takes any, and any cells and table: where the rectangle leaves the picture, or the cells or the table are too few, it
// changes nothing and says so, and what lies beyond the tiles' numbers is never touched.
#![tactic(auto)]

ghost use Rattle.std.specs.Prelude.{◌≡◌, true, ◌||◌, ◌<◌, min, eqb, length};
ghost use Rattle.image.specs.Range.{in_picture};
ghost use Rattle.tiles.specs.Tiles.{tiles_along, tile_count, touched_tiles, touched_damaged, recountable, table_recounted};
ghost use Rattle.tiles.specs.TilesComputed.{tiles_of};

mod counting;

use image::{CellKind, PixelRange};

// How many tiles a picture has: the table has four numbers for each.
pub fn tile_count(width: u32, height: u32) -> usize
    ensures { result ≡ tile_count width height }
{
    tiles_along(width as usize) * tiles_along(height as usize)
}

// Whether a tile that the rectangle touches holds a damaged cell. A rectangle without a pixel is rounded out to whole tiles all the same.
pub fn holds_damage(cells: &[u64], width: u32, height: u32, r: PixelRange) -> Option<bool>
    ensures { result ≡ touched_damaged width height r cells.now }
{
    if !image::is_ready(width, height, r, cells.len()) {
        return None;
    }
    let rounded = rounded_out(width as usize, height as usize, r);
    image::tile_holds(cells, width, height, rounded, CellKind::Damaged)
}

// Counts the touched tiles anew when so many blocks have been taken, and no other; answers whether it was done.
pub fn recount(
    cells: &[u64],
    width: u32,
    height: u32,
    r: PixelRange,
    taken: u64,
    table: &mut [u32],
) -> bool
    ensures value { result ≡ recountable width height r (length cells.now) (length table.old) }
    ensures table_after { table.new ≡ table_recounted width height r taken cells.now table.old }
{
    if !is_recountable(width, height, r, cells.len(), table.len()) {
        return false;
    }
    if is_empty(r) {
        return true;
    }
    let tiles = tiles_of(width as usize, height as usize, r);
    counting::recount_rows(cells, width, height, tiles, taken, table);
    true
}

// The tiles along a side.
fn tiles_along(side: usize) -> usize
    requires { side < 4294967296 }
    ensures { result ≡ tiles_along side }
{
    (side + 15) / 16
}

// Whether the rectangle lies in the picture, every pixel has a cell and every tile its four numbers.
fn is_recountable(width: u32, height: u32, r: PixelRange, count: usize, room: usize) -> bool
    ensures { result ≡ recountable width height r count room }
{
    image::is_ready(width, height, r, count) & (4 * tile_count(width, height) <= room)
}

// Whether the rectangle, which lies in the picture, has no pixel.
fn is_empty(r: PixelRange) -> bool
    ensures { result ≡ (eqb r.left r.right || eqb r.top r.bottom) }
{
    (r.left == r.right) | (r.top == r.bottom)
}

// The rectangle, rounded out to whole tiles as far as the picture goes.
fn rounded_out(width: usize, height: usize, r: PixelRange) -> PixelRange
    requires { (width < 4294967296) × (height < 4294967296) × (in_picture width height r ≡ true) }
    ensures { result ≡ touched_tiles width height r }
{
    PixelRange {
        left: 16 * (r.left / 16),
        right: (16 * tiles_along(r.right)).min(width),
        top: 16 * (r.top / 16),
        bottom: (16 * tiles_along(r.bottom)).min(height),
    }
}

// The columns and rows of tiles that the rectangle touches.
fn tiles_of(width: usize, height: usize, r: PixelRange) -> PixelRange
    requires { (width < 4294967296) × (height < 4294967296) × (in_picture width height r ≡ true) }
    ensures { result ≡ tiles_of r }
{
    PixelRange {
        left: r.left / 16,
        right: tiles_along(r.right),
        top: r.top / 16,
        bottom: tiles_along(r.bottom),
    }
}
