// A rectangle of a picture with the picture's cells: it lies in the picture, and every pixel of its rows has a cell.
ghost use Rattle.std.specs.Prelude.{◌≡◌, true, false, ◌<◌, MatchOption, length};
ghost use Rattle.image.specs.Range.{picture_ready};
ghost use Rattle.image.specs.RowsComputed.{ReadyRows, row_cells};

use crate::{PixelRange, is_ready};

// Rows of `width` cells one after another, and the rectangle.
#[derive(Clone, Copy)]
pub(crate) struct Region<'a> {
    pub(crate) cells: &'a [u64],
    pub(crate) width: usize,
    pub(crate) r: PixelRange,
    ghost ready: { ReadyRows width r (length cells.now) },
}

impl<'a> Region<'a> {
    // None where the rectangle leaves the picture, or the cells are fewer than the pixels.
    pub(crate) fn of(cells: &'a [u64], width: u32, height: u32, r: PixelRange) -> Option<Region<'a>>
        ensures { MatchOption result (picture_ready width height r (length cells.now) ≡ false)
            (λ v. (picture_ready width height r (length cells.now) ≡ true) × (v.cells.now ≡ cells.now) × (v.width ≡ width) × (v.r ≡ r)) }
    {
        if !is_ready(width, height, r, cells.len()) {
            return None;
        }
        Some(Region {
            cells,
            width: width as usize,
            r,
        })
    }

    // The rectangle's part of a row of the picture.
    pub(crate) fn row(self, row: usize) -> &'a [u64]
        requires { row < self.r.bottom }
        ensures { result.now ≡ row_cells self.entry.width self.entry.r row self.entry.cells.now }
    {
        let start = row * self.width;
        &self.cells[start + self.r.left..start + self.r.right]
    }
}
