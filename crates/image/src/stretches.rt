// Cells one after another, sixteen at a time and then the rest: where the compiler knows a part's length it writes out each pass of the loop over
// it, and counts once for all sixteen.
ghost use Rattle.std.specs.Prelude.{◌≡◌, map, ◌≤◌, length};
ghost use Rattle.image.specs.Cell.{true_code, meanings, of_kind, shown_byte};
ghost use Rattle.image.specs.Painting.{some_of};

use crate::rows::find_in_row;
use crate::{CellKind, TRUE};

pub(crate) fn find_in_stretch(cells: &[u64], kind: CellKind) -> bool
    ensures { result ≡ some_of (of_kind kind) (meanings cells.now) }
{
    let (parts, rest) = cells.as_chunks::<16>();
    parts.iter().any(|part| find_in_row(part, kind)) || find_in_row(rest, kind)
}

// By the places of the parts: `as_chunks_mut` says what it lends, and not what the slice holds once the parts are given back.
pub(crate) fn draw_stretch(cells: &[u64], taken: u64, out: &mut [u8])
    requires { (length cells.now ≡ length out.old) × (taken ≤ true_code) }
    ensures { out.new ≡ map (shown_byte taken) cells.now }
{
    let count = cells.len();
    for part in 0..count / 16 {
        let start = 16 * part;
        let end = start + 16;
        draw_part(&cells[start..end], taken, &mut out[start..end]);
    }
    let done = 16 * (count / 16);
    draw_part(&cells[done..count], taken, &mut out[done..count]);
}

fn draw_part(cells: &[u64], taken: u64, out: &mut [u8])
    requires { (length cells.now ≡ length out.old) × (taken ≤ true_code) }
    ensures { out.new ≡ map (shown_byte taken) cells.now }
{
    for (i, cell) in cells.iter().enumerate() {
        out[i] = byte_of(*cell, taken);
    }
}

// 1 if the block that the cell names is still to come, and for every larger code; 1 more for True.
fn byte_of(cell: u64, taken: u64) -> u8
    requires { taken ≤ true_code }
    ensures { result ≡ shown_byte taken cell }
{
    (taken <= cell) as u8 + (cell == TRUE) as u8
}
