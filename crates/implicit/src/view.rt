// What a record and its cells show: the picture's bytes, and the counts.
// Document 01, "Numbers of refusal" and "Program and values"; the Rust's `get_image` and `get_statistics`. The record is a copy, so nothing is handed back.
ghost use Rattle.std.specs.Prelude.{◌≡◌, true, ◌+◌, ◌≤◌, length, Ok};
ghost use Rattle.implicit.specs.Record.{pixel_count, sound_record};
ghost use Rattle.implicit.specs.View.{cells_sound, picture_left, picture_answer, if_done, counts_from, counts_of, counts_answer};

use crate::record::{is_sound, pixel_count};
use crate::state::{State, Tally};
use image::{CellKind, CellTally};
use refusal::Refusal;

// Writes a byte for each pixel, rows from the top; bytes beyond the pixels stay.
pub fn picture(s: State, cells: &[u64], out: &mut [u8]) -> Result<(), Refusal>
    ensures value { result ≡ picture_answer s cells.now (length out.old) }
    ensures out_after { out.new ≡ if_done result (picture_left s cells.now out.old) out.old }
{
    examine(s, cells, out.len())?;
    draw(s, cells, out);
    Ok(())
}

// The pixels by reading, the given-up cells, the queued blocks and the share that is settled.
pub fn counts(s: State, cells: &[u64]) -> Result<Tally, Refusal>
    ensures { result ≡ counts_answer s cells.now }
{
    examine(s, cells, pixel_count(s.chosen))?;
    count_pixels(s, cells)
}

// Whether so many bytes have room for the picture of a sound record with sound cells, or why not.
pub(crate) fn examine(s: State, cells: &[u64], room: usize) -> Result<(), Refusal>
    ensures { result ≡ picture_answer s cells.now room }
{
    let pixels = pixel_count(s.chosen);
    if !is_sound(s.len, s) {
        return Err(Refusal::Damaged);
    }
    if cells.len() < pixels {
        return Err(Refusal::Cells);
    }
    if room < pixels {
        return Err(Refusal::Picture);
    }
    if are_sound_cells(s, cells) {
        Ok(())
    } else {
        Err(Refusal::Damaged)
    }
}

// Whether no pixel's cell is damaged.
pub(crate) fn are_sound_cells(s: State, cells: &[u64]) -> bool
    requires { pixel_count s.chosen ≤ length cells.now }
    ensures { result ≡ cells_sound s cells.now }
{
    let pixels = pixel_count(s.chosen);
    !image::cells_hold(&cells[0..pixels], CellKind::Damaged)
}

fn draw(s: State, cells: &[u64], out: &mut [u8])
    requires { (pixel_count s.chosen ≤ length cells.now) × (pixel_count s.chosen ≤ length out.old) }
    ensures { out.new ≡ picture_left s cells.now out.old }
{
    let pixels = pixel_count(s.chosen);
    image::draw(&cells[0..pixels], s.taken, &mut out[0..pixels]);
}

fn count_pixels(s: State, cells: &[u64]) -> Result<Tally, Refusal>
    requires { (sound_record s.len s ≡ true) × (pixel_count s.chosen ≤ length cells.now) }
    ensures { result ≡ Ok (counts_of s cells.now) }
{
    let p = s.chosen;
    let all = image::whole(p.width, p.height);
    match image::count(cells, p.width, p.height, all, s.taken) {
        Some(t) => Ok(with_share(s, t)),
        None => Err(Refusal::Cells),
    }
}

fn with_share(s: State, t: CellTally) -> Tally
    requires { (sound_record s.len s ≡ true) × (t.trues + t.falses ≤ pixel_count s.chosen) }
    ensures { result ≡ counts_from s t }
{
    let settled = t.trues + t.falses;
    Tally {
        trues: t.trues,
        falses: t.falses,
        uncertain: t.uncertain,
        givenup: t.givenup,
        queued: s.queued - s.taken,
        share: image::share_of(settled as u32, pixel_count(s.chosen) as u32),
    }
}
