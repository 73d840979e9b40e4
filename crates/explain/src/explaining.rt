// The entry: the refusals, the setup, the repeated steps, and the reason by what the pixel reads then.
ghost use Rattle.std.specs.Prelude.{◌≡◌, true, ◌&&◌, not, ◌+◌, ◌*◌, ◌-◌, ◌<◌, leb, length, get_or};
ghost use Rattle.implicit.specs.Record.{pixel_count};
ghost use Rattle.image.specs.Cell.{meaning_of};
ghost use Rattle.implicit.specs.Setup.{setup_answer, cleared};
ghost use Rattle.implicit.specs.Step.{world_of};
ghost use Rattle.explain.specs.Explained.{pixel_inside, explained, ring_explained, cells_explained};
ghost use Rattle.explain.specs.ExplainComputed.{is_ready, uncertain_reason, reason_noted, explanation_of, ExplainsFrom};

use crate::noting::Notes;
use crate::pixel::Pixel;
use crate::reason::{Explanation, Moment, Reason};
use crate::repeating::{Repeated, repeat_steps};
use crate::walking::block_behind;
use decide::Chosen;
use image::{CellKind, Reading};
use implicit::{Ending, Ranges, State};
use refusal::Refusal;

// Why the pixel in this column, and in this row from the top, reads what it reads after so many steps of this setup on its tape. The steps are repeated in the
// ring and the cells that are lent, which hold afterwards what the finished ones left, also where one refuses. Refused by 1, 2, 3, 6 or 18 it writes nothing.
pub fn explain(
    chosen: Chosen,
    ranges: Ranges,
    ring: &mut [u8],
    cells: &mut [u64],
    tape: &[u8],
    steps: u32,
    column: u32,
    row: u32,
) -> Result<Explanation, Refusal>
    ensures value { result ≡ explained (cleared chosen) ranges ring.old cells.old tape.now steps column row }
    ensures ring_after { ring.new ≡ ring_explained (cleared chosen) ranges ring.old cells.old tape.now
        steps column row }
    ensures cells_after { cells.new ≡ cells_explained (cleared chosen) ranges ring.old cells.old tape.now
        steps column row }
{
    // As a setup keeps it, with the reserved bytes 0.
    let p = Chosen {
        width: chosen.width,
        height: chosen.height,
        set: chosen.set,
        reserved1: 0,
        reserved2: 0,
        reserved3: 0,
    };
    let pixel = Pixel { column, row };
    if is_pixel_refused(p, ranges, ring.len(), cells.len(), pixel) {
        return Err(Refusal::Pixel);
    }
    let s = implicit::setup(p, ranges, ring, cells)?;
    Ok(explain_from(s, ring, cells, tape, steps, pixel))
}

// The steps from a setup on, and the reason then.
fn explain_from(
    s: State,
    ring: &mut [u8],
    cells: &mut [u64],
    tape: &[u8],
    steps: u32,
    pixel: Pixel,
) -> Explanation
    requires { (pixel.column < s.chosen.width) × (pixel.row < s.chosen.height) × (leb (pixel_count s.chosen) (length cells.old) ≡ true) }
    ensures { ExplainsFrom steps pixel.column pixel.row (world_of s ring.old cells.old) tape.now result
        ring.new cells.new }
{
    let (p, ending) = repeat_steps(s, ring, cells, tape, steps, pixel);
    let chosen = s.chosen;
    let at = pixel.row as usize * chosen.width as usize + pixel.column as usize;
    let reason = reason_of(p.state, ring, cells, at, p.notes);
    answer(p, ending, reason)
}

// Whether 18 applies: the pixel lies outside, and a setup would begin.
fn is_pixel_refused(p: Chosen, ranges: Ranges, len: usize, count: usize, pixel: Pixel) -> bool
    ensures { result ≡ (not (pixel_inside p pixel.column pixel.row) && is_ready (setup_answer p ranges len count)) }
{
    !pixel.is_inside(p) && begins(p, ranges, len, count)
}

// Whether a setup begins, found without writing.
fn begins(p: Chosen, ranges: Ranges, len: usize, count: usize) -> bool
    ensures { result ≡ is_ready (setup_answer p ranges len count) }
{
    if count < p.width as usize * p.height as usize {
        return false;
    }
    implicit::least_ring(p, ranges).is_ok_and(|need| need <= len)
}

// The answer by how the repetition ended.
fn answer(p: Repeated, ending: Ending, reason: Reason) -> Explanation
    ensures { result ≡ explanation_of p reason ending }
{
    let state = p.state;
    match ending {
        Ending::Stop(why) => Explanation::Stopped {
            why,
            state,
            steps: p.steps,
            evaluations: p.evaluations,
            tape: p.tape,
        },
        ending => Explanation::Of {
            reason,
            state,
            steps: p.steps,
            evaluations: p.evaluations,
            tape: p.tape,
            ending,
        },
    }
}

// The reason by what the cell at this place reads.
fn reason_of(s: State, ring: &[u8], cells: &[u64], at: usize, k: Notes) -> Reason
    requires { at < length cells.now }
    ensures { result ≡ reason_noted s ring.now k (meaning_of (get_or cells.now at 0)) }
{
    let c = cells[at];
    match image::read_cell(c, s.taken) {
        Reading::True => Reason::True {
            at: k.mark,
            point: k.point,
        },
        Reading::False => Reason::False { at: k.denial },
        Reading::Uncertain => {
            let up = image::cells_hold(&cells[at..at + 1], CellKind::GivenUp);
            reason_open(s, ring, c, up, k.up)
        }
    }
}

// A pixel that is Uncertain is given up, or waits for the block that its cell names.
fn reason_open(s: State, ring: &[u8], number: u64, up: bool, at: Moment) -> Reason
    ensures { result ≡ uncertain_reason s ring.now number up at }
{
    if up {
        return Reason::GivenUp { at };
    }
    let before = between(s.taken, number);
    let block = block_behind(s, ring, before);
    Reason::Waiting {
        number,
        before,
        block,
    }
}

// How many stand between two numbers; none where the second is not behind the first.
fn between(a: u64, b: u64) -> u64
    ensures { result ≡ b - a }
{
    if a <= b { b - a } else { 0 }
}
