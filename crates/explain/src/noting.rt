// What is kept of the steps so far about the pixel, and what one step more adds to it. Nothing is written.
ghost use Rattle.std.specs.Prelude.{◌≡◌};
ghost use Rattle.implicit.specs.Listing.{front_of};
ghost use Rattle.explain.specs.Reasons.{moment_at};
ghost use Rattle.explain.specs.NotesComputed.{with_look, noted_block, noted_front};

use crate::look::{Look, look_at_children};
use crate::pixel::Pixel;
use crate::reason::Moment;
use decide::{Chosen, cut_of};
use implicit::State;
use plan::judge_children;
use queue::Block;

// The last mark, with the sample point or 0; the last covering block taken, with the first covering child answered false; and the last giving up.
#[derive(Clone, Copy, Default)]
pub(crate) struct Notes {
    pub mark: Moment,
    pub point: u8,
    pub denial: Moment,
    pub up: Moment,
}

// The notes with the step of this number, which takes the front block under the first verdicts of the tape, from the cells as they are before it.
pub(crate) fn note_step(
    s: State,
    ring: &[u8],
    cells: &[u64],
    tape: &[u8],
    step: u64,
    pixel: Pixel,
    k: Notes,
) -> Notes
    ensures { result ≡ noted_front s.chosen pixel.column pixel.row cells.now tape.now step (front_of s ring.now) k }
{
    let p = s.chosen;
    match queue::peek(ring, s.head, s.used, p.set, s.front) {
        Ok(read) => note_block(p, read.block, cells, tape, step, pixel, k),
        Err(_) => k,
    }
}

// The same for the block that was read: one that does not cover the pixel adds nothing.
fn note_block(
    p: Chosen,
    b: Block,
    cells: &[u64],
    tape: &[u8],
    step: u64,
    pixel: Pixel,
    k: Notes,
) -> Notes
    ensures { result ≡ noted_block p pixel.column pixel.row cells.now tape.now step b k }
{
    if !pixel.is_covered(p, b) {
        return k;
    }
    let cut = cut_of(p, b);
    let j = judge_children(p, b, cut, tape, cells);
    add_look(k, step, look_at_children(p, pixel, b, cut, j))
}

// What a look at the step's children adds: its last mark and giving up, where it has them, and its denial.
fn add_look(k: Notes, step: u64, l: Look) -> Notes
    ensures { result ≡ with_look k step l }
{
    let (mark, point) = match l.mark {
        Some(m) => (moment(step, m.child), m.point),
        None => (k.mark, k.point),
    };
    Notes {
        mark,
        point,
        denial: moment(step, l.denied.unwrap_or(0)),
        up: match l.stuck {
            Some(child) => moment(step, child),
            None => k.up,
        },
    }
}

fn moment(step: u64, child: u8) -> Moment
    ensures { result ≡ moment_at step child }
{
    Moment { step, child }
}
