// A look at the children of one step: which of them marks the pixel, which one denies it, and which one finds no direction.
ghost use Rattle.std.specs.Prelude.{◌≡◌};
ghost use Rattle.explain.specs.Reasons.{covers_at};
ghost use Rattle.explain.specs.LookComputed.{mark_seen, false_seen, stuck_seen, looked_at, looked_by};

use crate::pixel::Pixel;
use decide::{Chosen, Cut, Outcome, child_of, find_direction, start_of};
use plan::Judged;
use queue::Block;

// A child that marks the pixel, by its place, and the place of the sample point that does, or 0 for its area verdict.
#[derive(Clone, Copy)]
pub(crate) struct Mark {
    pub child: u8,
    pub point: u8,
}

// The last child that marks the pixel; the first covering child answered false; and the first child that finds no direction. Places count from 1.
#[derive(Clone, Copy)]
pub(crate) struct Look {
    pub mark: Option<Mark>,
    pub denied: Option<u8>,
    pub stuck: Option<u8>,
}

// All children of a block that is cut so, by what is remembered of their outcomes.
pub(crate) fn look_at_children(p: Chosen, pixel: Pixel, b: Block, k: Cut, j: Judged) -> Look
    ensures { result ≡ looked_by p (covers_at p pixel.column pixel.row) b k j }
{
    let start = start_of(p, b, j.incomplete);
    let n = k.count.min(4);
    let mut l = Look {
        mark: None,
        denied: None,
        stuck: None,
    };
    // By the number of the child, which is its place in the cut and among the outcomes.
    for i in 0..n {
        let c = child_of(k, b, i);
        l = look_at(p, pixel, start, l, i as u8 + 1, c, j.at[i]);
    }
    l
}

// A child at its place, with its outcome.
fn look_at(p: Chosen, pixel: Pixel, start: u16, l: Look, i: u8, c: Block, o: Outcome) -> Look
    ensures { result ≡ looked_at p (covers_at p pixel.column pixel.row) start l i c o }
{
    match o {
        Outcome::Skipped => l,
        Outcome::False => see_false(l, i, pixel.is_covered(p, c)),
        Outcome::Area => see_mark(l, i, 0, pixel.is_covered(p, c)),
        Outcome::Point(k) => see_mark(l, i, k, pixel.is_covered(p, c)),
        Outcome::Incomplete(_) => see_incomplete(l, i, find_direction(p, c, start)),
    }
}

// A child that marks its pixels: the last one counts.
fn see_mark(l: Look, child: u8, point: u8, here: bool) -> Look
    ensures { result ≡ mark_seen l child point here }
{
    if !here {
        return l;
    }
    Look {
        mark: Some(Mark { child, point }),
        ..l
    }
}

// A child that is answered false: the first one counts.
fn see_false(l: Look, i: u8, here: bool) -> Look
    ensures { result ≡ false_seen l i here }
{
    if !here {
        return l;
    }
    Look {
        denied: l.denied.or(Some(i)),
        ..l
    }
}

// An incomplete child, with the direction that it finds or none: the first that finds none counts.
fn see_incomplete(l: Look, i: u8, f: Option<u8>) -> Look
    ensures { result ≡ stuck_seen l i f }
{
    match f {
        Some(_) => l,
        None => Look {
            stuck: l.stuck.or(Some(i)),
            ..l
        },
    }
}
