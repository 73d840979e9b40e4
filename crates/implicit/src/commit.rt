// What a step writes, once all is decided: the cells and the bytes of the new blocks. The only writer of a step. From the Rust's `refine_impl`.
ghost use Rattle.std.specs.Prelude.{◌≡◌, ◌^◌, ◌≤◌};
ghost use Rattle.decide.specs.ChildAt.{child_of};
ghost use Rattle.decide.specs.Turn.{turned_found};
ghost use Rattle.implicit.specs.StepComputed.{Four, painted_at, marked_child, marked_for};
ghost use Rattle.implicit.specs.StepComputed.{carrying_of, with_carried, carried_child, carried_for, committed};

use crate::deciding::Decided;
use crate::record::put_last;
use coordinate::Coordinate;
use decide::{Chosen, Cut, Outcome, child_of, find_direction, start_of};
use image::Op;
use plan::{is_incomplete, is_marking};
use queue::{Appended, Block, Last};

// What queueing children changes in the record: the next number, the bytes used, and what is remembered of the last one queued.
#[derive(Clone, Copy)]
pub(crate) struct Behind {
    pub queued: u64,
    pub used: usize,
    pub back: Last,
}

// What a queued child leaves: it is remembered, and so many bytes are used.
#[derive(Clone, Copy)]
struct Carried {
    last: Last,
    used: usize,
}

// Carries the step out: the cells' marks in order, then the children that are queued or find no direction, in order, since giving up is to outlast the marks.
// Cells that name block `from` or a later one name what is queued over them.
pub(crate) fn commit(
    p: Chosen,
    from: u64,
    queued: u64,
    back: Last,
    ring: &mut [u8],
    cells: &mut [u64],
    g: Decided,
) -> Behind
    requires { (queued ≤ 2 ^ 32) × Four g }
    ensures { carrying_of result ring.new cells.new ≡ committed p from queued back ring.old cells.old g }
{
    mark_children(p, cells, g);
    carry_children(p, from, queued, back, ring, cells, g)
}

fn mark_children(p: Chosen, cells: &mut [u64], g: Decided)
    requires { Four g }
    ensures { cells.new ≡ marked_for p cells.old g }
{
    let b = g.block;
    let k = g.cut;
    let j = g.judged;
    for i in 0..k.count {
        mark_child(p, cells, b, k, i, j.at[i]);
    }
}

fn mark_child(p: Chosen, cells: &mut [u64], b: Block, k: Cut, i: usize, o: Outcome)
    ensures { cells.new ≡ marked_child p cells.old (child_of k b i) o }
{
    if !is_marking(o) {
        return;
    }
    let c = child_of(k, b, i);
    paint_at(p, cells, c.x, c.y, Op::Mark);
}

// Changes every cell that a block at these coordinates covers.
fn paint_at(p: Chosen, cells: &mut [u64], x: Coordinate, y: Coordinate, op: Op)
    ensures { cells.new ≡ painted_at p x y op cells.old }
{
    let r = image::rectangle(x, y, p.width, p.height);
    image::paint(cells, p.width, p.height, r, op);
}

// The incomplete children in order, each queued behind the one before it.
fn carry_children(
    p: Chosen,
    from: u64,
    queued: u64,
    back: Last,
    ring: &mut [u8],
    cells: &mut [u64],
    g: Decided,
) -> Behind
    requires { (queued ≤ 2 ^ 32) × Four g }
    ensures { carrying_of result ring.new cells.new ≡ carried_for p from queued back ring.old cells.old g }
{
    let b = g.block;
    let k = g.cut;
    let j = g.judged;
    let head = g.head;
    let start = start_of(p, b, j.incomplete);
    let mut next = Behind {
        queued,
        used: g.used,
        back: put_last(back),
    };
    for i in 0..k.count {
        let o = j.at[i];
        match carry_child(
            p,
            from,
            start,
            next.queued,
            next.used,
            next.back,
            ring,
            head,
            cells,
            b,
            k,
            i,
            o,
        ) {
            Some(c) => {
                next.queued = next.queued + 1;
                next.used = c.used;
                next.back = c.last;
            }
            None => {}
        }
    }
    next
}

// What goes on from child to child (`to`, `used`, `back`) and what is the same for all go one by one: a struct of either would be made and taken apart
// once a child, and the contract would name its parts all the same.
// An incomplete child is queued under the next number, or, if it finds no direction, all cells of its parent are given up, True ones too.
fn carry_child(
    p: Chosen,
    from: u64,
    start: u16,
    to: u64,
    used: usize,
    back: Last,
    ring: &mut [u8],
    head: usize,
    cells: &mut [u64],
    b: Block,
    k: Cut,
    i: usize,
    o: Outcome,
) -> Option<Carried>
    ensures { with_carried to used back result ring.new cells.new ≡ carried_child p from (turned_found p start) head b to used back ring.old cells.old (child_of k b i) o }
{
    if !is_incomplete(o) {
        return None;
    }
    let mut c = child_of(k, b, i);
    match find_direction(p, c, start) {
        Some(dir) => {
            c.dir = dir;
            match queue::append(ring, head, used, p.set, back, c) {
                Ok(Appended { last, used: more }) => {
                    paint_at(p, cells, c.x, c.y, Op::Name { from, to });
                    Some(Carried { last, used: more })
                }
                Err(_) => None,
            }
        }
        None => {
            paint_at(p, cells, b.x, b.y, Op::GiveUp);
            None
        }
    }
}
