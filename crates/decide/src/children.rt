// The children of a block: how it is cut along its direction, both coordinates halved or one parameter's later cut, and child j.
ghost use Rattle.std.specs.Prelude.{◌≡◌, true, cond, ltb};
ghost use Rattle.coordinate.specs.Axis.{ordinary_floor};
ghost use Rattle.coordinate.specs.Lone.{legal};
ghost use Rattle.decide.specs.Damage.{sound, direction_of};
ghost use Rattle.decide.specs.Children.{moved_to, children_of, listed};
ghost use Rattle.decide.specs.ChildAt.{is_kept, half_of, quarter_of, place_of, piece_of, child_of, cut_of};
ghost use Rattle.decide.specs.ChildrenComputed.{quarter_count, quarters_cut, later_count, pieces_cut};

use super::Chosen;
use super::damage::{is_legal_chosen, is_undamaged};
use coordinate::{Coordinate, INDEX_LIMIT, PIXEL_RANK, is_placed};
use interval::Interval;
use queue::{Block, Direction, direction_at, is_integer, parameter_of, with_parameter};

// The children of a block, the first `count` of them; the places behind hold the block itself.
// An array with a count and no Vec: the engine has no heap, and C gets this record.
#[repr(C)]
#[derive(Clone, Copy)]
pub struct Children {
    pub at: [Block; 4],
    pub count: usize,
}

// How a block is cut: along its direction, with the quarters of the right half listed or not, and into how many children. A damaged block has none.
#[derive(Clone, Copy)]
pub struct Cut {
    pub along: Option<Direction>,
    pub right: bool,
    pub count: usize,
}

// Where a block or a child of it lies.
#[derive(Clone, Copy)]
pub struct Place {
    pub x: Coordinate,
    pub y: Coordinate,
}

// The children of a block in order; a damaged block has none. Place by place: `array::from_fn` would take a closure with a clause of its own.
pub fn children_of(p: Chosen, b: Block) -> Children
    ensures { result ≡ listed b (children_of p b) }
{
    let k = cut_of(p, b);
    Children {
        at: [
            listed_at(k, b, 0),
            listed_at(k, b, 1),
            listed_at(k, b, 2),
            listed_at(k, b, 3),
        ],
        count: k.count,
    }
}

// What the listing has at a place: the child, or behind the children the block itself.
fn listed_at(k: Cut, b: Block, j: usize) -> Block
    ensures { result ≡ cond (ltb j k.count) (child_of k b j) b }
{
    if j < k.count { child_of(k, b, j) } else { b }
}

// How a block is cut; a damaged one has no child.
pub fn cut_of(p: Chosen, b: Block) -> Cut
    ensures { result ≡ cut_of p b }
{
    let along = direction_at(p.set, b.dir);
    if is_legal_chosen(p) & is_undamaged(p, b) {
        return cut_along(p, b, along);
    }
    Cut {
        along,
        right: false,
        count: 0,
    }
}

// The same of an undamaged block, by its direction.
fn cut_along(p: Chosen, b: Block, along: Option<Direction>) -> Cut
    requires { (sound p b ≡ true) × (along ≡ direction_of p b) }
    ensures { result ≡ cut_of p b }
{
    match along {
        Some(Direction::XY) => cut_quarters(p, b.x, b.y),
        // By itself: a real range has three pieces whatever its cut, which is then not made. A cut that overflows raises the processor's flag.
        Some(Direction::T) => cut_parameter(Direction::T, b.t, false),
        Some(d) => cut_parameter(d, parameter_of(b, d), is_integer(d)),
        None => Cut {
            along,
            right: false,
            count: 1,
        },
    }
}

// Into the quarters that are listed: the low halves begin where the block does, so the high ones decide.
fn cut_quarters(p: Chosen, x: Coordinate, y: Coordinate) -> Cut
    requires { (legal ordinary_floor (half_of x true) ≡ true) × (legal ordinary_floor (half_of y true) ≡ true) }
    ensures { result ≡ quarters_cut p x y }
{
    let right = is_kept(x.rank, half(x, true), p.width);
    let above = is_kept(x.rank, half(y, true), p.height);
    Cut {
        along: Some(Direction::XY),
        right,
        count: quarter_count(right, above),
    }
}

fn quarter_count(right: bool, above: bool) -> usize
    ensures { result ≡ quarter_count right above }
{
    (1 + right as usize) * (1 + above as usize)
}

// Into the pieces of a parameter's later cut.
fn cut_parameter(d: Direction, x: Interval, integer: bool) -> Cut
    ensures { result ≡ pieces_cut d x integer }
{
    Cut {
        along: Some(d),
        right: false,
        count: piece_count(x, integer),
    }
}

fn piece_count(x: Interval, integer: bool) -> usize
    ensures { result ≡ later_count x integer }
{
    match interval::later_cut(x, integer) {
        Ok(pieces) => pieces.count(),
        Err(_) => 0,
    }
}

// Child j of a block that is cut so; there need not be so many.
#[tactic(auto, unfolding(crate::specs::ChildAt::child_of))]
pub fn child_of(k: Cut, b: Block, j: usize) -> Block
    ensures { result ≡ child_of k b j }
{
    match k.along {
        Some(Direction::XY) => moved_to(b, quarter_of(k.right, Place { x: b.x, y: b.y }, j)),
        Some(d) => with_parameter(b, d, piece_of(parameter_of(b, d), is_integer(d), j)),
        None => b,
    }
}

// Where child j of a block that lies here lies.
pub fn place_of(k: Cut, here: Place, j: usize) -> Place
    ensures { result ≡ place_of k here.x here.y j }
{
    match k.along {
        Some(Direction::XY) => quarter_of(k.right, here, j),
        _ => here,
    }
}

// Quarter j of those that are listed, x moving first; without the right half only y moves.
fn quarter_of(right: bool, whole: Place, j: usize) -> Place
    ensures { result ≡ quarter_of right whole.x whole.y j }
{
    if right {
        return Place {
            x: half(whole.x, j % 2 == 1),
            y: half(whole.y, 2 <= j),
        };
    }
    Place {
        x: half(whole.x, false),
        y: half(whole.y, 1 <= j),
    }
}

// The low or the high half of a coordinate; one of rank 0, or with an index past the range, stays as it is.
#[tactic(auto, unfolding(crate::specs::ChildAt::half_of))]
fn half(c: Coordinate, high: bool) -> Coordinate
    ensures { result ≡ half_of c high }
{
    if (c.rank == 0) | (INDEX_LIMIT <= c.index) {
        return c;
    }
    Coordinate {
        index: 2 * c.index + high as u64,
        rank: c.rank - 1,
    }
}

// Piece j of a parameter's later cut; where there is none, the parameter itself.
fn piece_of(x: Interval, integer: bool, j: usize) -> Interval
    ensures { result ≡ piece_of x integer j }
{
    match interval::later_cut(x, integer) {
        Ok(pieces) => pieces.get(j).unwrap_or(x),
        Err(_) => x,
    }
}

// Whether a half is listed, by the rank of its whole: above level 0 only if it begins inside its side.
fn is_kept(rank: u8, c: Coordinate, side: u32) -> bool
    requires { legal ordinary_floor c ≡ true }
    ensures { result ≡ is_kept rank c side }
{
    (rank <= PIXEL_RANK) | is_placed(c, side)
}

// The block in another place.
fn moved_to(b: Block, at: Place) -> Block
    ensures { result ≡ moved_to b at.x at.y }
{
    Block {
        x: at.x,
        y: at.y,
        ..b
    }
}
