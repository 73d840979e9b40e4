// Which pictures are legal, and which blocks are damaged.
ghost use Rattle.std.specs.Prelude.{◌≡◌};
ghost use Rattle.interval.specs.Bounds.{legal_interval};
ghost use Rattle.decide.specs.Damage.{legal_chosen, direction_of, direction_right, cuttable, parameters_right, undamaged, damage_seen};

use super::Chosen;
use coordinate::{FLOOR_RANK, is_legal_side, is_placed};
use image::CellKind;
use interval::Interval;
use queue::{Block, Direction, direction_at, direction_count, whole_line};

// Whether the sides and the variable set are ones that a setup takes.
#[tactic(auto, unfolding(crate::specs::Damage::legal_chosen))]
pub fn is_legal_chosen(p: Chosen) -> bool
    ensures { result ≡ legal_chosen p }
{
    is_legal_side(p.width) & is_legal_side(p.height) & (p.set <= 63)
}

// Whether a block taken from a queue is one that a step can go on with.
#[tactic(auto, unfolding(crate::specs::Damage::undamaged))]
pub(crate) fn is_undamaged(p: Chosen, b: Block) -> bool
    ensures { result ≡ undamaged p b }
{
    (b.x.rank == b.y.rank)
        & is_placed(b.x, p.width)
        & is_placed(b.y, p.height)
        & is_directed(p, b)
        & has_legal_parameters(b)
}

// Whether the direction byte names a direction in use that the block can be cut along, or is 0 where there are none.
fn is_directed(p: Chosen, b: Block) -> bool
    ensures { result ≡ direction_right p b (direction_of p b) }
{
    match direction_at(p.set, b.dir) {
        Some(d) => is_cuttable(b, d),
        None => (direction_count(p.set) == 0) & (b.dir == 0),
    }
}

pub(crate) fn is_cuttable(b: Block, d: Direction) -> bool
    ensures { result ≡ cuttable b d }
{
    (d != Direction::XY) | (FLOOR_RANK < b.x.rank)
}

// Whether a parameter is legal; as a rule it is not in use, and the whole line.
fn is_legal_parameter(x: Interval, integer: bool) -> bool
    ensures { result ≡ legal_interval x integer }
{
    if interval::is_same(x, whole_line()) {
        return true;
    }
    interval::is_legal(x, integer)
}

fn has_legal_parameters(b: Block) -> bool
    ensures { result ≡ parameters_right b }
{
    let m = is_legal_parameter(b.m, true);
    let n = is_legal_parameter(b.n, true);
    let theta = is_legal_parameter(b.theta, true);
    let t = is_legal_parameter(b.t, false);
    m & n & theta & t
}

// Whether a cell that the block covers is neither a number, nor True, nor given up.
pub fn has_damaged_cell(p: Chosen, b: Block, cells: &[u64]) -> Option<bool>
    ensures { result ≡ damage_seen p b cells.now }
{
    let r = image::rectangle(b.x, b.y, p.width, p.height);
    image::rectangle_holds(cells, p.width, p.height, r, CellKind::Damaged)
}
