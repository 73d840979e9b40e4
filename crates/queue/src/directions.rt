// The variables of a picture and the directions that its blocks are cut along.
// A variable set is one number: x is 32, y 16, m 8, n 4, n_theta 2, t 1. A block names its direction by the place in the list of those in use.
// The set stays a plain u8: so it stands in the record that C keeps.
ghost use Rattle.std.specs.Prelude.{◌≡◌, ◌≤◌, length};
ghost use Rattle.queue.specs.Directions.{in_use, directions, direction_at, used_of, parameters};
ghost use Rattle.queue.specs.DirectionsComputed.{ones};

// The ways to cut a block: both coordinates at once, or one parameter.
#[derive(Clone, Copy, Debug, PartialEq, Eq)]
pub enum Direction {
    XY,
    M,
    N,
    Theta,
    T,
}

// Whether the set uses a direction's variable, or one of the two.
pub fn is_used(set: u8, d: Direction) -> bool
    ensures { result ≡ in_use set d }
{
    match d {
        Direction::XY => (set / 32 % 2 == 1) | (set / 16 % 2 == 1),
        Direction::M => set / 8 % 2 == 1,
        Direction::N => set / 4 % 2 == 1,
        Direction::Theta => set / 2 % 2 == 1,
        Direction::T => set % 2 == 1,
    }
}

// 1 for a direction in use, 0 for another.
fn count_of(set: u8, d: Direction) -> u8
    ensures value { result ≡ ones (in_use set d) }
    ensures upper_bound { result ≤ 1 }
{
    is_used(set, d) as u8
}

// How many directions are in use: a sum written out, for a loop over them would need an invariant that says the same.
pub fn direction_count(set: u8) -> u8
    ensures { result ≡ length (directions set) }
{
    let xy = count_of(set, Direction::XY);
    let m = count_of(set, Direction::M);
    let n = count_of(set, Direction::N);
    let theta = count_of(set, Direction::Theta);
    let t = count_of(set, Direction::T);
    xy + m + n + theta + t
}

// How many parameters are in use.
pub fn parameter_count(set: u8) -> u8
    ensures value { result ≡ length (used_of set parameters) }
    ensures upper_bound { result ≤ 4 }
{
    let m = count_of(set, Direction::M);
    let n = count_of(set, Direction::N);
    let theta = count_of(set, Direction::Theta);
    let t = count_of(set, Direction::T);
    m + n + theta + t
}

// The direction that a block's direction byte names; none beyond those in use.
pub fn direction_at(set: u8, at: u8) -> Option<Direction>
    ensures { result ≡ direction_at (directions set) at }
{
    let xy = count_of(set, Direction::XY);
    if at < xy {
        return Some(Direction::XY);
    }
    parameter_at(set, at - xy)
}

// The direction at a place of the list of parameters in use.
fn parameter_at(set: u8, at: u8) -> Option<Direction>
    ensures { result ≡ direction_at (used_of set parameters) at }
{
    let m = count_of(set, Direction::M);
    if at < m {
        return Some(Direction::M);
    }
    let n = m + count_of(set, Direction::N);
    if at < n {
        return Some(Direction::N);
    }
    let theta = n + count_of(set, Direction::Theta);
    if at < theta {
        return Some(Direction::Theta);
    }
    let t = theta + count_of(set, Direction::T);
    if at < t {
        return Some(Direction::T);
    }
    None
}
