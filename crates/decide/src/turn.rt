// Where an incomplete child goes on: the first direction, round the list of those in use, that it can be cut along.
ghost use Rattle.std.specs.Prelude.{◌≡◌, ◌%◌, ◌^◌, ◌<◌, Some};
ghost use Rattle.queue.specs.Directions.{directions, direction_at};
ghost use Rattle.decide.specs.Damage.{direction_of};
ghost use Rattle.decide.specs.Turn.{incomplete_limit, start_of, splits_at, subdivisible_along, searched};

use super::Chosen;
use super::damage::is_cuttable;
use coordinate::FLOOR_RANK;
use interval::Interval;
use queue::{Block, Direction, direction_at, direction_count, is_integer, is_used, parameter_of};

// Where the search begins: at the present direction while few children are incomplete, else at the next.
#[tactic(auto, unfolding(crate::specs::Turn::start_of))]
pub fn start_of(p: Chosen, b: Block, incomplete: usize) -> u16
    ensures { result ≡ start_of p b incomplete }
{
    if incomplete <= incomplete_limit(p, b) {
        b.dir as u16
    } else {
        b.dir as u16 + 1
    }
}

// How many incomplete children are few.
fn incomplete_limit(p: Chosen, b: Block) -> usize
    ensures { result ≡ incomplete_limit (direction_of p b) }
{
    match direction_at(p.set, b.dir) {
        Some(Direction::XY) => 1,
        Some(_) => 2,
        None => 0,
    }
}

// The first direction, round the list of those in use from a place on, that the block can be cut along: its place in the list.
// Where no parameter is in use it can be xy alone.
pub fn find_direction(p: Chosen, c: Block, from: u16) -> Option<u8>
    ensures { result ≡ searched p c from }
{
    if p.set % 16 == 0 {
        return if (FLOOR_RANK < c.x.rank) & is_used(p.set, Direction::XY) {
            Some(0)
        } else {
            None
        };
    }
    search(p, c, from as usize)
}

// The same for any set. By `for`: `find` would take a closure with a contract of its own.
fn search(p: Chosen, c: Block, start: usize) -> Option<u8>
    requires { start < 2 ^ 16 }
    ensures { result ≡ searched p c start }
{
    let n = direction_count(p.set) as usize;
    for i in 0..n {
        let at = ((start + i) % n) as u8;
        if is_subdivisible(p, c, at) {
            return Some(at);
        }
    }
    None
}

// Whether the block can be cut along the direction at a place.
fn is_subdivisible(p: Chosen, c: Block, at: u8) -> bool
    ensures { result ≡ subdivisible_along c (direction_at (directions p.set) at) }
{
    match direction_at(p.set, at) {
        Some(d) => is_subdivisible_along(c, d),
        None => false,
    }
}

fn is_subdivisible_along(c: Block, d: Direction) -> bool
    ensures { result ≡ subdivisible_along c (Some d) }
{
    match d {
        Direction::XY => is_cuttable(c, d),
        _ => splits(parameter_of(c, d), is_integer(d)),
    }
}

// Whether a parameter is subdivisible.
#[tactic(auto, unfolding(crate::specs::Turn::splits_at))]
fn splits(x: Interval, integer: bool) -> bool
    ensures { result ≡ splits_at x integer }
{
    interval::is_subdivisible(x, integer).unwrap_or(false)
}
