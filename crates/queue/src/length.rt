// How many bytes a block's code takes, counted without writing it.
ghost use Rattle.std.specs.Prelude.{◌≡◌, true, ◌^◌, ◌<◌, length};
ghost use Rattle.small.specs.Small.{small_code};
ghost use Rattle.queue.specs.Directions.{in_use, parameters};
ghost use Rattle.queue.specs.Block.{parameter_of, recalled};
ghost use Rattle.queue.specs.Code.{coordinate_code, parameter_code, parameters_code, place_code, encode, can_queue};
ghost use Rattle.queue.specs.Code.{indices_known};

use super::directions::{Direction, is_used};
use super::kept::{parameter_of, recall};
use super::{Block, Last};
use coordinate::Coordinate;

// The bytes of a small number.
fn number_length(x: u64) -> usize
    ensures { result ≡ length (small_code x) }
{
    match small::write_small(x) {
        Ok(code) => code.count + 1,
        Err(_) => 0,
    }
}

// The bytes of a coordinate against the remembered index.
fn coordinate_length(last: u64, c: Coordinate) -> usize
    requires { (last < 2 ^ 47) × (c.index < 2 ^ 47) }
    ensures { result ≡ length (coordinate_code last c) }
{
    number_length(c.index ^ last) + 1
}

// The bytes of the parameter along a direction, against the remembered one.
fn parameter_length(set: u8, last: Last, b: Block, d: Direction) -> usize
    ensures { result ≡ length (parameter_code (in_use set d) (recalled last d) (parameter_of b d)) }
{
    if !is_used(set, d) {
        return 0;
    }
    if interval::is_same(parameter_of(b, d), recall(last, d)) {
        2
    } else {
        16
    }
}

// The bytes of the used parameters.
fn parameters_length(set: u8, last: Last, b: Block) -> usize
    ensures { result ≡ length (parameters_code set last b parameters) }
{
    let m = parameter_length(set, last, b, Direction::M);
    let n = parameter_length(set, last, b, Direction::N);
    let theta = parameter_length(set, last, b, Direction::Theta);
    let t = parameter_length(set, last, b, Direction::T);
    m + n + theta + t
}

// The bytes of x and y.
pub(crate) fn place_length(last: Last, b: Block) -> usize
    requires { (last.x < 2 ^ 47) × (last.y < 2 ^ 47) × (b.x.index < 2 ^ 47) × (b.y.index < 2 ^ 47) }
    ensures { result ≡ length (place_code last b) }
{
    coordinate_length(last.x, b.x) + coordinate_length(last.y, b.y)
}

// The bytes of a block that can be queued.
pub(crate) fn block_length(set: u8, last: Last, b: Block) -> usize
    requires { (can_queue set b ≡ true) × (indices_known last ≡ true) }
    ensures { result ≡ length (encode set last b) }
{
    place_length(last, b) + parameters_length(set, last, b) + 1
}
