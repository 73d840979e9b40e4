// Reading a block back out of the ring's two stretches, byte by byte where a code lies across them.
// Nothing past the stretches is looked at; what is no code is None. What is read comes with how many bytes it took.
ghost use Rattle.std.specs.Prelude.{◌≡◌, ℕ, ◌+◌, ◌≤◌, ◌<◌, length, take, drop, get_or};
ghost use Rattle.base.specs.Bytes.{of_big_endian};
ghost use Rattle.small.specs.Small.{read_small};
ghost use Rattle.queue.specs.Decode.{level_of, level_read, coordinate_read, bounds_read, used_read};
ghost use Rattle.queue.specs.Decode.{with_place, rest_read, decode};
ghost use Rattle.queue.specs.DecodeComputed.{parameter_along};
ghost use Rattle.queue.specs.RingComputed.{bytes};

use super::directions::{Direction, is_used};
use super::kept::{is_integer, recall};
use super::ring::Stretches;
use super::{Block, Last};
use coordinate::{Coordinate, PIXEL_RANK};
use interval::{Interval, whole_line};
use refusal::Refusal;
use small::Number;

// Copies bytes of the two stretches from an offset on, as many as there is room for.
fn gather(out: &mut [u8], held: Stretches<'_>, at: usize)
    requires { at + length out.old ≤ length (bytes held) }
    ensures copied { out.new ≡ take (length out.old) (drop at (bytes held.entry)) }
    ensures are_bytes { (k : ℕ) → k < length out.old → get_or out.new k 0 < 256 }
{
    for (i, byte) in out.iter_mut().enumerate() {
        *byte = held.byte_at(at + i);
    }
}

// A small number whose bytes may lie in both stretches.
fn read_across(held: Stretches<'_>, at: usize) -> Result<Number, Refusal>
    requires { at ≤ length (bytes held) }
    ensures value { result ≡ read_small (take 8 (drop at (bytes held.entry))) }
    ensures is_byte { get_or (bytes held.entry) at 0 < 256 }
{
    let mut code = [0u8; 8];
    let count = (held.len() - at).min(code.len());
    gather(&mut code[..count], held, at);
    small::read_small(&code[..count])
}

// A small number, from one stretch where it lies in one.
fn read_number(held: Stretches<'_>, at: usize) -> Result<Number, Refusal>
    requires { at ≤ length (bytes held) }
    ensures { result ≡ read_small (drop at (bytes held.entry)) }
{
    match small::read_small(held.part(at)) {
        Ok(number) => Ok(number),
        Err(_) => read_across(held, at),
    }
}

// The rank that a level's byte stands for.
fn level_of(byte: u8) -> Option<u8>
    ensures { result ≡ level_of byte }
{
    match byte {
        0..=15 => Some(byte + PIXEL_RANK),
        224..=255 => Some(byte - 208),
        _ => None,
    }
}

// The level behind a small number.
fn read_level(held: Stretches<'_>, at: usize) -> Option<u8>
    ensures { result ≡ level_read (drop at (bytes held.entry)) }
{
    level_of(held.get(at)?)
}

// A coordinate against the remembered index.
fn read_coordinate(held: Stretches<'_>, at: usize, last: u64) -> Option<(Coordinate, usize)>
    requires { at ≤ length (bytes held) }
    ensures { result ≡ coordinate_read last (drop at (bytes held.entry)) }
{
    let number = read_number(held, at).ok()?;
    let rank = read_level(held, at + number.count)?;
    let index = last ^ number.x;
    Some((Coordinate { index, rank }, number.count + 1))
}

// The number in eight bytes, highest first.
fn read_word(held: Stretches<'_>, at: usize) -> u64
    requires { at + 8 ≤ length (bytes held) }
    ensures { result ≡ of_big_endian (take 8 (drop at (bytes held.entry))) }
{
    let mut word = [0u8; 8];
    gather(&mut word, held, at);
    u64::from_be_bytes(word)
}

// The bounds of a parameter.
fn read_bounds(held: Stretches<'_>, at: usize, integer: bool) -> Option<(Interval, usize)>
    requires { at ≤ length (bytes held) }
    ensures { result ≡ bounds_read integer (drop at (bytes held.entry)) }
{
    if held.len() - at < 16 {
        return None;
    }
    let lower = read_word(held, at);
    let upper = read_word(held, at + 8);
    let interval = interval::interval_from_bits(lower, upper, integer).ok()?;
    Some((interval, 16))
}

// A used parameter against the remembered one.
fn read_used(
    held: Stretches<'_>,
    at: usize,
    integer: bool,
    last: Interval,
) -> Option<(Interval, usize)>
    requires { at ≤ length (bytes held) }
    ensures { result ≡ used_read integer last (drop at (bytes held.entry)) }
{
    let first = held.get(at)?;
    let second = held.get(at + 1)?;
    if (first == 255) & (second == 255) {
        return Some((interval::put(last), 2));
    }
    read_bounds(held, at, integer)
}

// The parameter along a direction, used or not, and where it ends.
fn read_along(
    held: Stretches<'_>,
    at: usize,
    set: u8,
    last: Last,
    d: Direction,
) -> Option<(Interval, usize)>
    requires { at ≤ length (bytes held) }
    ensures { result ≡ parameter_along set last (bytes held.entry) d at }
{
    if !is_used(set, d) {
        return Some((whole_line(), at));
    }
    let (interval, count) = read_used(held, at, is_integer(d), recall(last, d))?;
    Some((interval, at + count))
}

// The used parameters in order, and the direction, behind x and y: the block is made here.
fn read_parameters(
    held: Stretches<'_>,
    at: usize,
    set: u8,
    last: Last,
    x: Coordinate,
    y: Coordinate,
) -> Option<(Block, usize)>
    requires { at ≤ length (bytes held) }
    ensures { result ≡ rest_read set last (bytes held.entry) (with_place x y at) }
{
    let (m, at_n) = read_along(held, at, set, last, Direction::M)?;
    let (n, at_theta) = read_along(held, at_n, set, last, Direction::N)?;
    let (theta, at_t) = read_along(held, at_theta, set, last, Direction::Theta)?;
    let (t, end) = read_along(held, at_t, set, last, Direction::T)?;
    let dir = held.get(end)?;
    let block = Block {
        x,
        y,
        m,
        n,
        theta,
        t,
        dir,
    };
    Some((block, end + 1))
}

// What stands behind x and y: the direction alone where the set has no parameter.
fn read_rest(
    held: Stretches<'_>,
    at: usize,
    set: u8,
    last: Last,
    x: Coordinate,
    y: Coordinate,
) -> Option<(Block, usize)>
    requires { at ≤ length (bytes held) }
    ensures { result ≡ rest_read set last (bytes held.entry) (with_place x y at) }
{
    if set % 16 != 0 {
        return read_parameters(held, at, set, last, x, y);
    }
    let dir = held.get(at)?;
    let line = whole_line();
    let block = Block {
        x,
        y,
        m: line,
        n: line,
        theta: line,
        t: line,
        dir,
    };
    Some((block, at + 1))
}

// The block at the front of the two stretches, against the remembered values.
pub(crate) fn read_block(held: Stretches<'_>, set: u8, last: Last) -> Option<(Block, usize)>
    ensures { result ≡ decode set last (bytes held.entry) }
{
    let (x, at) = read_coordinate(held, 0, last.x)?;
    let (y, count) = read_coordinate(held, at, last.y)?;
    read_rest(held, at + count, set, last, x, y)
}
