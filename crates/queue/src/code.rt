// Writing a block's code: its bytes into a buffer that has room for the longest, 83 of them. Each writer takes the place and answers
// where it ends: a struct of the buffer and the place would have to be taken apart at each of their contracts.
ghost use Rattle.std.specs.Prelude.{◌≡◌, ◌∷◌, [], ◌+◌, ◌^◌, ◌≤◌, ◌<◌, true, length};
ghost use Rattle.base.specs.Bytes.{little_endian};
ghost use Rattle.small.specs.Small.{small_code};
ghost use Rattle.queue.specs.Directions.{in_use, parameters};
ghost use Rattle.queue.specs.Block.{parameter_of, recalled};
ghost use Rattle.queue.specs.Code.{level_byte, coordinate_code, bounds_code, parameter_code, parameters_code};
ghost use Rattle.queue.specs.Code.{place_code, encode, can_queue, indices_known};
ghost use Rattle.queue.specs.CodeComputed.{Written};

use super::directions::{Direction, is_used};
use super::kept::{parameter_of, recall};
use super::{Block, Last};
use coordinate::PIXEL_RANK;
use interval::Interval;

// The low bytes of a number, lowest first.
fn put_little(out: &mut [u8], v: u64)
    ensures { out.new ≡ little_endian (length out.old) v }
{
    let mut left = v;
    for byte in out.iter_mut() {
        *byte = (left % 256) as u8;
        left /= 256;
    }
}

// A small number. Answers where it ends.
fn put_number(out: &mut [u8], at: usize, x: u64) -> usize
    requires { (at + 8 ≤ length out.old) × (x < 2 ^ 56) }
    ensures { Written out.old at (small_code x) result out.new }
{
    match small::write_small(x) {
        Ok(code) => {
            out[at] = code.head;
            let end = at + 1 + code.count;
            put_little(&mut out[at + 1..end], code.tail);
            end
        }
        Err(_) => at,
    }
}

// The byte of a level, two's complement.
fn level_byte(rank: u8) -> u8
    requires { rank < 64 }
    ensures { result ≡ level_byte rank }
{
    rank.wrapping_sub(PIXEL_RANK)
}

// A coordinate against the remembered index.
pub(crate) fn put_coordinate(out: &mut [u8], at: usize, last: u64, index: u64, rank: u8) -> usize
    requires { (at + 9 ≤ length out.old) × (last < 2 ^ 47) × (index < 2 ^ 47) × (rank < 64) }
    ensures { Written out.old at (coordinate_code last (record { index = index; rank = rank })) result out.new }
{
    let end = put_number(out, at, index ^ last);
    out[end] = level_byte(rank);
    end + 1
}

// The mark of a parameter that is the remembered one again.
fn put_mark(out: &mut [u8], at: usize) -> usize
    requires { at + 2 ≤ length out.old }
    ensures { Written out.old at (255 ∷ 255 ∷ []) result out.new }
{
    out[at] = 255;
    out[at + 1] = 255;
    at + 2
}

// The bounds of a parameter.
fn put_bounds(out: &mut [u8], at: usize, p: Interval) -> usize
    requires { at + 16 ≤ length out.old }
    ensures { Written out.old at (bounds_code p) result out.new }
{
    let end = at + 16;
    out[at..at + 8].copy_from_slice(&interval::bits_of(p.lower).to_be_bytes());
    out[at + 8..end].copy_from_slice(&interval::bits_of(p.upper).to_be_bytes());
    end
}

// A parameter against the remembered one.
fn put_parameter(out: &mut [u8], at: usize, used: bool, last: Interval, p: Interval) -> usize
    requires { at + 16 ≤ length out.old }
    ensures { Written out.old at (parameter_code used last p) result out.new }
{
    if !used {
        return at;
    }
    if interval::is_same(p, last) {
        return put_mark(out, at);
    }
    put_bounds(out, at, p)
}

// The parameter along a direction.
fn put_along(out: &mut [u8], at: usize, set: u8, last: Last, b: Block, d: Direction) -> usize
    requires { at + 16 ≤ length out.old }
    ensures { Written out.old at (parameter_code (in_use set d) (recalled last d) (parameter_of b d)) result out.new }
{
    put_parameter(
        out,
        at,
        is_used(set, d),
        recall(last, d),
        parameter_of(b, d),
    )
}

// The used parameters in order.
fn put_parameters(out: &mut [u8], at: usize, set: u8, last: Last, b: Block) -> usize
    requires { at + 64 ≤ length out.old }
    ensures { Written out.old at (parameters_code set last b parameters) result out.new }
{
    let m = put_along(out, at, set, last, b, Direction::M);
    let n = put_along(out, m, set, last, b, Direction::N);
    let theta = put_along(out, n, set, last, b, Direction::Theta);
    put_along(out, theta, set, last, b, Direction::T)
}

// x and y, at the front, of a block that can be queued.
fn put_place(out: &mut [u8], set: u8, last: Last, b: Block) -> usize
    requires { (18 ≤ length out.old) × (can_queue set b ≡ true) × (indices_known last ≡ true) }
    ensures { Written out.old 0 (place_code last b) result out.new }
{
    let end = put_coordinate(out, 0, last.x, b.x.index, b.x.rank);
    put_coordinate(out, end, last.y, b.y.index, b.y.rank)
}

// A block's code at the front of a buffer. Answers its length.
pub(crate) fn put_block(out: &mut [u8], set: u8, last: Last, b: Block) -> usize
    requires { (83 ≤ length out.old) × (can_queue set b ≡ true) × (indices_known last ≡ true) }
    ensures { Written out.old 0 (encode set last b) result out.new }
{
    let place = put_place(out, set, last, b);
    let end = put_parameters(out, place, set, last, b);
    out[end] = b.dir;
    end + 1
}
