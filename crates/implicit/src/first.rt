// The first blocks of a setup: the product of the pieces that each used parameter is first cut into, measured or queued one by one.
// Document 01, "Setup"; from the Rust's `Implicit::new`.
ghost use Rattle.std.specs.Prelude.{◌≡◌, true, ◌+◌, ◌*◌, ◌<◌, ◌≤◌, length};
ghost use Rattle.queue.specs.Block.{as_queued, whole_line};
ghost use Rattle.queue.specs.Code.{encode};
ghost use Rattle.queue.specs.Queue.{codable};
ghost use Rattle.queue.specs.Ring.{fits_ring, stored_behind};
ghost use Rattle.implicit.specs.Setup.{start_level, root_block, ranges_legal, first_bytes, start_ring};
ghost use Rattle.implicit.specs.SetupComputed.{pieces_kept, product_of, piece_count, piece_at, picked_by, product_count, product_at, behind_with, behind_first};

use crate::state::Ranges;
use coordinate::{Coordinate, PIXEL_RANK};
use decide::Chosen;
use interval::{Interval, Pieces};
use queue::{
    Block, Direction, Last, as_queued, is_integer, is_used, starting_last, whole_line,
    with_parameter,
};
use refusal::Refusal;

// The first blocks before they are listed: the whole block, and the pieces that each parameter is cut into.
#[derive(Clone, Copy)]
pub(crate) struct Product {
    root: Block,
    m: Result<Pieces, Refusal>,
    n: Result<Pieces, Refusal>,
    theta: Result<Pieces, Refusal>,
    t: Result<Pieces, Refusal>,
}

// A first block of which some pieces are picked, and the number that picks the others.
#[derive(Clone, Copy)]
struct Picked {
    block: Block,
    left: usize,
}

// What is remembered of the last block queued, and the bytes used. Not what `commit` hands on: no number goes along here, the first blocks are counted before.
#[derive(Clone, Copy)]
pub(crate) struct Behind {
    pub(crate) back: Last,
    pub(crate) used: usize,
}

// The level of the first blocks: the definition's own search. By the leading zeros of the side less one it would take a guard for a side of 0 and a bound
// of 15, which the loop has in its range.
fn start_level(p: Chosen) -> u8
    ensures value { result ≡ start_level p }
    ensures upper_bound { result ≤ 15 }
{
    let side = p.width.max(p.height);
    for k in 0..15u8 {
        if side <= 1u32 << k {
            return k;
        }
    }
    15
}

// The block that covers the whole picture and all ranges.
fn root_block(p: Chosen, ranges: Ranges) -> Block
    ensures { result ≡ root_block p ranges }
{
    let c = Coordinate {
        index: 0,
        rank: PIXEL_RANK + start_level(p),
    };
    let m = ranges.m;
    let n = ranges.n;
    let theta = ranges.theta;
    let t = ranges.t;
    as_queued(
        p.set,
        Block {
            x: c,
            y: c,
            m,
            n,
            theta,
            t,
            dir: 0,
        },
    )
}

// The pieces of a parameter's range. Called, not compiled into its callers: there the compiler clears all that they build of it by the C library's `memset`,
// which the archive asks of nobody.
#[inline(never)]
fn pieces_of(set: u8, d: Direction, range: Interval) -> Result<Pieces, Refusal>
    ensures { result ≡ pieces_kept set d range }
{
    if is_used(set, d) {
        interval::first_cut(range, is_integer(d))
    } else {
        Ok(Pieces::One(whole_line()))
    }
}

// What the first blocks are made of.
pub(crate) fn product_of(p: Chosen, ranges: Ranges) -> Product
    ensures { result ≡ product_of p ranges }
{
    let root = root_block(p, ranges);
    let m = pieces_of(p.set, Direction::M, ranges.m);
    let n = pieces_of(p.set, Direction::N, ranges.n);
    let theta = pieces_of(p.set, Direction::Theta, ranges.theta);
    let t = pieces_of(p.set, Direction::T, ranges.t);
    Product {
        root,
        m,
        n,
        theta,
        t,
    }
}

// How many pieces a cut gave.
fn piece_count(c: Result<Pieces, Refusal>) -> usize
    ensures value { result ≡ piece_count c }
    ensures upper_bound { result ≤ 3 }
{
    match c {
        Ok(pieces) => pieces.count(),
        Err(_) => 0,
    }
}

// One of them, by its place; where there is none, the whole line.
fn piece_at(c: Result<Pieces, Refusal>, j: usize) -> Interval
    ensures { result ≡ piece_at c j }
{
    match c {
        Ok(pieces) => pieces.get(j).unwrap_or(whole_line()),
        Err(_) => whole_line(),
    }
}

// How many first blocks there are.
pub(crate) fn product_count(f: Product) -> usize
    ensures value { result ≡ product_count f }
    ensures upper_bound { result ≤ 81 }
{
    let m = f.m;
    let n = f.n;
    let theta = f.theta;
    let t = f.t;
    piece_count(m) * piece_count(n) * piece_count(theta) * piece_count(t)
}

// A parameter's piece picked by the number that is left, which it divides.
fn pick(k: Picked, d: Direction, c: Result<Pieces, Refusal>) -> Picked
    requires { 0 < piece_count c }
    ensures { result ≡ picked_by d c k }
{
    let n = piece_count(c);
    let piece = piece_at(c, k.left % n);
    let block = with_parameter(k.block, d, piece);
    Picked {
        block,
        left: k.left / n,
    }
}

// One of the first blocks, by its number: t's piece changes first, m's last.
fn product_at(f: Product, i: usize) -> Block
    requires { 0 < product_count f }
    ensures { result ≡ product_at f i }
{
    let block = f.root;
    let m = f.m;
    let n = f.n;
    let theta = f.theta;
    let t = f.t;
    let k = pick(Picked { block, left: i }, Direction::T, t);
    let k = pick(k, Direction::Theta, theta);
    let k = pick(k, Direction::N, n);
    let k = pick(k, Direction::M, m);
    k.block
}

// The bytes used once a block's code stands behind them, without writing it.
fn measure_behind(set: u8, k: Behind, b: Block) -> Behind
    requires { (codable set k.back b ≡ true) × (as_queued set b ≡ b) × (k.used ≤ 83 * 81) }
    ensures { result ≡ behind_with set k b }
{
    match queue::measure(set, k.back, b) {
        Ok(measured) => Behind {
            back: measured.last,
            used: k.used + measured.count,
        },
        Err(_) => k,
    }
}

// The bytes that the first blocks' codes take.
pub(crate) fn measure_first(p: Chosen, ranges: Ranges) -> usize
    requires { ranges_legal p.set ranges ≡ true }
    ensures value { result ≡ length (first_bytes p ranges) }
    ensures upper_bound { result ≤ 83 * 81 }
{
    let f = product_of(p, ranges);
    let n = product_count(f);
    let mut k = Behind {
        back: starting_last(),
        used: 0,
    };
    for i in 0..n {
        k = measure_behind(p.set, k, product_at(f, i));
    }
    k.used
}

// A block's code written behind the bytes used, from byte 0 on.
fn queue_behind(ring: &mut [u8], set: u8, k: Behind, b: Block) -> Behind
    requires { (codable set k.back b ≡ true) × (as_queued set b ≡ b) × (fits_ring (length ring.old) 0 k.used ≡ true) × (k.used + length (encode set k.back b) ≤ length ring.old) }
    ensures { (result ≡ behind_with set k b) × (ring.new ≡ stored_behind ring.old 0 k.used (encode set k.back b)) }
{
    match queue::append(ring, 0, k.used, set, k.back, b) {
        Ok(done) => Behind {
            back: done.last,
            used: done.used,
        },
        Err(_) => k,
    }
}

// The first blocks queued, in order.
pub(crate) fn queue_first(p: Chosen, ranges: Ranges, ring: &mut [u8]) -> Behind
    requires { (ranges_legal p.set ranges ≡ true) × (length (first_bytes p ranges) ≤ length ring.old) }
    ensures { (result ≡ behind_first p ranges) × (ring.new ≡ start_ring p ranges ring.old) }
{
    let f = product_of(p, ranges);
    let n = product_count(f);
    let mut k = Behind {
        back: starting_last(),
        used: 0,
    };
    for i in 0..n {
        k = queue_behind(ring, p.set, k, product_at(f, i));
    }
    k
}
