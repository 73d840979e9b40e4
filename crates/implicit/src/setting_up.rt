// The setup of a picture: what it refuses, and the ring, the cells and the record that it leaves.
// Document 01, "Setup: 1, 2, 3, 6"; from the Rust's `Implicit::new`. Nothing is written before every refusal was looked for.
ghost use Rattle.std.specs.Prelude.{◌≡◌, ◌*◌, ◌≤◌, length, Ok};
ghost use Rattle.implicit.specs.Setup.{ranges_legal, setup_refusal, least_ring, start_record, start_ring, start_cells, setup_answer, cleared, ring_begun, cells_begun};
ghost use Rattle.implicit.specs.Answers.{needed_bytes};

use crate::first::{measure_first, product_count, product_of, queue_first};
use crate::state::{Ranges, State};
use decide::{Chosen, is_legal_side};
use image::Op;
use queue::{are_parameters_legal, starting_last};
use refusal::Refusal;

// Whether the variable set and the ranges of its parameters are legal.
fn are_ranges_legal(set: u8, ranges: Ranges) -> bool
    ensures { result ≡ ranges_legal set ranges }
{
    let fine = are_parameters_legal(set, ranges.m, ranges.n, ranges.theta, ranges.t);
    (set <= 63) & fine
}

// The first refusal that applies, if any, to a ring of so many bytes and so many cells.
pub(crate) fn check_setup(
    p: Chosen,
    ranges: Ranges,
    len: usize,
    count: usize,
) -> Result<(), Refusal>
    ensures { result ≡ setup_refusal p ranges len count }
{
    if !(is_legal_side(p.width) & is_legal_side(p.height)) {
        return Err(Refusal::Side);
    }
    if count < p.width as usize * p.height as usize {
        return Err(Refusal::Cells);
    }
    if !are_ranges_legal(p.set, ranges) {
        return Err(Refusal::Parameter);
    }
    if len < measure_first(p, ranges) {
        return Err(Refusal::Room);
    }
    Ok(())
}

// The least ring for a setup, 81 codes at most; what later steps need is answered by `enough_ring`.
pub fn least_ring(chosen: Chosen, ranges: Ranges) -> Result<usize, Refusal>
    ensures value { result ≡ least_ring chosen ranges }
    ensures result_bound { needed_bytes result ≤ 83 * 81 }
{
    if !(is_legal_side(chosen.width) & is_legal_side(chosen.height)) {
        return Err(Refusal::Side);
    }
    if !are_ranges_legal(chosen.set, ranges) {
        return Err(Refusal::Parameter);
    }
    Ok(measure_first(chosen, ranges))
}

// The first blocks queued, every pixel's cell naming the last of them, and the record.
pub(crate) fn begin(p: Chosen, ranges: Ranges, ring: &mut [u8], cells: &mut [u64]) -> State
    requires { setup_refusal p ranges (length ring.old) (length cells.old) ≡ Ok tt }
    ensures value { result ≡ start_record p ranges (length ring.old) }
    ensures ring_after { ring.new ≡ start_ring p ranges ring.old }
    ensures cells_after { cells.new ≡ start_cells p ranges cells.old }
{
    let k = queue_first(p, ranges, ring);
    let queued = product_count(product_of(p, ranges)) as u64;
    let all = image::whole(p.width, p.height);
    image::paint(cells, p.width, p.height, all, Op::Fill { to: queued - 1 });
    let back = k.back;
    State {
        chosen: p,
        taken: 0,
        queued,
        len: ring.len(),
        head: 0,
        used: k.used,
        front: starting_last(),
        back,
    }
}

// What was chosen, as a setup keeps it.
pub(crate) fn clear(chosen: Chosen) -> Chosen
    ensures { result ≡ cleared chosen }
{
    Chosen {
        reserved1: 0,
        reserved2: 0,
        reserved3: 0,
        ..chosen
    }
}

// Begins a picture: refused by 1, 2, 3 or 6 it writes nothing.
pub fn setup(
    chosen: Chosen,
    ranges: Ranges,
    ring: &mut [u8],
    cells: &mut [u64],
) -> Result<State, Refusal>
    ensures value { result ≡ setup_answer (cleared chosen) ranges (length ring.old) (length cells.old) }
    ensures ring_after { ring.new ≡ ring_begun (cleared chosen) ranges ring.old cells.old }
    ensures cells_after { cells.new ≡ cells_begun (cleared chosen) ranges ring.old cells.old }
{
    let p = clear(chosen);
    check_setup(p, ranges, ring.len(), cells.len())?;
    Ok(begin(p, ranges, ring, cells))
}
