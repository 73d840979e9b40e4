// Legality: which parameters a block may have, and which places can be coded.
ghost use Rattle.std.specs.Prelude.{◌≡◌};
ghost use Rattle.queue.specs.Code.{legal_if_used, parameters_legal};
ghost use Rattle.queue.specs.CodeComputed.{place_codable};

use super::directions::{Direction, is_used};
use super::kept::is_integer;
use coordinate::{Coordinate, INDEX_LIMIT};
use interval::Interval;

// Whether a parameter is legal, if it is used.
fn is_legal_if_used(set: u8, d: Direction, p: Interval) -> bool
    ensures { result ≡ legal_if_used set d p }
{
    !is_used(set, d) || interval::is_legal(p, is_integer(d))
}

// Whether all four are: of a block, or of a setup's ranges.
pub fn are_parameters_legal(set: u8, m: Interval, n: Interval, theta: Interval, t: Interval) -> bool
    ensures { result ≡ parameters_legal set m n theta t }
{
    let legal_m = is_legal_if_used(set, Direction::M, m);
    let legal_n = is_legal_if_used(set, Direction::N, n);
    let legal_theta = is_legal_if_used(set, Direction::Theta, theta);
    let legal_t = is_legal_if_used(set, Direction::T, t);
    legal_m & legal_n & legal_theta & legal_t
}

// Whether x and y can be queued, and the remembered indices are ones that a block can have.
pub(crate) fn is_place_codable(x: Coordinate, y: Coordinate, lastx: u64, lasty: u64) -> bool
    ensures { result ≡ place_codable x y lastx lasty }
{
    let legal_x = coordinate::is_legal(x);
    let legal_y = coordinate::is_legal(y);
    legal_x & legal_y & (lastx < INDEX_LIMIT) & (lasty < INDEX_LIMIT)
}
