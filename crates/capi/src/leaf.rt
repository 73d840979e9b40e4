// The leaves that an evaluator needs: points and cuts of intervals, small numbers, and coordinates on one axis.
ghost use Rattle.std.specs.Prelude.{◌≡◌, false};
ghost use Rattle.coordinate.specs.Axis.{ordinary_floor};
ghost use Rattle.coordinate.specs.Lone.{pixel_asked, halves_asked, subdivisible_asked};
ghost use Rattle.interval.specs.Answers.{point_answer, whether_at, pieces_at};
ghost use Rattle.interval.specs.Bounds.{legal_interval, put_interval};
ghost use Rattle.interval.specs.Cuts.{subdivisible, first_cut, later_cut};
ghost use Rattle.interval.specs.Fraction.{simple_fraction};
ghost use Rattle.interval.specs.Kinds.{midpoint_of, cut_point_of};
ghost use Rattle.small.specs.Small.{code_of, read_small};
ghost use Rattle.capi.specs.Leaf.{coordinate_from, point_record, whether_record, pieces_record, code_record, read_record, pixel_record, halves_record};

use crate::records::{Code, Coordinate, Halved, Number, Pieces, Point, Read};
use interval::Interval;

// The midpoint of an interval.
#[unsafe(no_mangle)]
pub extern "C" fn smyrilox_midpoint(x: Interval) -> Point
    ensures { result ≡ point_record (point_answer (legal_interval x false) (midpoint_of (put_interval x))) }
{
    interval::midpoint(x).into()
}

// A number between the bounds with few digits: the first sample point.
#[unsafe(no_mangle)]
pub extern "C" fn smyrilox_simple_fraction(x: Interval) -> Point
    ensures { result ≡ point_record (point_answer (legal_interval x false) (simple_fraction (put_interval x).lower (put_interval x).upper)) }
{
    interval::simple_fraction(x).into()
}

// The point at which the later cut divides a parameter.
#[unsafe(no_mangle)]
pub extern "C" fn smyrilox_subdivision_point(x: Interval, integer: bool) -> Point
    ensures { result ≡ point_record (point_answer (legal_interval x integer) (cut_point_of (put_interval x) integer)) }
{
    interval::subdivision_point(x, integer).into()
}

// Whether a parameter is subdivisible.
#[unsafe(no_mangle)]
pub extern "C" fn smyrilox_is_subdivisible(x: Interval, integer: bool) -> Number
    ensures { result ≡ whether_record (whether_at (legal_interval x integer) (subdivisible (put_interval x) integer)) }
{
    interval::is_subdivisible(x, integer).into()
}

// The pieces of a parameter's first cut.
#[unsafe(no_mangle)]
pub extern "C" fn smyrilox_first_cut(x: Interval, integer: bool) -> Pieces
    ensures { result ≡ pieces_record (pieces_at (legal_interval x integer) (first_cut (put_interval x) integer)) }
{
    interval::first_cut(x, integer).into()
}

// The pieces of a parameter's later cut.
#[unsafe(no_mangle)]
pub extern "C" fn smyrilox_later_cut(x: Interval, integer: bool) -> Pieces
    ensures { result ≡ pieces_record (pieces_at (legal_interval x integer) (later_cut (put_interval x) integer)) }
{
    interval::later_cut(x, integer).into()
}

// The code of a small number.
#[unsafe(no_mangle)]
pub extern "C" fn smyrilox_write_small(x: u64) -> Code
    ensures { result ≡ code_record (code_of x) }
{
    small::write_small(x).into()
}

// The small number at the front of some bytes.
#[unsafe(no_mangle)]
pub extern "C" fn smyrilox_read_small(bytes: &[u8]) -> Read
    ensures { result ≡ read_record (read_small bytes.now) }
{
    small::read_small(bytes).into()
}

// The pixel that a coordinate begins in.
#[unsafe(no_mangle)]
pub extern "C" fn smyrilox_pixel_index(c: Coordinate) -> Number
    ensures { result ≡ pixel_record (pixel_asked ordinary_floor (coordinate_from c)) }
{
    coordinate::pixel_index(c.into()).into()
}

// The halves of a coordinate, one level down.
#[unsafe(no_mangle)]
pub extern "C" fn smyrilox_halves(c: Coordinate) -> Halved
    ensures { result ≡ halves_record (halves_asked ordinary_floor (coordinate_from c)) }
{
    coordinate::subdivide(c.into()).into()
}

// Whether a coordinate has a level below.
#[unsafe(no_mangle)]
pub extern "C" fn smyrilox_is_halvable(c: Coordinate) -> Number
    ensures { result ≡ whether_record (subdivisible_asked ordinary_floor (coordinate_from c)) }
{
    coordinate::is_subdivisible(c.into()).into()
}
