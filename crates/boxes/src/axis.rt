// A block along one axis: its edges in pixels, exact, their images, and what they are narrowed to.
ghost use Rattle.std.specs.Prelude.{◌≡◌, cond, ◌≤◌, ◌<◌, ◌+◌, ◌^◌};
ghost use Rattle.boxes.specs.Pixels.{in_pixels, point_at, begins_at, ends_at, clipped_end, axis_map};
ghost use Rattle.boxes.specs.Boxes.{middle_of, on_pixel_edge, box_along};
ghost use Rattle.boxes.specs.PixelsComputed.{Placed};

use crate::transformation::{MapKind, Transformation, image, map_of};
use coordinate::{Coordinate, FLOOR_RANK, PIXEL_RANK};
use interval::{Interval, midpoint, put};

// Parts of a pixel, each as wide as an index of the lowest level.
const PARTS: u64 = 1 << 32;

// An axis of a plot: its side and the padding at both ends, in pixels, and the intervals that its edges stand in.
#[derive(Clone, Copy, Debug, PartialEq)]
pub struct PlotAxis {
    pub side: u32,
    pub before: u32,
    pub after: u32,
    pub from: Interval,
    pub upto: Interval,
}

// A block along an axis: its two edges, and the interval between them.
#[derive(Clone, Copy, Debug, PartialEq)]
pub struct AxisBox {
    pub low: Interval,
    pub high: Interval,
    pub narrowed: Interval,
}

// So many parts, in pixels: exact.
fn in_pixels(n: u64) -> f64
    requires { n ≤ 2 ^ 53 }
    ensures { result ≡ in_pixels n }
{
    (n as f64) / 4294967296.0
}

// The interval of it alone.
#[tactic(auto, unfolding(crate::specs::Pixels::point_at))]
fn point(n: u64) -> Interval
    requires { n ≤ 2 ^ 53 }
    ensures { result ≡ point_at n }
{
    let e = in_pixels(n);
    put(Interval { lower: e, upper: e })
}

// Where a coordinate begins, in parts.
fn begin(c: Coordinate) -> u64
    requires { Placed c }
    ensures { result ≡ begins_at c }
{
    c.index << (c.rank - FLOOR_RANK)
}

// Where it ends.
fn end(c: Coordinate) -> u64
    requires { Placed c }
    ensures { result ≡ ends_at c }
{
    (c.index + 1) << (c.rank - FLOOR_RANK)
}

// Where it ends, clipped to the side from level 0 up.
fn clipped_end(side: u32, c: Coordinate) -> u64
    requires { Placed c }
    ensures { result ≡ clipped_end side c }
{
    let n = end(c);
    let s = u64::from(side) * PARTS;
    if (PIXEL_RANK <= c.rank) & (s < n) {
        s
    } else {
        n
    }
}

// The map of an axis.
#[tactic(auto, unfolding(crate::specs::Pixels::axis_map))]
fn axis_map(kind: MapKind, a: PlotAxis) -> Transformation
    requires { (a.side ≤ 32768) × (a.before + a.after < a.side) }
    ensures { result ≡ axis_map kind a }
{
    let first = point(u64::from(a.before) * PARTS);
    let last = point(u64::from(a.side - a.after) * PARTS);
    map_of(kind, first, last, a.from, a.upto)
}

// The middle of an interval.
#[tactic(auto, unfolding(crate::specs::Boxes::middle_of))]
fn middle(x: Interval) -> f64
    ensures { result ≡ middle_of x }
{
    midpoint(x).unwrap_or(x.lower)
}

// Whether an index begins on a pixel's edge.
#[tactic(auto, using(crate::proofs::BoxLaws::pixel_edges))]
fn is_on_pixel_edge(rank: u8, i: u64) -> bool
    requires { 16 ≤ rank }
    ensures { result ≡ on_pixel_edge rank i }
{
    PIXEL_RANK <= rank || i % (1 << (PIXEL_RANK - rank)) == 0
}

// An end of the narrowed interval: the outermost end of an edge that is a pixel's, else the middle of its interval.
fn narrowed_end(rank: u8, index: u64, edge: Interval, outermost: f64) -> f64
    requires { 16 ≤ rank }
    ensures { result ≡ cond (on_pixel_edge rank index) outermost (middle_of edge) }
{
    if is_on_pixel_edge(rank, index) {
        outermost
    } else {
        middle(edge)
    }
}

// A block along an axis.
#[tactic(auto, using(crate::proofs::BoxLaws::clip_room), unfolding(crate::specs::Boxes::box_along, crate::specs::Boxes::low_end, crate::specs::Boxes::high_end, crate::specs::Pixels::low_edge, crate::specs::Pixels::high_edge))]
pub(crate) fn box_along(kind: MapKind, a: PlotAxis, c: Coordinate) -> AxisBox
    requires room { (a.side ≤ 32768) × (a.before + a.after < a.side) }
    requires placed { Placed c }
    ensures { result ≡ box_along kind a c }
{
    let m = axis_map(kind, a);
    let low = image(m, point(begin(c)));
    let high = image(m, point(clipped_end(a.side, c)));
    let lower = narrowed_end(c.rank, c.index, low, low.lower);
    let upper = narrowed_end(c.rank, c.index + 1, high, high.upper);
    let narrowed = put(Interval { lower, upper });
    AxisBox {
        low,
        high,
        narrowed,
    }
}
