// Coordinate boxes for evaluators: where a block lies in the units that a picture's edges are given in, with bounds that enclose the exact place.
// Document 02, (ii); from the Rust's geom.rs (`Transformation1D`, `Box2D`), graph/implicit.rs (`Implicit::new`, `region`, `region_clipped`) and
// graph/common.rs (`subpixel_outer`). Here stand the types and the one call from a setup's values to a box, so that its refusals come in their order.
#![tactic(auto)]

ghost use Rattle.std.specs.Prelude.{◌≡◌, ◌&&◌};
ghost use Rattle.boxes.specs.Boxes.{box_of, x_axis, y_axis, has_room, has_legal_edges, is_sound, joined, box_from};

use arithmetic::has_finite_bounds;
use axis::{AxisBox, PlotAxis, box_along};
use coordinate::{Coordinate, is_legal_side, is_placed};
use interval::{Interval, is_legal};
use refusal::Refusal;
pub use transformation::{MapKind, Transformation};

mod arithmetic;
mod axis;
mod transformation;

// The padding of a picture, in pixels: its edges stand behind it.
#[repr(C)]
#[derive(Clone, Copy, Debug, PartialEq, Eq)]
pub struct Padding {
    pub left: u32,
    pub right: u32,
    pub bottom: u32,
    pub top: u32,
}

// Four edges, each by an interval that it stands in: a picture's, or a block's.
#[repr(C)]
#[derive(Clone, Copy, Debug, PartialEq)]
pub struct Edges {
    pub left: Interval,
    pub right: Interval,
    pub bottom: Interval,
    pub top: Interval,
}

// A picture with its padding, and the intervals that its edges stand in.
#[repr(C)]
#[derive(Clone, Copy, Debug, PartialEq)]
pub struct Plot {
    pub width: u32,
    pub height: u32,
    pub padding: Padding,
    pub edges: Edges,
}

// A block's box: its edges; and the intervals along x and y that the Rust's evaluator is handed, from level 0 down narrowed.
#[derive(Clone, Copy, Debug, PartialEq)]
pub struct BlockBox {
    pub edges: Edges,
    pub x: Interval,
    pub y: Interval,
}

// A block's box, by a map of this kind.
#[tactic(auto, using(crate::proofs::BoxLaws::placed, crate::proofs::BoxLaws::side_small), unfolding(crate::specs::Boxes::box_of))]
pub fn block_box(
    plot: Plot,
    kind: MapKind,
    x: Coordinate,
    y: Coordinate,
) -> Result<BlockBox, Refusal>
    ensures { result ≡ box_of plot kind x y }
{
    if !(is_legal_side(plot.width) & is_legal_side(plot.height)) {
        return Err(Refusal::Side);
    }
    let across = x_axis(plot);
    let up = y_axis(plot);
    if !(has_room(across) & has_room(up)) {
        return Err(Refusal::Padding);
    }
    if !(has_legal_edges(across) & has_legal_edges(up)) {
        return Err(Refusal::Parameter);
    }
    if !(is_placed(x, plot.width) & is_placed(y, plot.height) & (x.rank == y.rank)) {
        return Err(Refusal::Damaged);
    }
    box_of(box_along(kind, across, x), box_along(kind, up, y))
}

// The box of what was found along both axes, if it is sound.
fn box_of(x: AxisBox, y: AxisBox) -> Result<BlockBox, Refusal>
    ensures { result ≡ box_from x y }
{
    if is_sound(x) & is_sound(y) {
        Ok(join(x, y))
    } else {
        Err(Refusal::Bounds)
    }
}

fn join(x: AxisBox, y: AxisBox) -> BlockBox
    ensures { result ≡ joined x y }
{
    let edges = Edges {
        left: x.low,
        right: x.high,
        bottom: y.low,
        top: y.high,
    };
    BlockBox {
        edges,
        x: x.narrowed,
        y: y.narrowed,
    }
}

// Whether every bound is finite, and neither the outermost nor the narrowed ends cross.
fn is_sound(b: AxisBox) -> bool
    ensures { result ≡ is_sound b }
{
    has_finite_bounds(b.low)
        & has_finite_bounds(b.high)
        & (b.low.lower <= b.high.upper)
        & (b.narrowed.lower <= b.narrowed.upper)
}

// The two axes differ in each field that they read, so one function for both would take them all as arguments.
fn x_axis(plot: Plot) -> PlotAxis
    ensures { result ≡ x_axis plot }
{
    PlotAxis {
        side: plot.width,
        before: plot.padding.left,
        after: plot.padding.right,
        from: plot.edges.left,
        upto: plot.edges.right,
    }
}

fn y_axis(plot: Plot) -> PlotAxis
    ensures { result ≡ y_axis plot }
{
    PlotAxis {
        side: plot.height,
        before: plot.padding.bottom,
        after: plot.padding.top,
        from: plot.edges.bottom,
        upto: plot.edges.top,
    }
}

// Whether padding leaves something of the side.
fn has_room(a: PlotAxis) -> bool
    ensures { result ≡ has_room a }
{
    u64::from(a.before) + u64::from(a.after) < u64::from(a.side)
}

// Whether both edges stand in legal intervals.
fn has_legal_edges(a: PlotAxis) -> bool
    ensures { result ≡ has_legal_edges a }
{
    is_legal(a.from, false) & is_legal(a.upto, false)
}
