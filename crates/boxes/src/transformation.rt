// The two kinds of map from pixels to coordinates, the Rust's `Transformation1D`, and what they make of a point.
ghost use Rattle.std.specs.Prelude.{◌≡◌};
ghost use Rattle.boxes.specs.Maps.{slope_of, map_of, image_of};

use crate::arithmetic::{add, div, mul, neg, sub};
use interval::Interval;

// The kind of a map; the Rust's `Fast` is quick.
#[derive(Clone, Copy)]
pub enum MapKind {
    Quick,
    Precise,
}

// A map along one axis. The precise one has its anchor and its span in pixels, a0 and a01, and those in coordinates, x0 and x01.
#[derive(Clone, Copy)]
pub enum Transformation {
    Quick {
        slope: Interval,
        offset: Interval,
    },
    Precise {
        a0: Interval,
        a01: Interval,
        x0: Interval,
        x01: Interval,
    },
}

// The map that takes a0 to x0 and a1 to x1.
#[tactic(auto, unfolding(crate::specs::Maps::map_of))]
pub(crate) fn map_of(
    kind: MapKind,
    a0: Interval,
    a1: Interval,
    x0: Interval,
    x1: Interval,
) -> Transformation
    ensures { result ≡ map_of kind a0 a1 x0 x1 }
{
    match kind {
        MapKind::Quick => {
            let slope = slope_of(a0, a1, x0, x1);
            let offset = add(mul(neg(a0), slope), x0);
            Transformation::Quick { slope, offset }
        }
        MapKind::Precise => {
            let a01 = sub(a1, a0);
            let x01 = sub(x1, x0);
            Transformation::Precise { a0, a01, x0, x01 }
        }
    }
}

#[tactic(auto, unfolding(crate::specs::Maps::slope_of))]
fn slope_of(a0: Interval, a1: Interval, x0: Interval, x1: Interval) -> Interval
    ensures { result ≡ slope_of a0 a1 x0 x1 }
{
    div(sub(x1, x0), sub(a1, a0))
}

// The image of p.
#[tactic(auto, unfolding(crate::specs::Maps::image_of))]
pub(crate) fn image(m: Transformation, p: Interval) -> Interval
    ensures { result ≡ image_of m p }
{
    match m {
        Transformation::Quick { slope, offset } => add(mul(p, slope), offset),
        Transformation::Precise { a0, a01, x0, x01 } => add(mul(div(sub(p, a0), a01), x01), x0),
    }
}
