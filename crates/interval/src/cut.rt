// The first and the later cut of a legal interval: the Rust's `subdivide0` and `subdivide1`.
// One to three pieces, each put, as an enum without an array.
ghost use Rattle.std.specs.Prelude.{◌≡◌, true, ◌&&◌, T, [], ◌∷◌, ◌++◌};
ghost use Rattle.std.specs.List.{cons_option};
ghost use Rattle.std.specs.Float.Ieee.Scale.{finite};
ghost use Rattle.interval.specs.Answers.{listed};
ghost use Rattle.interval.specs.Bounds.{legal_interval, put_interval};
ghost use Rattle.interval.specs.Cuts.{pair_of, span_of, width_is, narrowed, thinned, first_cut, later_cut};

use crate::kind::{Kind, cut_point, kind_of, middle, splits};
use crate::{Interval, Pieces, put};

// The piece [a, b], put; the Rust's `interval!(a, b)`.
fn span(a: f64, b: f64) -> Interval
    ensures { result ≡ span_of a b }
{
    put(Interval { lower: a, upper: b })
}

// The first cut of a finite interval: its ends apart, unless they are one integer or next to each other.
fn first_between(a: f64, b: f64, integer: bool) -> Pieces
    requires legal { legal_interval (pair_of a b) integer ≡ true }
    requires finite { T (finite a && finite b) }
    ensures { listed result ≡ first_cut (pair_of a b) integer }
{
    let low = span(a, a);
    let high = span(b, b);
    if integer & (a == b) {
        return Pieces::One(low);
    }
    if integer & (b - a == 1.0) {
        return Pieces::Two(low, high);
    }
    Pieces::Three(low, span(a, b), high)
}

// The first cut: an infinite end is no piece of its own.
pub(crate) fn first(x: Interval, integer: bool) -> Pieces
    requires legal { legal_interval x integer ≡ true }
    requires stored { put_interval x ≡ x }
    ensures { listed result ≡ first_cut x integer }
{
    match kind_of(x) {
        Kind::Whole => Pieces::One(x),
        Kind::UpTo(b) => Pieces::Two(x, span(b, b)),
        Kind::From(a) => Pieces::Two(span(a, a), x),
        Kind::Between(a, b) => first_between(a, b, integer),
    }
}

// Between bounds 1 apart there is no integer, and both are pieces already.
fn is_gone(p: Interval) -> bool
    requires { legal_interval p true ≡ true }
    ensures { result ≡ width_is 1 p }
{
    p.upper - p.lower == 1.0
}

// Between bounds 2 apart there is only their middle.
fn narrow(p: Interval) -> Interval
    requires { legal_interval p true ≡ true }
    ensures { result ≡ narrowed p }
{
    if (p.upper - p.lower == 2.0) & splits(p, true) {
        let m = middle(kind_of(p));
        span(m, m)
    } else {
        p
    }
}

// What is left of a piece of an integer parameter.
#[tactic(auto, unfolding(crate::specs::Cuts::thinned))]
fn thinned(p: Interval) -> Option<Interval>
    requires { legal_interval p true ≡ true }
    ensures { cons_option result [] ≡ thinned p }
{
    if is_gone(p) { None } else { Some(narrow(p)) }
}

// A point of an integer parameter, and what is left of the pieces on both sides of it.
fn around(left: Interval, point: Interval, right: Interval) -> Pieces
    requires left { legal_interval left true ≡ true }
    requires right { legal_interval right true ≡ true }
    ensures { listed result ≡ thinned left ++ (point ∷ thinned right) }
{
    match (thinned(left), thinned(right)) {
        (None, None) => Pieces::One(point),
        (None, Some(r)) => Pieces::Two(point, r),
        (Some(l), None) => Pieces::Two(l, point),
        (Some(l), Some(r)) => Pieces::Three(l, point, r),
    }
}

// The later cut, by another rule than the first: at a point inside, where the first cuts the ends off. It is asked of intervals that are not subdivisible too; the point is always a piece.
pub(crate) fn later(x: Interval, integer: bool) -> Pieces
    requires { legal_interval x integer ≡ true }
    ensures { listed result ≡ later_cut x integer }
{
    let c = cut_point(kind_of(x), integer);
    let left = span(x.lower, c);
    let point = span(c, c);
    let right = span(c, x.upper);
    if integer {
        around(left, point, right)
    } else {
        Pieces::Three(left, point, right)
    }
}
