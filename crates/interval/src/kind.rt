// The four kinds of interval, each with its finite ends, and what is told from them by a match: the midpoint and the cut point.
// The Rust's `subdivision_point` asks the same of both bounds in one chain of ifs.
ghost use Rattle.std.specs.Prelude.{◌≡◌, T};
ghost use Rattle.std.specs.Float.Ieee.Scale.{finite};
ghost use Rattle.interval.specs.Bounds.{in_units};
ghost use Rattle.interval.specs.Kinds.{kind_of, middle_at, cut_up_to, cut_point_at};
ghost use Rattle.interval.specs.KindsComputed.{finite_ends};
ghost use Rattle.interval.specs.Cuts.{subdivisible};

use crate::Interval;
use crate::float::{half_sum, is_finite, plus_zero, whole_if};

// Which ends are finite, with those that are.
#[derive(Clone, Copy, Debug, PartialEq)]
pub enum Kind {
    Whole,
    UpTo(f64),
    From(f64),
    Between(f64, f64),
}

// The kind of an interval.
#[tactic(auto, unfolding(crate::specs::Kinds::kind_of))]
pub(crate) fn kind_of(x: Interval) -> Kind
    ensures kind { result ≡ kind_of x.lower x.upper }
    ensures ends { T (finite_ends result) }
{
    let a = x.lower;
    let b = x.upper;
    match (is_finite(a), is_finite(b)) {
        (true, true) => Kind::Between(a, b),
        (true, false) => Kind::From(a),
        (false, true) => Kind::UpTo(b),
        (false, false) => Kind::Whole,
    }
}

// The midpoint of an interval of this kind.
pub(crate) fn middle(k: Kind) -> f64
    requires { T (finite_ends k) }
    ensures { result ≡ middle_at k }
{
    match k {
        Kind::Whole => 0.0,
        Kind::UpTo(_) => -f64::MAX,
        Kind::From(_) => f64::MAX,
        Kind::Between(a, b) => half_sum(a, b),
    }
}

// The cut point of [-inf, b]; doubling may overflow to an infinity, which no cut point is.
fn cut_up_to(b: f64) -> f64
    requires { T (finite b) }
    ensures { result ≡ cut_up_to (in_units b) }
{
    if b < 0.0 {
        let d = b * 2.0;
        if d < -f64::MAX { -f64::MAX } else { d }
    } else if b > 0.0 {
        0.0
    } else {
        -1.0
    }
}

// The cut point of an interval of this kind; [a, +inf] is the mirror image of [-inf, -a].
pub(crate) fn cut_point(k: Kind, integer: bool) -> f64
    requires { T (finite_ends k) }
    ensures { result ≡ cut_point_at k integer }
{
    match k {
        Kind::Whole => 0.0,
        Kind::UpTo(b) => cut_up_to(b),
        Kind::From(a) => plus_zero(-cut_up_to(-a)),
        Kind::Between(a, b) => whole_if(integer, half_sum(a, b)),
    }
}

// Whether an interval is subdivisible.
#[tactic(auto, unfolding(crate::specs::Cuts::subdivisible))]
pub(crate) fn splits(x: Interval, integer: bool) -> bool
    ensures { result ≡ subdivisible x integer }
{
    let m = whole_if(integer, middle(kind_of(x)));
    (x.lower != m) & (x.upper != m)
}
