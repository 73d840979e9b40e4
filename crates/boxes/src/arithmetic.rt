// Operations on intervals, with bounds a step outside of every rounded candidate.
ghost use Rattle.std.specs.Prelude.{◌≡◌};
ghost use Rattle.boxes.specs.Arithmetic.{finite_bounds, lesser, greater, least_of, greatest_of, around, plus, negative, minus, times, over};

use interval::{Interval, is_finite, next_above, next_below, put, whole_line};

// Whether both bounds are numbers.
pub(crate) fn has_finite_bounds(x: Interval) -> bool
    ensures { result ≡ finite_bounds x }
{
    is_finite(x.lower) & is_finite(x.upper)
}

// The contract says which of two equal zeros is answered; of `f64::min` and `f64::max` either may come.
fn lesser_of(p: f64, q: f64) -> f64
    ensures { result ≡ lesser p q }
{
    if q < p { q } else { p }
}

fn greater_of(p: f64, q: f64) -> f64
    ensures { result ≡ greater p q }
{
    if p < q { q } else { p }
}

#[tactic(auto, unfolding(crate::specs::Arithmetic::least_of))]
fn least(p: f64, q: f64, r: f64, s: f64) -> f64
    ensures { result ≡ least_of p q r s }
{
    lesser_of(lesser_of(p, q), lesser_of(r, s))
}

#[tactic(auto, unfolding(crate::specs::Arithmetic::greatest_of))]
fn greatest(p: f64, q: f64, r: f64, s: f64) -> f64
    ensures { result ≡ greatest_of p q r s }
{
    greater_of(greater_of(p, q), greater_of(r, s))
}

// Outward from four candidates; the whole line where one is no number.
#[tactic(auto, unfolding(crate::specs::Arithmetic::around))]
fn outward(p: f64, q: f64, r: f64, s: f64) -> Interval
    ensures { result ≡ around p q r s }
{
    if is_finite(p) & is_finite(q) & is_finite(r) & is_finite(s) {
        let lower = next_below(least(p, q, r, s));
        let upper = next_above(greatest(p, q, r, s));
        put(Interval { lower, upper })
    } else {
        whole_line()
    }
}

// x + y.
#[tactic(auto, unfolding(crate::specs::Arithmetic::plus))]
pub(crate) fn add(x: Interval, y: Interval) -> Interval
    ensures { result ≡ plus x y }
{
    let a = x.lower;
    let b = x.upper;
    let c = y.lower;
    let d = y.upper;
    outward(a + c, a + d, b + c, b + d)
}

// -x, exact.
#[tactic(auto, unfolding(crate::specs::Arithmetic::negative))]
pub(crate) fn neg(x: Interval) -> Interval
    ensures { result ≡ negative x }
{
    Interval {
        lower: -x.upper,
        upper: -x.lower,
    }
}

// x - y.
#[tactic(auto, unfolding(crate::specs::Arithmetic::minus))]
pub(crate) fn sub(x: Interval, y: Interval) -> Interval
    ensures { result ≡ minus x y }
{
    add(x, neg(y))
}

// x times y.
#[tactic(auto, unfolding(crate::specs::Arithmetic::times))]
pub(crate) fn mul(x: Interval, y: Interval) -> Interval
    ensures { result ≡ times x y }
{
    let a = x.lower;
    let b = x.upper;
    let c = y.lower;
    let d = y.upper;
    outward(a * c, a * d, b * c, b * d)
}

// x over y, for a y above zero.
#[tactic(auto, unfolding(crate::specs::Arithmetic::over))]
pub(crate) fn div(x: Interval, y: Interval) -> Interval
    ensures { result ≡ over x y }
{
    let a = x.lower;
    let b = x.upper;
    let c = y.lower;
    let d = y.upper;
    if is_finite(c) & is_finite(d) & (0.0 < c) {
        outward(a / c, a / d, b / c, b / d)
    } else {
        whole_line()
    }
}
