// Intervals of two f64, by value: which are legal, their midpoint and cut point, their cuts, and the simple fraction.
// From the Rust's block.rs (`IntegerParameter`, `RealParameter`, `subdivision_point`) and graph/common.rs (`simple_fraction`).
// Here stand the types and what other crates call: each function takes every pair of bounds, refuses by 3 what is no
// interval, and puts the zeros first, -0 below and +0 above.
#![tactic(auto)]

ghost use Rattle.std.specs.Prelude.{◌≡◌, ◌≤◌, true, false, length, slice_get, from_bits, to_bits, MatchResult};
ghost use Rattle.refusal.specs.declared.Refusal.TheVariants.{Parameter};
ghost use Rattle.std.specs.Float.{binary64};
ghost use Rattle.interval.specs.Answers.{point_answer, whether_at, pieces_at, listed, answer_from_bits};
ghost use Rattle.interval.specs.AnswersComputed.{IsChecked};
ghost use Rattle.interval.specs.Bounds.{whole_line, legal_interval, put_interval, same_interval};
ghost use Rattle.interval.specs.Cuts.{subdivisible, first_cut, later_cut};
ghost use Rattle.interval.specs.Fraction.{simple_fraction};
ghost use Rattle.interval.specs.Kinds.{midpoint_of, cut_point_of};

use float::{is_nan_pattern, is_whole, minus_zero, plus_zero};
use refusal::Refusal;

mod cut;
mod float;
mod fraction;
mod kind;

pub use float::{is_finite, next_above, next_below};

// The bounds of an interval.
#[repr(C)]
#[derive(Clone, Copy, Debug, PartialEq)]
pub struct Interval {
    pub lower: f64,
    pub upper: f64,
}

// What a cut gives, in order.
#[derive(Clone, Copy, Debug, PartialEq)]
pub enum Pieces {
    One(Interval),
    Two(Interval, Interval),
    Three(Interval, Interval, Interval),
}

impl Pieces {
    // How many they are.
    pub fn count(self) -> usize
        ensures value { result ≡ length (listed self) }
        ensures upper_bound { result ≤ 3 }
    {
        match self {
            Pieces::One(_) => 1,
            Pieces::Two(_, _) => 2,
            Pieces::Three(_, _, _) => 3,
        }
    }

    // The piece at a place, if there is one.
    pub fn get(self, j: usize) -> Option<Interval>
        ensures { result ≡ slice_get (listed self) j }
    {
        match (self, j) {
            (Pieces::One(p) | Pieces::Two(p, _) | Pieces::Three(p, _, _), 0) => Some(p),
            (Pieces::Two(_, q) | Pieces::Three(_, q, _), 1) => Some(q),
            (Pieces::Three(_, _, r), 2) => Some(r),
            _ => None,
        }
    }
}

// The whole line.
pub fn whole_line() -> Interval
    ensures { result ≡ whole_line }
{
    Interval {
        lower: f64::NEG_INFINITY,
        upper: f64::INFINITY,
    }
}

// Whether a pair of bounds is an interval, and one of an integer parameter where `integer` is set.
pub fn is_legal(x: Interval, integer: bool) -> bool
    ensures { result ≡ legal_interval x integer }
{
    let a = x.lower;
    let b = x.upper;
    (a <= b)
        & (a < f64::INFINITY)
        & (f64::NEG_INFINITY < b)
        & (!integer | (is_whole(a) & is_whole(b)))
}

// The same bounds with their zeros put: -0 below, +0 above.
#[tactic(auto, unfolding(crate::specs::Bounds::put_interval))]
pub fn put(x: Interval) -> Interval
    ensures { result ≡ put_interval x }
{
    Interval {
        lower: minus_zero(x.lower),
        upper: plus_zero(x.upper),
    }
}

// Whether two intervals have the same bounds, a zero of either sign counting as one.
#[tactic(auto, unfolding(crate::specs::Bounds::same_interval))]
pub fn is_same(x: Interval, y: Interval) -> bool
    ensures { result ≡ same_interval x y }
{
    x == y
}

// What is no interval is refused; an interval is put.
#[tactic(auto, using(crate::proofs::Legality::put_legal, crate::proofs::Legality::put_again))]
fn checked(x: Interval, integer: bool) -> Result<Interval, Refusal>
    ensures { MatchResult result (IsChecked x integer) (λ why. (why ≡ Parameter) × (legal_interval x integer ≡ false)) }
{
    if is_legal(x, integer) {
        Ok(put(x))
    } else {
        Err(Refusal::Parameter)
    }
}

// The midpoint, as IEEE 1788 has it; a zero is +0.
pub fn midpoint(x: Interval) -> Result<f64, Refusal>
    ensures { result ≡ point_answer (legal_interval x false) (midpoint_of (put_interval x)) }
{
    let x = checked(x, false)?;
    Ok(kind::middle(kind::kind_of(x)))
}

// The point at which the later cut divides; a zero is +0.
pub fn subdivision_point(x: Interval, integer: bool) -> Result<f64, Refusal>
    ensures { result ≡ point_answer (legal_interval x integer) (cut_point_of (put_interval x) integer) }
{
    let x = checked(x, integer)?;
    Ok(kind::cut_point(kind::kind_of(x), integer))
}

// A number of the interval with few digits: its bits are those that the bounds share, and one more.
#[tactic(auto, using(crate::proofs::Legality::order_rules))]
pub fn simple_fraction(x: Interval) -> Result<f64, Refusal>
    ensures { result ≡ point_answer (legal_interval x false) (simple_fraction (put_interval x).lower (put_interval x).upper) }
{
    let x = checked(x, false)?;
    Ok(fraction::fraction(x))
}

// Whether the midpoint, rounded to whole for an integer parameter, equals neither bound.
pub fn is_subdivisible(x: Interval, integer: bool) -> Result<bool, Refusal>
    ensures { result ≡ whether_at (legal_interval x integer) (subdivisible (put_interval x) integer) }
{
    let x = checked(x, integer)?;
    Ok(kind::splits(x, integer))
}

// The cut of a parameter's whole range, at setup: its ends apart; the Rust's `subdivide0`.
pub fn first_cut(x: Interval, integer: bool) -> Result<Pieces, Refusal>
    ensures { result ≡ pieces_at (legal_interval x integer) (first_cut (put_interval x) integer) }
{
    let x = checked(x, integer)?;
    Ok(cut::first(x, integer))
}

// The cut of a block's range, in a step: at the cut point; the Rust's `subdivide1`.
pub fn later_cut(x: Interval, integer: bool) -> Result<Pieces, Refusal>
    ensures { result ≡ pieces_at (legal_interval x integer) (later_cut (put_interval x) integer) }
{
    let x = checked(x, integer)?;
    Ok(cut::later(x, integer))
}

// The bit pattern of a bound.
pub fn bits_of(x: f64) -> u64
    ensures { result ≡ to_bits binary64 x }
{
    if x.is_nan() {
        0x7ff8_0000_0000_0000
    } else {
        f64::to_bits(x)
    }
}

// The bound with this bit pattern, its zero as it comes; for every NaN's pattern a NaN.
pub fn float_of(bits: u64) -> f64
    ensures { result ≡ from_bits binary64 bits }
{
    if is_nan_pattern(bits) {
        f64::NAN
    } else {
        f64::from_bits(bits)
    }
}

// The interval whose bounds have these bit patterns, put. A NaN's pattern is refused before it is read.
#[tactic(auto, using(crate::proofs::BoundBits::nan_illegal), unfolding(crate::specs::Answers::answer_from_bits))]
pub fn interval_from_bits(lower: u64, upper: u64, integer: bool) -> Result<Interval, Refusal>
    ensures { result ≡ answer_from_bits lower upper integer }
{
    if is_nan_pattern(lower) | is_nan_pattern(upper) {
        return Err(Refusal::Parameter);
    }
    let x = Interval {
        lower: f64::from_bits(lower),
        upper: f64::from_bits(upper),
    };
    checked(x, integer)
}
