// What the crates need of single f64s: the tests, the neighbours, the put zeros, half of a sum, and rounding to whole.
ghost use Rattle.std.specs.Prelude.{◌≡◌, true, false, ◌&&◌, T, pos};
ghost use Rattle.std.specs.Float.{inf, fin, binary64};
ghost use Rattle.std.specs.Float.Ieee.{lt, nan_bits};
ghost use Rattle.std.specs.Float.Ieee.Scale.{finite};
ghost use Rattle.interval.specs.Bounds.{plus_zero, minus_zero, whole_bound};
ghost use Rattle.interval.specs.Middle.{half_sum, whole_near, whole_if};
ghost use Rattle.interval.specs.Next.{next_below, next_above};

// Whether x is a number: no infinity and no NaN. By order: std's `is_finite` subtracts, and of an infinity that raises the processor's flag of an invalid
// operation, on which a caller may have set a trap.
pub fn is_finite(x: f64) -> bool
    ensures { result ≡ finite x }
{
    (f64::NEG_INFINITY < x) & (x < f64::INFINITY)
}

// The next number below a finite x; what is not finite stays as it is, where `next_down` takes +inf to the largest number.
pub fn next_below(x: f64) -> f64
    ensures { result ≡ next_below x }
{
    if !is_finite(x) {
        return x;
    }
    if x > 0.0 {
        f64::from_bits(f64::to_bits(x) - 1)
    } else if x < 0.0 {
        f64::from_bits(f64::to_bits(x) + 1)
    } else {
        f64::from_bits(0x8000_0000_0000_0001)
    }
}

// The next number above a finite x: the mirror image.
pub fn next_above(x: f64) -> f64
    ensures { result ≡ next_above x }
{
    -next_below(-x)
}

// Whether 64 bits are a NaN's, to be asked before they are read as an f64.
pub(crate) fn is_nan_pattern(w: u64) -> bool
    ensures { result ≡ nan_bits binary64 w }
{
    0x7ff0_0000_0000_0000 < w % 0x8000_0000_0000_0000
}

// A zero is put as +0.
pub(crate) fn plus_zero(x: f64) -> f64
    ensures { result ≡ plus_zero x }
{
    if x == 0.0 { 0.0 } else { x }
}

// A zero is put as -0.
pub(crate) fn minus_zero(x: f64) -> f64
    ensures { result ≡ minus_zero x }
{
    if x == 0.0 { -0.0 } else { x }
}

// Half of a + b, rounded once. Where the sum overflows, both are so large that the halves are exact.
// `midpoint` adds the halves also where a half may be rounded: that the whole is rounded once would be a law of its own.
pub(crate) fn half_sum(a: f64, b: f64) -> f64
    requires { T (finite a && finite b) }
    ensures { result ≡ half_sum a b }
{
    let s = a + b;
    if is_finite(s) {
        plus_zero(s * 0.5)
    } else {
        plus_zero(a * 0.5 + b * 0.5)
    }
}

// The whole number nearest to an x above zero, half up. From 2^52 on every f64 is whole.
// The library states `round` by a ratio of its own, and no law joins that to the units of the definition here.
fn near_whole(x: f64) -> f64
    requires { lt (fin false 0 (pos 0)) x ≡ true }
    ensures { result ≡ whole_near x }
{
    if x < 4503599627370496.0 {
        let n = std::num::truncating_f64_to_u64(x + x);
        ((n + 1) / 2) as f64
    } else {
        x
    }
}

// The whole number nearest to x, half away from zero.
pub(crate) fn whole_near(x: f64) -> f64
    ensures { result ≡ whole_near x }
{
    if x > 0.0 {
        near_whole(x)
    } else if x < 0.0 {
        plus_zero(-near_whole(-x))
    } else {
        plus_zero(x)
    }
}

// Rounded to whole for an integer parameter.
pub(crate) fn whole_if(integer: bool, x: f64) -> f64
    ensures { result ≡ whole_if integer x }
{
    if integer { whole_near(x) } else { x }
}

// A whole number or an infinity.
pub(crate) fn is_whole(x: f64) -> bool
    ensures { result ≡ whole_bound x }
{
    whole_near(x) == x
}
