// The simple fraction of an interval, from the bit patterns of its bounds.
// Shifts clear the low bits where the Rust has a mask.
ghost use Rattle.std.specs.Prelude.{◌≡◌, T};
ghost use Rattle.interval.specs.Bounds.{legal_bounds};
ghost use Rattle.interval.specs.Fraction.{simple_fraction};

use crate::Interval;

// The top bits of one bound: those that both share, and the first in which they differ.
pub(crate) fn fraction(x: Interval) -> f64
    requires { T (legal_bounds x.lower x.upper) }
    ensures { result ≡ simple_fraction x.lower x.upper }
{
    let a = f64::to_bits(x.lower);
    let b = f64::to_bits(x.upper);
    let n = u64::leading_zeros(a ^ b);
    if n == 64 {
        return x.lower;
    }
    let keep = if x.lower <= 0.0 { a } else { b };
    f64::from_bits((keep >> (63 - n)) << (63 - n))
}
