// What came out, as text: each part behind a space.
ghost use Rattle.std.specs.Prelude.{Some};
ghost use Rattle.replay_lists.specs.Said.{number_text, refusal_text, interval_text, answer_text};

use interval::{Interval, bits_of};
use refusal::{Refusal, number_of};
use std::fmt;
use std::fmt::{Display, Formatter, Write};

/// A number, in hexadecimal digits.
#[derive(Clone, Copy)]
pub struct SaidNumber(pub u64);

impl Display for SaidNumber {
    ghost output = { λ said. Some (number_text said.0) };

    fn fmt<W: Write>(&self, f: &mut Formatter<W>) -> fmt::Result {
        let n = self.0;
        write!(f, " {n:x}")
    }
}

/// A refusal's number, behind an r.
#[derive(Clone, Copy)]
pub struct SaidRefusal(pub Refusal);

impl Display for SaidRefusal {
    ghost output = { λ said. Some (refusal_text said.0) };

    fn fmt<W: Write>(&self, f: &mut Formatter<W>) -> fmt::Result {
        let n = number_of(self.0);
        write!(f, " r{n:x}")
    }
}

/// The bit patterns of two bounds.
#[derive(Clone, Copy)]
pub struct SaidInterval(pub Interval);

impl Display for SaidInterval {
    ghost output = { λ said. Some (interval_text said.0) };

    fn fmt<W: Write>(&self, f: &mut Formatter<W>) -> fmt::Result {
        let lower = bits_of(self.0.lower);
        let upper = bits_of(self.0.upper);
        write!(f, " {lower:x} {upper:x}")
    }
}

/// What was found, or the refusal.
#[derive(Clone, Copy)]
pub struct SaidAnswer<T>(pub Result<T, Refusal>);

impl<T: Display> Display for SaidAnswer<T> {
    ghost output = { λ said. answer_text T.output said.0 };

    fn fmt<W: Write>(&self, f: &mut Formatter<W>) -> fmt::Result {
        match &self.0 {
            Ok(found) => found.fmt(f),
            Err(why) => SaidRefusal(*why).fmt(f),
        }
    }
}
