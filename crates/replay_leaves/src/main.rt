// Asks the leaf crates the questions of data/leaves and prints their answers, a line each; the file stdout has what they must be.
// make.py, beside src/, says how both were made and what a question looks like.
#![tactic(auto)]

use coordinate::{Coordinate, Halves};
use interval::{Interval, Pieces, bits_of, float_of};
use replay_lists::bytes::{bytes_at, word_at};
use replay_lists::list::{Entry, next_record, play_entries};
use replay_lists::said::{SaidAnswer, SaidInterval, SaidNumber};
use small::{Code, Number};
use std::fmt::{Display, Formatter, Write};
use std::io::Read;
use std::{fmt, fs, io};

// What is asked.
enum Question<'a> {
    Write(u64),
    Read(&'a [u8]),
    Coordinate(Coordinate, u32),
    Interval {
        lower: u64,
        upper: u64,
        integer: bool,
    },
    Share {
        settled: u32,
        pixels: u32,
    },
}

// The question in 25 bytes: its kind, and what that kind holds. None where there is no such kind, and of a code that does not fit.
fn question_of(q: &[u8; 25]) -> Option<Question<'_>> {
    match q[0] {
        1 => Some(Question::Write(word_at(q, 1))),
        2 => Some(Question::Read(q[2..18].get(..usize::from(q[1]))?)),
        3 => Some(Question::Coordinate(
            Coordinate {
                index: word_at(q, 1),
                rank: q[9],
            },
            u32::from_be_bytes(bytes_at(q, 10)),
        )),
        4 => Some(Question::Interval {
            lower: word_at(q, 1),
            upper: word_at(q, 9),
            integer: q[17] == 1,
        }),
        5 => Some(Question::Share {
            settled: u32::from_be_bytes(bytes_at(q, 1)),
            pixels: u32::from_be_bytes(bytes_at(q, 5)),
        }),
        _ => None,
    }
}

// What is printed of what was found: its numbers, one after the other.
#[derive(Clone, Copy)]
struct SaidCode(Code);

impl Display for SaidCode {
    fn fmt<W: Write>(&self, f: &mut Formatter<W>) -> fmt::Result {
        let code = self.0;
        write!(f, "{}", SaidNumber(u64::from(code.head)))?;
        write!(
            f,
            "{}{}",
            SaidNumber(code.tail),
            SaidNumber(code.count as u64)
        )
    }
}

#[derive(Clone, Copy)]
struct SaidRead(Number);

impl Display for SaidRead {
    fn fmt<W: Write>(&self, f: &mut Formatter<W>) -> fmt::Result {
        write!(
            f,
            "{}{}",
            SaidNumber(self.0.x),
            SaidNumber(self.0.count as u64)
        )
    }
}

#[derive(Clone, Copy)]
struct SaidCoordinate(Coordinate);

impl Display for SaidCoordinate {
    fn fmt<W: Write>(&self, f: &mut Formatter<W>) -> fmt::Result {
        write!(
            f,
            "{}{}",
            SaidNumber(self.0.index),
            SaidNumber(u64::from(self.0.rank))
        )
    }
}

#[derive(Clone, Copy)]
struct SaidHalves(Halves);

impl Display for SaidHalves {
    fn fmt<W: Write>(&self, f: &mut Formatter<W>) -> fmt::Result {
        write!(
            f,
            "{}{}",
            SaidCoordinate(self.0.low),
            SaidCoordinate(self.0.high)
        )
    }
}

// How many pieces there are, and then each.
#[derive(Clone, Copy)]
struct SaidPieces(Pieces);

impl Display for SaidPieces {
    fn fmt<W: Write>(&self, f: &mut Formatter<W>) -> fmt::Result {
        match self.0 {
            Pieces::One(a) => write!(f, " 1{}", SaidInterval(a)),
            Pieces::Two(a, b) => write!(f, " 2{}{}", SaidInterval(a), SaidInterval(b)),
            Pieces::Three(a, b, c) => write!(
                f,
                " 3{}{}{}",
                SaidInterval(a),
                SaidInterval(b),
                SaidInterval(c)
            ),
        }
    }
}

// Prints a part of an answer: of a yes 1 and of a no 0, of a bound its bit pattern.
fn say(rt: &impl Print, said: impl Display + Drop) -> io::Result<()> {
    print!(rt; "{said}")
}

fn ask_coordinate(rt: &impl Print, c: Coordinate, side: u32) -> io::Result<()> {
    say(rt, SaidNumber(u64::from(coordinate::is_legal(c))))?;
    say(
        rt,
        SaidAnswer(coordinate::pixel_index(c).map(|n| SaidNumber(n))),
    )?;
    say(
        rt,
        SaidAnswer(coordinate::subdivide(c).map(|h| SaidHalves(h))),
    )?;
    say(
        rt,
        SaidAnswer(coordinate::is_subdivisible(c).map(|b| SaidNumber(u64::from(b)))),
    )?;
    say(
        rt,
        SaidAnswer(coordinate::is_inside(c, side).map(|b| SaidNumber(u64::from(b)))),
    )
}

fn ask_interval(rt: &impl Print, lower: u64, upper: u64, integer: bool) -> io::Result<()> {
    let x = Interval {
        lower: float_of(lower),
        upper: float_of(upper),
    };
    ask_bounds(rt, x, integer)?;
    let read = interval::interval_from_bits(lower, upper, integer);
    say(rt, SaidAnswer(read.map(|x| SaidInterval(x))))?;
    ask_put(rt, x)
}

// The bounds with their zeros put, and whether they count as the same.
fn ask_put(rt: &impl Print, x: Interval) -> io::Result<()> {
    let y = interval::put(x);
    say(rt, SaidInterval(y))?;
    say(rt, SaidNumber(u64::from(interval::is_same(x, y))))
}

fn ask_bounds(rt: &impl Print, x: Interval, integer: bool) -> io::Result<()> {
    let middle = interval::midpoint(x);
    let cut_at = interval::subdivision_point(x, integer);
    let is_subdivisible = interval::is_subdivisible(x, integer);
    say(rt, SaidNumber(u64::from(interval::is_legal(x, integer))))?;
    say(rt, SaidAnswer(middle.map(|p| SaidNumber(bits_of(p)))))?;
    say(rt, SaidAnswer(cut_at.map(|p| SaidNumber(bits_of(p)))))?;
    say(
        rt,
        SaidAnswer(is_subdivisible.map(|b| SaidNumber(u64::from(b)))),
    )?;
    say(
        rt,
        SaidAnswer(interval::first_cut(x, integer).map(|p| SaidPieces(p))),
    )?;
    say(
        rt,
        SaidAnswer(interval::later_cut(x, integer).map(|p| SaidPieces(p))),
    )?;
    say(
        rt,
        SaidAnswer(interval::simple_fraction(x).map(|p| SaidNumber(bits_of(p)))),
    )
}

// Prints one answer.
fn ask(rt: &impl Print, q: &[u8; 25]) -> io::Result<()> {
    match question_of(q) {
        Some(Question::Write(x)) => {
            say(rt, SaidAnswer(small::write_small(x).map(|c| SaidCode(c))))?
        }
        Some(Question::Read(code)) => {
            say(rt, SaidAnswer(small::read_small(code).map(|n| SaidRead(n))))?
        }
        Some(Question::Coordinate(c, side)) => ask_coordinate(rt, c, side)?,
        Some(
            Question::Interval {
                lower,
                upper,
                integer,
            },
        ) => ask_interval(rt, lower, upper, integer)?,
        Some(Question::Share { settled, pixels }) => {
            say(rt, SaidNumber(image::share_of(settled, pixels)))?
        }
        None => (),
    }
    println!(rt)
}

// A question is 25 bytes.
#[derive(Clone, Copy)]
struct Record {
    bytes: [u8; 25],
}

impl Entry for Record {
    ghost size = { 25 };

    fn next<R: Read>(from: &mut R) -> io::Result<Option<Record>> {
        match next_record(from)? {
            Some(bytes) => Ok(Some(Record { bytes })),
            None => Ok(None),
        }
    }

    fn play<P: Print>(&self, rt: &P) -> io::Result<()> {
        ask(rt, &self.bytes)
    }
}

// The questions of the list, a million at most, and how many there were.
fn main(rt: HostRuntime) -> io::Result<()> {
    let mut leaves = fs::open(&rt, "leaves")?;
    match play_entries::<Record, _, _>(&rt, &mut leaves, 1000000)? {
        Some(asked) => println!(rt; " {asked:x} questions"),
        None => Ok(()),
    }
}
