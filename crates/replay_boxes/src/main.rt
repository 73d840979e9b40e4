// Asks `boxes` the questions of data/boxes and prints its answers, a line each; the file stdout has what they must be.
// make.py, beside src/, says how both were made and what a question looks like.
#![tactic(auto)]

ghost use Rattle.std.specs.Prelude.{◌≡◌};
ghost use Rattle.replay_boxes.specs.Question.{padding_in, edges_in, plot_in};

use boxes::{BlockBox, Edges, MapKind, Padding, Plot};
use replay_lists::list::{Entry, next_words, play_entries};
use replay_lists::said::{SaidAnswer, SaidInterval};
use replay_lists::words::{coordinate_at, interval_at, lower_half};
use std::fmt::{Display, Formatter, Write};
use std::io::Read;
use std::{fmt, fs, io};

// A question is 19 words.
#[derive(Clone, Copy)]
struct Question {
    words: [u64; 19],
}

fn padding_of(q: &[u64; 19]) -> Padding
    ensures { result ≡ padding_in q.now }
{
    Padding {
        left: lower_half(q[3]),
        right: lower_half(q[4]),
        bottom: lower_half(q[5]),
        top: lower_half(q[6]),
    }
}

fn edges_of(q: &[u64; 19]) -> Edges
    ensures { result ≡ edges_in q.now }
{
    Edges {
        left: interval_at(q, 7),
        right: interval_at(q, 9),
        bottom: interval_at(q, 11),
        top: interval_at(q, 13),
    }
}

fn plot_of(q: &[u64; 19]) -> Plot
    ensures { result ≡ plot_in q.now }
{
    Plot {
        width: lower_half(q[1]),
        height: lower_half(q[2]),
        padding: padding_of(q),
        edges: edges_of(q),
    }
}

// The map that is asked for: 0 the quick one.
fn kind_of(q: &[u64; 19]) -> MapKind {
    match q[0] {
        0 => MapKind::Quick,
        _ => MapKind::Precise,
    }
}

// What is printed of a box: its edges, then x and y.
#[derive(Clone, Copy)]
struct SaidBox(BlockBox);

impl Display for SaidBox {
    fn fmt<W: Write>(&self, f: &mut Formatter<W>) -> fmt::Result {
        let e = self.0.edges;
        write!(f, "{}{}", SaidInterval(e.left), SaidInterval(e.right))?;
        write!(f, "{}{}", SaidInterval(e.bottom), SaidInterval(e.top))?;
        write!(f, "{}{}", SaidInterval(self.0.x), SaidInterval(self.0.y))
    }
}

// Prints one answer.
fn ask(rt: &impl Print, q: &[u64; 19]) -> io::Result<()> {
    let x = coordinate_at(q, 15);
    let y = coordinate_at(q, 17);
    let found = boxes::block_box(plot_of(q), kind_of(q), x, y);
    println!(rt; "{}", SaidAnswer(found.map(|b| SaidBox(b))))
}

impl Entry for Question {
    ghost size = { 152 };

    fn next<R: Read>(from: &mut R) -> io::Result<Option<Question>> {
        match next_words(from)? {
            Some(words) => Ok(Some(Question { words })),
            None => Ok(None),
        }
    }

    fn play<P: Print>(&self, rt: &P) -> io::Result<()> {
        ask(rt, &self.words)
    }
}

// The questions of the list, a million at most, and how many there were.
fn main(rt: HostRuntime) -> io::Result<()> {
    let mut boxes = fs::open(&rt, "boxes")?;
    match play_entries::<Question, _, _>(&rt, &mut boxes, 1000000)? {
        Some(asked) => println!(rt; " {asked:x} questions"),
        None => Ok(()),
    }
}
