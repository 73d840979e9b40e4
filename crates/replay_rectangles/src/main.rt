// Replays the rectangles of standard input and prints what `image` answers and leaves of each. A case is 56 words of 64 bits, the least
// significant byte first; make.py, beside this crate's folders, says which, writes them, and works out what is to be printed.
#![tactic(auto)]

ghost use Rattle.std.specs.Prelude.{◌≤◌, length};

use image::{CellKind, CellTally, Op, PixelRange};
use replay_lists::list::{Entry, next_words, play_entries};
use replay_lists::words::{coordinate_at, lower_half};
use std::io;
use std::io::Read;

// How many cells a case has, all lent or only the first of them.
const CELLS: usize = 40;

// A picture's sides, the pixels that are looked at and painted, and how many blocks were taken.
#[derive(Clone, Copy)]
struct Field {
    width: u32,
    height: u32,
    pixels: PixelRange,
    taken: u64,
}

// The pixels of a case: those of a block, or those within bounds.
fn pixels_of(case: &[u64; 56]) -> PixelRange {
    if case[3] == 0 {
        let x = coordinate_at(case, 4);
        let y = coordinate_at(case, 6);
        return image::rectangle(x, y, lower_half(case[0]), lower_half(case[1]));
    }
    PixelRange {
        left: case[4] as usize,
        right: case[5] as usize,
        top: case[6] as usize,
        bottom: case[7] as usize,
    }
}

fn field_of(case: &[u64; 56]) -> Field {
    Field {
        width: lower_half(case[0]),
        height: lower_half(case[1]),
        pixels: pixels_of(case),
        taken: case[11],
    }
}

// What is done to the cells.
fn op_of(case: &[u64; 56]) -> Op {
    let from = case[9];
    let to = case[10];
    match case[8] {
        0 => Op::Mark,
        1 => Op::Name { from, to },
        2 => Op::GiveUp,
        _ => Op::Fill { to },
    }
}

fn say_range(rt: &impl Print, r: PixelRange) -> io::Result<()> {
    print!(rt;
        ": columns {} {} rows {} {}",
        r.left, r.right, r.top, r.bottom
    )
}

fn say_seen(rt: &impl Print, text: &str, s: Option<bool>) -> io::Result<()> {
    let seen = match s {
        Some(true) => "yes",
        Some(false) => "no",
        None => "outside",
    };
    print!(rt; "{text}{seen}")
}

fn say_counts(rt: &impl Print, a: Option<CellTally>) -> io::Result<()> {
    match a {
        Some(t) => {
            print!(rt;
                ", counts {} {} {} {}",
                t.trues, t.falses, t.uncertain, t.givenup
            )
        }
        None => print!(rt; ", counts outside"),
    }
}

fn say_cells(rt: &impl Print, cells: &[u64]) -> io::Result<()> {
    for cell in cells {
        print!(rt; " {cell}")?;
    }
    Ok(())
}

fn say_characters(rt: &impl Print, cells: &[u64], taken: u64) -> io::Result<()> {
    for cell in cells {
        let text = [image::reading_character(image::read_cell(*cell, taken))];
        rt.write_all(&text)?;
    }
    Ok(())
}

fn say_bytes(rt: &impl Print, bytes: &[u8]) -> io::Result<()> {
    for byte in bytes {
        print!(rt; "{byte}")?;
    }
    Ok(())
}

fn draw(rt: &impl Print, cells: &[u64], taken: u64, out: &mut [u8]) -> io::Result<()> {
    let drawn = image::draw(cells, taken, out);
    print!(rt; "{}", if drawn { " drawn " } else { " kept " })?;
    say_bytes(rt, out)
}

// Into as many bytes as cells, and into one byte, which most cells do not fit.
fn draw_twice(rt: &impl Print, cells: &[u64], taken: u64) -> io::Result<()>
    requires { length cells.now ≤ 40 }
{
    draw(rt, cells, taken, &mut [9u8; CELLS][..cells.len()])?;
    draw(rt, cells, taken, &mut [9u8; 1])
}

fn look(rt: &impl Print, cells: &[u64], f: Field) -> io::Result<()> {
    say_seen(
        rt,
        "\nall true ",
        image::are_all_true(cells, f.width, f.height, f.pixels),
    )?;
    say_seen(
        rt,
        ", given up ",
        image::rectangle_holds(cells, f.width, f.height, f.pixels, CellKind::GivenUp),
    )?;
    say_seen(
        rt,
        ", damaged ",
        image::rectangle_holds(cells, f.width, f.height, f.pixels, CellKind::Damaged),
    )?;
    say_counts(
        rt,
        image::count(cells, f.width, f.height, f.pixels, f.taken),
    )
}

fn paint(rt: &impl Print, cells: &mut [u64], f: Field, op: Op) -> io::Result<()> {
    let painted = image::paint(cells, f.width, f.height, f.pixels, op);
    println!(rt; "{}", if painted { ", painted" } else { ", kept" })
}

fn show(rt: &impl Print, cells: &[u64], taken: u64) -> io::Result<()>
    requires { length cells.now ≤ 40 }
{
    say_cells(rt, cells)?;
    println!(rt)?;
    say_characters(rt, cells, taken)?;
    draw_twice(rt, cells, taken)?;
    println!(rt)
}

// A case: its cells looked at, painted, and shown.
fn play(rt: &impl Print, case: &[u64; 56]) -> io::Result<()> {
    let f = field_of(case);
    let mut all = [0u64; CELLS];
    all.copy_from_slice(&case[16..]);
    let lent = (case[2] % 41) as usize;
    let cells = &mut all[..lent];
    print!(rt; "{}x{} of {lent}", f.width, f.height)?;
    say_range(rt, f.pixels)?;
    look(rt, cells, f)?;
    paint(rt, cells, f, op_of(case))?;
    show(rt, cells, f.taken)
}

// A case is 56 words.
#[derive(Clone, Copy)]
struct Case {
    words: [u64; 56],
}

impl Entry for Case {
    ghost size = { 448 };

    fn next<R: Read>(from: &mut R) -> io::Result<Option<Case>> {
        match next_words(from)? {
            Some(words) => Ok(Some(Case { words })),
            None => Ok(None),
        }
    }

    fn play<P: Print>(&self, rt: &P) -> io::Result<()> {
        play(rt, &self.words)
    }
}

fn main(rt: HostRuntime) -> io::Result<()> {
    let mut cases = rt.reader();
    play_entries::<Case, _, _>(&rt, &mut cases, 4096)?;
    Ok(())
}
