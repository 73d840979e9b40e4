// Plays sheets through the program's work, from file to file, and prints what the files then hold, each behind its sheet's number and its own
// length; the file stdout has what must come. Nothing is counted or compared here. By the length a text that went elsewhere is missed.
// data/sheets has how many there are in two bytes, the higher first, then for each its length in two and its bytes. make.py, beside this
// crate's folders, works out by itself what they print, from documents 01 and 02.
#![tactic(auto)]

ghost use Rattle.std.specs.Prelude.{◌≤◌, ◌<◌, length, IfOk};

use std::io::Read;
use std::rt::Files;
use std::{fs, io};

// The number in the next two bytes of a file, the higher first; 0 for those that are not there.
fn read_number(from: &mut impl Read) -> io::Result<usize>
    ensures { IfOk result (λ n. n < 65536) }
{
    let mut two = [0u8; 2];
    stream::read_full(from, &mut two)?;
    Ok(usize::from(u16::from_be_bytes(two)))
}

// The next bytes of a file, as many as are asked for; those that are not there stay 0.
fn read_part(from: &mut impl Read, out: &mut [u8], n: usize) -> io::Result<()>
    requires { n ≤ length out.old }
{
    stream::read_full(from, &mut out[0..n])?;
    Ok(())
}

// The file `sheet` holds these bytes and no others.
fn put_sheet(rt: &impl Files, bytes: &[u8]) -> io::Result<()> {
    fs::write(rt, "sheet", bytes)
}

// From the file `sheet` to the file `text`.
fn chart_files(rt: &impl Files) -> io::Result<()> {
    let mut sheet = [0u8; 16385];
    let mut text = [0u8; 8704];
    let mut input = fs::open(rt, "sheet")?;
    let mut output = fs::create(rt, "text")?;
    program::chart(&mut input, &mut output, &mut sheet, &mut text)?;
    Ok(())
}

// Prints a sheet's number, how many bytes the file `text` holds, and these; there is room for more than a text may have.
fn show_text(rt: &(impl Files + Print), number: u64) -> io::Result<()> {
    let mut text = [0u8; 16384];
    let mut file = fs::open(rt, "text")?;
    let n = stream::read_full(&mut file, &mut text)?;
    println!(rt; "sheet {number}, bytes {n}")?;
    rt.write_all(&text[0..n])
}

// The next sheet of a file, which has a number.
fn play(rt: &(impl Files + Print), from: &mut impl Read, number: u64) -> io::Result<()> {
    let mut sheet = [0u8; 65536];
    let n = read_number(from)?;
    read_part(from, &mut sheet, n)?;
    put_sheet(rt, &sheet[0..n])?;
    chart_files(rt)?;
    show_text(rt, number)
}

// So many of them.
fn play_all(rt: &(impl Files + Print), from: &mut impl Read, count: usize) -> io::Result<()> {
    for number in 1..=count as u64 {
        play(rt, from, number)?;
    }
    Ok(())
}

fn main(rt: HostRuntime) -> io::Result<()> {
    let mut sheets = fs::open(&rt, "sheets")?;
    let count = read_number(&mut sheets)?;
    play_all(&rt, &mut sheets, count)
}
