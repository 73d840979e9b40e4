// The programs' work, from a reader to a writer: a sheet is read, and its text is written, document 01, "Program and values"; or a question about a
// pixel of it is read, and the answer is written, document 02, (v).
// What is read is read to its end, or to one byte more than there may be, and what is written is its text, where the reader and the writer say which bytes
// they give and hold. A file, a terminal and a pipe do not; what the programs do on files is played by `replay_sheets`.
#![tactic(auto)]

ghost use Rattle.std.specs.Prelude.{◌≡◌, List, ℕ, ◌++◌, ◌≤◌, ◌<◌, length, take, drop, IfOk, OnOk, OnErr};
ghost use Rattle.std.specs.Io.KnownBytes.{Appends, Consumes, IsAtEnd};
ghost use Rattle.sheet.specs.Printed.{text_of};
ghost use Rattle.sheet.specs.Why.{why_of};
ghost use Rattle.program.specs.Unsaid.{Unsaid};

use std::io;
use std::io::{Read, Write};

// How many bytes of the sheet, or of the question, were read, and how many of its text were written.
#[derive(Clone, Copy)]
pub struct Charted {
    pub read: usize,
    pub written: usize,
}

// What a program makes of the bytes that it reads: a text of at most N bytes.
trait Prints<const N: usize> {
    ghost printed: { List ℕ → List ℕ };

    fn print(asked: &[u8], text: &mut [u8; N]) -> usize
        ensures value { result ≡ length (printed asked.now) }
        ensures text_after { text.new ≡ printed asked.now ++ drop (length (printed asked.now)) text.old }
        ensures upper_bound { result ≤ N };
}

// The chart of a sheet.
struct SheetChart;

impl Prints<8704> for SheetChart {
    ghost printed = { text_of };

    fn print(asked: &[u8], text: &mut [u8; 8704]) -> usize {
        sheet::chart_sheet(asked, text)
    }
}

// The reason that a question asks for.
struct PixelReason;

impl Prints<160> for PixelReason {
    ghost printed = { why_of };

    fn print(asked: &[u8], text: &mut [u8; 160]) -> usize {
        sheet::explain_sheet(asked, text)
    }
}

// Reads what there is room for, and writes the answer to it.
fn read_and_write<P: Prints<N>, R: Read, W: Write, const M: usize, const N: usize>(
    input: &mut R,
    output: &mut W,
    asked: &mut [u8; M],
    text: &mut [u8; N],
) -> io::Result<Charted>
    ensures read_in_bounds { IfOk result (λ done. done.read ≤ length asked.new) }
    ensures written_value { IfOk result (λ done. done.written ≡ length (P.printed (take done.read asked.new))) }
    ensures text_after { IfOk result (λ done. text.new ≡ P.printed (take done.read asked.new) ++ drop done.written text.old) }
    ensures bytes_read { IfOk result (λ done. Consumes (R.remaining input.old) (R.remaining input.new) (take done.read asked.new)) }
    ensures all_read { IfOk result (λ done. done.read < length asked.new → IsAtEnd (R.remaining input.new)) }
    ensures bytes_written { IfOk result (λ done. Appends (W.contents output.old) (W.contents output.new) (P.printed (take done.read asked.new))) }
    ensures err { OnErr result (Unsaid P.printed asked.new (R.remaining input.old) (R.remaining input.new)
        text.old text.new (W.contents output.old) (W.contents output.new)) }
{
    let read = stream::read_full(input, asked)?;
    let written = P::print(&asked[..read], text);
    stream::write_full(output, &text[..written])?;
    Ok(Charted { read, written })
}

// Charts the sheet that a reader gives, and writes the text to a writer. One byte more than a sheet may have is read, so that one too many is seen. A read
// or a write that fails is answered with its error.
pub fn chart<R: Read, W: Write>(
    input: &mut R,
    output: &mut W,
    sheet: &mut [u8; 16385],
    text: &mut [u8; 8704],
) -> io::Result<Charted>
    ensures read_in_bounds { IfOk result (λ done. done.read ≤ length sheet.new) }
    ensures written_value { IfOk result (λ done. done.written ≡ length (text_of (take done.read sheet.new))) }
    ensures text_after { IfOk result (λ done. text.new ≡ text_of (take done.read sheet.new) ++ drop done.written text.old) }
    ensures bytes_read { IfOk result (λ done. Consumes (R.remaining input.old) (R.remaining input.new) (take done.read sheet.new)) }
    ensures all_read { IfOk result (λ done. done.read < length sheet.new → IsAtEnd (R.remaining input.new)) }
    ensures bytes_written { IfOk result (λ done. Appends (W.contents output.old) (W.contents output.new) (text_of (take done.read sheet.new))) }
    ensures err { OnErr result (Unsaid text_of sheet.new (R.remaining input.old) (R.remaining input.new)
        text.old text.new (W.contents output.old) (W.contents output.new)) }
{
    read_and_write::<SheetChart, R, W, 16385, 8704>(input, output, sheet, text)
}

// Answers the question that a reader gives, the column and the row of a pixel, four bytes each, and then a sheet, and writes the answer to a writer. As
// `chart` does it, with one byte more than a question may have.
pub fn why<R: Read, W: Write>(
    input: &mut R,
    output: &mut W,
    question: &mut [u8; 16393],
    text: &mut [u8; 160],
) -> io::Result<Charted>
    ensures read_in_bounds { IfOk result (λ done. done.read ≤ length question.new) }
    ensures written_value { IfOk result (λ done. done.written ≡ length (why_of (take done.read question.new))) }
    ensures text_after { IfOk result (λ done. text.new ≡ why_of (take done.read question.new) ++ drop done.written text.old) }
    ensures bytes_read { IfOk result (λ done. Consumes (R.remaining input.old) (R.remaining input.new) (take done.read question.new)) }
    ensures all_read { IfOk result (λ done. done.read < length question.new → IsAtEnd (R.remaining input.new)) }
    ensures bytes_written { IfOk result (λ done. Appends (W.contents output.old) (W.contents output.new) (why_of (take done.read question.new))) }
    ensures err { OnErr result (Unsaid why_of question.new (R.remaining input.old) (R.remaining input.new)
        text.old text.new (W.contents output.old) (W.contents output.new)) }
{
    read_and_write::<PixelReason, R, W, 16393, 160>(input, output, question, text)
}
