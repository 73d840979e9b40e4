// A sheet's chart: the program's whole work, from the bytes of a sheet to the text that is printed.
// Document 01, "Program and values". The ring, the cells and the picture are arrays of this crate, so that none can be short.
#![tactic(auto)]

mod head;
mod text;
mod why;
mod write;

ghost use Rattle.std.specs.Prelude.{◌≡◌, [], ◌++◌, ◌≤◌, length, drop, Ok};
ghost use Rattle.implicit.specs.View.{counts_answer};
ghost use Rattle.sheet.specs.Text.{chart_text};
ghost use Rattle.sheet.specs.ChartComputed.{Prints, ended_text};
ghost use Rattle.sheet.specs.Printed.{fresh_cells, text_of, order_text};

use head::Order;
use implicit::{Ended, Tally};
use refusal::Refusal;
use text::Text;
pub use why::explain_sheet;

// Puts the text of a sheet at the start of a buffer that has room for the longest, and answers its length.
pub fn chart_sheet(sheet: &[u8], out: &mut [u8; 8704]) -> usize
    ensures value { result ≡ length (text_of sheet.now) }
    ensures out_after { out.new ≡ text_of sheet.now ++ drop (length (text_of sheet.now)) out.old }
    ensures upper_bound { result ≤ 8704 }
{
    let mut cells = [0u64; 4096];
    let ran = run_sheet(sheet, &mut cells);
    print_ended(ran, &cells, out)
}

// What the run of a sheet answers, with the cells that it leaves; or why there is none.
fn run_sheet(sheet: &[u8], cells: &mut [u64; 4096]) -> Result<Ended, Refusal>
    requires { cells.old ≡ fresh_cells }
    ensures { ended_text result cells.new ≡ text_of sheet.now }
{
    let o = head::read_order(sheet)?;
    run_order(o, &sheet[o.tape..], cells)
}

// The setup and the run. The ring lies in this frame, which ends before text and picture are made: inlined, all would be on the stack at once.
#[inline(never)]
fn run_order(o: Order, tape: &[u8], cells: &mut [u64; 4096]) -> Result<Ended, Refusal>
    requires { cells.old ≡ fresh_cells }
    ensures { ended_text result cells.new ≡ order_text o tape.now }
{
    let mut ring = [0u8; 16384];
    let s = implicit::setup(o.chosen, o.ranges, &mut ring, cells)?;
    implicit::run(s, &mut ring, cells, tape, o.budget).map_err(|r| r.why)
}

// The text of what the run answered, at the start of the buffer. Not inlined, so that the text takes no stack while the run lasts.
#[inline(never)]
fn print_ended(ran: Result<Ended, Refusal>, cells: &[u64; 4096], out: &mut [u8; 8704]) -> usize
    ensures value { result ≡ length (ended_text ran cells.now) }
    ensures out_after { out.new ≡ ended_text ran cells.now ++ drop (length (ended_text ran cells.now)) out.old }
    ensures upper_bound { result ≤ 8704 }
{
    let mut text = Text::new();
    if let Err(why) = put_ended(&mut text, ran, cells) {
        write::put_refused(&mut text, why);
    }
    text.copy_to(out)
}

// The counts, and the chart with them.
fn put_ended(
    text: &mut Text<8704>,
    ran: Result<Ended, Refusal>,
    cells: &[u64; 4096],
) -> Result<(), Refusal>
    requires { text.old ≡ [] }
    ensures { Prints result (ended_text ran cells.now) text.old text.new }
{
    let end = ran?;
    let n = implicit::counts(end.state, cells)?;
    put_chart(text, end, n, cells);
    Ok(())
}

// The two lines and the rows.
fn put_chart(text: &mut Text<8704>, end: Ended, n: Tally, cells: &[u64])
    requires counted { counts_answer end.state cells.now ≡ Ok n }
    requires start { text.old ≡ [] }
    requires cells { length cells.now ≡ 4096 }
    ensures { text.new ≡ text.old ++ chart_text end.state cells.now end.steps end.evaluations end.ending n }
{
    let mut picture = [0u8; 4096];
    // It was counted, so it is drawn.
    let _ = implicit::picture(end.state, cells, &mut picture);
    let p = end.state.chosen;
    write::put_run(text, end);
    write::put_counts(text, n);
    write::put_rows(text, p.width as usize, p.height as usize, &picture);
}
