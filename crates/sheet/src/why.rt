// Why a pixel of a sheet's chart reads what it reads, as a line of text: document 02, (v). The ring and the cells are arrays of this crate.
ghost use Rattle.std.specs.Prelude.{◌≡◌, Ok, [], ◌++◌, ◌+◌, ◌≤◌, length, drop};
ghost use Rattle.sheet.specs.Why.{moment_text, point_text, waiting_text, reason_text, stop_text, explanation_text, order_why, sheet_why, why_of};
ghost use Rattle.sheet.specs.ChartComputed.{Prints};

use crate::head;
use crate::head::Order;
use crate::text::Text;
use crate::write::put_refused;
use explain::{Explanation, Moment, Reason};
use refusal::{Refusal, number_of};

// Puts the answer to a question, the pixel's column and row and then a sheet, at the start of a buffer that has room for the longest; answers its length.
pub fn explain_sheet(question: &[u8], out: &mut [u8; 160]) -> usize
    ensures value { result ≡ length (why_of question.now) }
    ensures out_after { out.new ≡ why_of question.now ++ drop (length (why_of question.now)) out.old }
    ensures upper_bound { result ≤ 160 }
{
    // `print_ended` of a chart does as this: one function for both would need the contract of a closure, longer than these lines.
    let mut text = Text::new();
    if let Err(why) = put_why(&mut text, question) {
        put_refused(&mut text, why);
    }
    text.copy_to(out)
}

fn put_why(text: &mut Text<160>, question: &[u8]) -> Result<(), Refusal>
    requires { text.old ≡ [] }
    ensures { Prints result (why_of question.now) text.old text.new }
{
    let [c3, c2, c1, c0, r3, r2, r1, r0, sheet @ ..] = question else {
        return Err(Refusal::Sheet);
    };
    let column = u32::from_be_bytes([*c3, *c2, *c1, *c0]);
    let row = u32::from_be_bytes([*r3, *r2, *r1, *r0]);
    put_sheet_why(text, sheet, column, row)
}

fn put_sheet_why(text: &mut Text<160>, sheet: &[u8], column: u32, row: u32) -> Result<(), Refusal>
    requires { text.old ≡ [] }
    ensures { Prints result (sheet_why sheet.now column row) text.old text.new }
{
    let o = head::read_order(sheet)?;
    put_order_why(text, o, &sheet[o.tape..], column, row)
}

// After all steps of the sheet's run.
fn put_order_why(
    text: &mut Text<160>,
    o: Order,
    tape: &[u8],
    column: u32,
    row: u32,
) -> Result<(), Refusal>
    requires { text.old ≡ [] }
    ensures { Prints result (order_why o tape.now column row) text.old text.new }
{
    let mut ring = [0u8; 16384];
    let mut cells = [0u64; 4096];
    let e = explain::explain(
        o.chosen, o.ranges, &mut ring, &mut cells, tape, o.budget, column, row,
    )?;
    put_explanation(text, e);
    Ok(())
}

fn put_explanation(text: &mut Text<160>, e: Explanation)
    requires { text.old ≡ [] }
    ensures { text.new ≡ text.old ++ explanation_text (Ok e) }
{
    match e {
        Explanation::Of { reason, .. } => put_reason(text, reason),
        Explanation::Stopped { why, steps, .. } => put_stop(text, why, steps),
    }
    text.put(b"\n");
}

fn put_stop(text: &mut Text<160>, why: Refusal, steps: u64)
    requires { length text.old + 64 ≤ 160 }
    ensures text { text.new ≡ text.old ++ stop_text why steps }
    ensures size { length text.new ≤ length text.old + 64 }
{
    text.labelled(b"stop ", u64::from(number_of(why)));
    text.labelled(b" steps ", steps);
}

fn put_reason(text: &mut Text<160>, reason: Reason)
    requires { length text.old + 120 ≤ 160 }
    ensures text { text.new ≡ text.old ++ reason_text reason }
    ensures size { length text.new ≤ length text.old + 120 }
{
    match reason {
        Reason::True { at, point } => put_true(text, at, point),
        Reason::False { at } => put_moment(text, b"false", at),
        Reason::GivenUp { at } => put_moment(text, b"givenup", at),
        Reason::Waiting { number, before, .. } => put_waiting(text, number, before),
    }
}

// The child that marked it, and by what.
fn put_true(text: &mut Text<160>, m: Moment, point: u8)
    requires { length text.old + 120 ≤ 160 }
    ensures text { text.new ≡ text.old ++ reason_text (Reason.True m point) }
    ensures size { length text.new ≤ length text.old + 120 }
{
    put_moment(text, b"true", m);
    put_point(text, point);
}

fn put_point(text: &mut Text<160>, point: u8)
    requires { length text.old + 32 ≤ 160 }
    ensures text { text.new ≡ text.old ++ point_text point }
    ensures size { length text.new ≤ length text.old + 32 }
{
    if point == 0 {
        text.put(b" area");
    } else {
        text.labelled(b" point ", u64::from(point));
    }
}

// A short word, then a step and a child in it.
#[tactic(auto, unfolding(crate::specs::Why::moment_text))]
fn put_moment(text: &mut Text<160>, word: &[u8], m: Moment)
    requires word { length word.now ≤ 12 }
    requires room { length text.old + 76 ≤ 160 }
    ensures text { text.new ≡ text.old ++ word.now ++ moment_text m }
    ensures size { length text.new ≤ length text.old + 76 }
{
    text.put(word);
    text.labelled(b" step ", m.step);
    text.labelled(b" child ", u64::from(m.child));
}

// A block that waits.
fn put_waiting(text: &mut Text<160>, number: u64, before: u64)
    requires { length text.old + 120 ≤ 160 }
    ensures text { text.new ≡ text.old ++ waiting_text number before }
    ensures size { length text.new ≤ length text.old + 120 }
{
    text.put(b"waiting");
    text.labelled(b" block ", number);
    text.labelled(b" before ", before);
}
