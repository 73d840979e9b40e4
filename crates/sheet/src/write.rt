// The lines of a chart's text, each put behind the text that there is.
// Document 01, "Program and values": the two lines, the rows, and the line of a refusal.
ghost use Rattle.std.specs.Prelude.{◌≡◌, ◌++◌, map, ◌+◌, ◌*◌, ◌≤◌, length};
ghost use Rattle.sheet.specs.Text.{line_end, ending_text, run_line, reading_counts, other_counts, count_line, rows_of, refused_text};
ghost use Rattle.sheet.specs.ChartComputed.{reading_of, symbol_of};

use crate::text::Text;
use image::Reading;
use implicit::{Ended, Ending, Tally};
use refusal::{Refusal, number_of};

// How a run ended.
fn put_ending<const N: usize>(text: &mut Text<N>, ending: Ending)
    requires { length text.old + 32 ≤ N }
    ensures text { text.new ≡ text.old ++ ending_text ending }
    ensures size { length text.new ≤ length text.old + 32 }
{
    match ending {
        Ending::Done => text.put(b" done"),
        Ending::Limit => text.put(b" limit"),
        Ending::More => text.put(b" more"),
        Ending::Stop(why) => text.labelled(b" stop ", u64::from(number_of(why))),
    }
}

// The line of the run: its size, its steps, its evaluations and its ending.
#[tactic(auto, unfolding(crate::specs::Text::run_line))]
pub(crate) fn put_run<const N: usize>(text: &mut Text<N>, end: Ended)
    requires { length text.old + 192 ≤ N }
    ensures text { text.new ≡ text.old ++ run_line end.state.chosen.width end.state.chosen.height end.steps end.evaluations end.ending }
    ensures size { length text.new ≤ length text.old + 192 }
{
    text.labelled(b"size ", u64::from(end.state.chosen.width));
    text.labelled(b" ", u64::from(end.state.chosen.height));
    text.labelled(b" steps ", end.steps);
    text.labelled(b" evals ", end.evaluations);
    put_ending(text, end.ending);
    text.put(b"\n");
}

// The pixels by reading.
#[tactic(auto, unfolding(crate::specs::Text::reading_counts))]
fn put_readings<const N: usize>(text: &mut Text<N>, n: Tally)
    requires { length text.old + 96 ≤ N }
    ensures text { text.new ≡ text.old ++ reading_counts n }
    ensures size { length text.new ≤ length text.old + 96 }
{
    text.labelled(b"true ", n.trues);
    text.labelled(b" false ", n.falses);
    text.labelled(b" uncertain ", n.uncertain);
}

// The other counts, to the end of their line.
#[tactic(auto, unfolding(crate::specs::Text::other_counts))]
fn put_others<const N: usize>(text: &mut Text<N>, n: Tally)
    requires { length text.old + 128 ≤ N }
    ensures text { text.new ≡ text.old ++ other_counts n }
    ensures size { length text.new ≤ length text.old + 128 }
{
    text.labelled(b" givenup ", n.givenup);
    text.labelled(b" queued ", n.queued);
    text.labelled(b" share ", n.share);
    text.put(b"\n");
}

// The line of the counts.
pub(crate) fn put_counts<const N: usize>(text: &mut Text<N>, n: Tally)
    requires { length text.old + 224 ≤ N }
    ensures text { text.new ≡ text.old ++ count_line n }
    ensures size { length text.new ≤ length text.old + 224 }
{
    put_readings(text, n);
    put_others(text, n);
}

// The reading of a picture's byte.
fn reading_of(b: u8) -> Reading
    ensures { result ≡ reading_of b }
{
    match b {
        0 => Reading::False,
        1 => Reading::Uncertain,
        _ => Reading::True,
    }
}

// Its character.
fn symbol(b: u8) -> u8
    ensures { result ≡ symbol_of b }
{
    image::reading_character(reading_of(b))
}

// A row of the picture, with its line end.
fn put_row<const N: usize>(text: &mut Text<N>, row: &[u8])
    requires { length text.old + length row.now + 1 ≤ N }
    ensures text { text.new ≡ text.old ++ map symbol_of row.now ++ line_end }
    ensures size { length text.new ≡ length text.old + (length row.now + 1) }
{
    for b in row {
        text.put(&[symbol(*b)]);
    }
    text.put(b"\n");
}

// All rows of the picture.
#[tactic(auto, using(crate::proofs::RowLaws::row_room), unfolding(crate::specs::Text::rows_of))]
pub(crate) fn put_rows<const N: usize>(
    text: &mut Text<N>,
    width: usize,
    height: usize,
    picture: &[u8],
)
    requires picture { width * height ≤ length picture.now }
    requires room { length text.old + (width + 1) * height ≤ N }
    ensures { text.new ≡ text.old ++ rows_of width height (map symbol_of picture.now) }
{
    // `chunks_exact` would ask for a width over 0.
    let mut rest = picture;
    for _y in 0..height {
        let (row, below) = rest.split_at(width);
        put_row(text, row);
        rest = below;
    }
}

// The line of a refusal.
#[tactic(auto, unfolding(crate::specs::Text::refused_text))]
pub(crate) fn put_refused<const N: usize>(text: &mut Text<N>, why: Refusal)
    requires { length text.old + 33 ≤ N }
    ensures { text.new ≡ text.old ++ refused_text why }
{
    text.labelled(b"refused ", u64::from(number_of(why)));
    text.put(b"\n");
}
