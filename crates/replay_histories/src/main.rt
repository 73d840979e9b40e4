// Replays recorded calls of the engine from standard input, and prints for each part of the list how many calls agreed, and the first places that differed.
//
// Two tables hold all that a call is given and leaves: words (record, arguments, answer, children, cells, tile counts) and bytes (ring, verdicts, picture,
// other ring). An entry of the list names a call, changes the tables to what the call is given, and changes them to what it must leave. The call works on
// copies of them, which are then compared with the tables, every word and every byte. make.py beside this folder writes the list, tables.py says where each
// thing stands.
#![tactic(auto)]

ghost use Rattle.std.specs.Prelude.{◌≡◌, ◌+◌, ◌≤◌, ◌<◌, IfOk, OnOk};
ghost use Rattle.replay_histories.specs.Counting.{calls, CountedBy};
ghost use Rattle.replay_histories.specs.Entry.{CountedAs};

use calls::play;
use list::{Entry, change, next_entry};
use std::io;
use std::io::Read;
use tables::Tables;
use tally::CallScore;

mod answers;
mod calls;
mod explaining;
mod list;
mod record;
mod tables;
mod tally;
mod with_table;

// What the list wants, into the tables, and the score by it. The copies are lent to be read alone, so that nothing can bring them nearer to what is wanted.
fn compare(
    rt: &impl Print,
    list: &mut impl Read,
    score: &mut CallScore,
    tables: &mut Tables,
    left: &Tables,
) -> io::Result<()>
    requires { calls score.old < 4000000 }
    ensures counted_by { OnOk result (CountedBy (tables.new ≡ left.now) score.old score.new) }
    ensures one { OnOk result (calls score.new ≡ calls score.old + 1) }
{
    change(list, tables)?;
    score.count(rt, tables, left)
}

// A call of the list: what is given, the call, what must be left.
fn replay_call(
    rt: &impl Print,
    list: &mut impl Read,
    number: u8,
    score: &mut CallScore,
    tables: &mut Tables,
    left: &mut Tables,
) -> io::Result<()>
    requires { calls score.old < 4000000 }
    ensures counted_by { OnOk result (CountedBy (tables.new ≡ left.new) score.old score.new) }
    ensures one { OnOk result (calls score.new ≡ calls score.old + 1) }
{
    change(list, tables)?;
    *left = *tables;
    play(number, tables, left);
    compare(rt, list, score, tables, left)
}

// An entry of the list, counted as what it is. The end of the list leaves all as it was.
fn replay_entry(
    rt: &impl Print,
    list: &mut impl Read,
    entry: Entry,
    score: &mut CallScore,
    tables: &mut Tables,
    left: &mut Tables,
) -> io::Result<()>
    requires { calls score.old < 4000000 }
    ensures counted { OnOk result (CountedAs entry tables.new left.new score.old score.new) }
    ensures at_most_one { OnOk result (calls score.new ≤ calls score.old + 1) }
{
    match entry {
        Entry::Call(number) => replay_call(rt, list, number, score, tables, left),
        Entry::PartEnd => score.close_part(rt, list),
        Entry::End => Ok(()),
    }
}

// All entries up to the end of the list, but no more than a million.
fn replay(rt: &impl Print, list: &mut impl Read) -> io::Result<CallScore>
    ensures { IfOk result (λ score. calls score ≤ 1000000) }
{
    let mut tables = Tables::new();
    let mut left = Tables::new();
    let mut score = CallScore::default();
    for _pass in 0..1000000u64 {
        let entry = next_entry(list)?;
        if let Entry::End = entry {
            return Ok(score);
        }
        replay_entry(rt, list, entry, &mut score, &mut tables, &mut left)?;
    }
    Ok(score)
}

fn main(rt: HostRuntime) -> io::Result<()> {
    let mut list = rt.reader();
    replay(&rt, &mut list)?.show_all(&rt)
}
