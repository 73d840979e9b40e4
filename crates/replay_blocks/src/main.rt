// Replays block sequences against expected bytes: the records of the file `cases`, each a length byte and so many bytes, in order.
// make.py beside this folder's data/ says what a record holds; it computes what is expected by itself, from document 01.
#![tactic(auto)]

ghost use Rattle.std.specs.Prelude.{◌≡◌, ◌+◌, ◌^◌, ◌≤◌, ◌<◌, IfOk};
ghost use Rattle.replay_blocks.specs.Replay.{records, tallied_by};

use record::Record;
use replay_lists::list::next_bytes;
use score::{Outcome, Score};
use std::io::Read;
use std::{fs, io};
use tested::Tested;

mod answers;
mod kind;
mod record;
mod score;
mod tested;

// One record more: played, and counted by what became of it.
fn step(queue: &mut Tested, score: &mut Score, rec: &Record) -> Outcome
    requires { records score.old < 2 ^ 32 }
    ensures tallied { score.new ≡ tallied_by rec.now queue.old score.old }
    ensures one { records score.new ≡ records score.old + 1 }
{
    let outcome = queue.play(rec);
    score.count(outcome);
    outcome
}

// The next record, with zeros behind its bytes; none at the end, and at a record of no bytes.
fn next(from: &mut impl Read) -> io::Result<Option<Record>> {
    let [n] = next_bytes::<1, _>(from)?;
    if n == 0 {
        return Ok(None);
    }
    let mut rec = [0u8; 256];
    stream::read_full(from, &mut rec[..usize::from(n)])?;
    Ok(Some(rec))
}

// All records, but no more than a million.
fn replay(rt: &impl Print, from: &mut impl Read) -> io::Result<Score>
    ensures { IfOk result (λ score. records score ≤ 1000000) }
{
    let mut queue = Tested::new();
    let mut score = Score::default();
    for _pass in 0..1000000u64 {
        let Some(rec) = next(from)? else {
            return Ok(score);
        };
        if let Outcome::Differed = step(&mut queue, &mut score, &rec) {
            score.show_last(rt)?;
        }
    }
    Ok(score)
}

fn main(rt: HostRuntime) -> io::Result<()> {
    let mut cases = fs::open(&rt, "cases")?;
    replay(&rt, &mut cases)?.show(&rt)
}
