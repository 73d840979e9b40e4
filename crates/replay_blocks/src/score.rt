// The counts: what became of the records so far.
ghost use Rattle.std.specs.Prelude.{◌≡◌, ◌+◌, ◌≤◌, ◌<◌, ◌^◌};
ghost use Rattle.replay_blocks.specs.Replay.{compared, counted_by, records};

use std::io;

// What became of a record: it only set the queue up, or what came out of it was compared with what it holds.
#[derive(Clone, Copy)]
pub(crate) enum Outcome {
    SetUp,
    Agreed,
    Differed,
}

// How a comparison went.
impl From<bool> for Outcome {
    ghost from_gives = { λ same r. r ≡ compared same };

    fn from(same: bool) -> Outcome {
        if same {
            Outcome::Agreed
        } else {
            Outcome::Differed
        }
    }
}

// How many records agreed, differed, and only set the queue up.
#[derive(Clone, Copy, Default)]
pub(crate) struct Score {
    pub agree: u64,
    pub differ: u64,
    pub setup: u64,
}

impl Score {
    // One record more.
    pub(crate) fn count(&mut self, outcome: Outcome)
        requires { records self.old < 2 ^ 32 }
        ensures counted { self.new ≡ counted_by outcome self.old }
        ensures one { records self.new ≡ records self.old + 1 }
    {
        match outcome {
            Outcome::SetUp => self.setup += 1,
            Outcome::Agreed => self.agree += 1,
            Outcome::Differed => self.differ += 1,
        }
    }

    // The record that was counted last, which differs: of the first twenty such, its place in the list.
    pub(crate) fn show_last(&self, rt: &impl Print) -> io::Result<()>
        requires { records self.now ≤ 2 ^ 32 }
    {
        if self.differ <= 20 {
            let number = self.agree + self.differ + self.setup;
            println!(rt; "differs: record {number}")?;
        }
        Ok(())
    }

    pub(crate) fn show(&self, rt: &impl Print) -> io::Result<()> {
        println!(rt; "records that agree: {}", self.agree)?;
        println!(rt; "records that differ: {}", self.differ)?;
        println!(rt; "records that set up: {}", self.setup)
    }
}
