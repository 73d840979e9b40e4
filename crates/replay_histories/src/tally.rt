// How many calls agreed: a call counts as agreed exactly if it left both tables as the list wants them, and else as different.
ghost use Rattle.std.specs.Prelude.{◌≡◌, ◌+◌, ◌<◌, OnOk};
ghost use Rattle.replay_histories.specs.Counting.{calls, closed, CountedBy};

use crate::list::say_title;
use crate::tables::Tables;
use std::io;
use std::io::Read;

// Calls that agreed and that differed, in this part of the list and in those before it.
#[derive(Clone, Copy, Default)]
pub(crate) struct CallScore {
    pub agree: u64,
    pub differ: u64,
    pub before: u64,
    pub wrong: u64,
}

impl CallScore {
    // One call more, by what it left. The first twenty that differ are shown.
    pub(crate) fn count(
        &mut self,
        rt: &impl Print,
        wanted: &Tables,
        left: &Tables,
    ) -> io::Result<()>
        requires { calls self.old < 4000000 }
        ensures counted_by { OnOk result (CountedBy (wanted.now ≡ left.now) self.old self.new) }
        ensures one { OnOk result (calls self.new ≡ calls self.old + 1) }
    {
        if *wanted == *left {
            self.agree += 1;
            return Ok(());
        }
        if self.differ + self.wrong < 20 {
            print!(rt;
                "call {}",
                self.agree + self.differ + self.before + self.wrong + 1
            )?;
            left.say_difference(rt, wanted)?;
        }
        self.differ += 1;
        Ok(())
    }

    // The end of a part: its title, and what agreed and differed in it.
    pub(crate) fn close_part(&mut self, rt: &impl Print, list: &mut impl Read) -> io::Result<()>
        requires { calls self.old < 4000000 }
        ensures { OnOk result (self.new ≡ closed self.old) }
    {
        say_title(rt, list)?;
        println!(rt; ": {} agree, {} differ", self.agree, self.differ)?;
        *self = CallScore {
            agree: 0,
            differ: 0,
            before: self.before + self.agree,
            wrong: self.wrong + self.differ,
        };
        Ok(())
    }

    pub(crate) fn show_all(&self, rt: &impl Print) -> io::Result<()>
        requires { calls self.now < 4000000 }
    {
        println!(rt;
            "all: {} agree, {} differ",
            self.before + self.agree,
            self.wrong + self.differ
        )
    }
}
