// When an answer of the queue is the one that a record holds.
ghost use Rattle.std.specs.Prelude.{◌≡◌};
ghost use Rattle.replay_blocks.specs.Record.{same_measure};
ghost use Rattle.replay_blocks.specs.Replay.{same_appended, same_taken};

use crate::record::{same_block, same_last};
use queue::{Appended, Block, Last, Measured, QueueError, Taken};

pub(crate) fn same_measure(m: Result<Measured, QueueError>, want: usize, memory: Last) -> bool
    ensures { result ≡ same_measure m want memory }
{
    match m {
        Ok(Measured { count, last }) => (count == want) & same_last(last, memory),
        Err(_) => want == 65535,
    }
}

pub(crate) fn same_appended(
    answer: Result<Appended, QueueError>,
    want: u8,
    used: usize,
    memory: Last,
) -> bool
    ensures { result ≡ same_appended answer want used memory }
{
    match answer {
        Ok(done) => (want == 0) & (done.used == used) & same_last(done.last, memory),
        Err(QueueError::NoRoom) => want == 1,
        Err(QueueError::NotCodable) => want == 2,
        Err(QueueError::Outside) => want == 3,
        Err(QueueError::Damaged) => false,
    }
}

pub(crate) fn same_taken(
    answer: Result<Taken, QueueError>,
    want: u8,
    head: usize,
    used: usize,
    b: Block,
    memory: Last,
) -> bool
    ensures { result ≡ same_taken answer want head used b memory }
{
    match answer {
        Ok(t) => {
            (want == 0)
                & (t.head == head)
                & (t.used == used)
                & same_block(t.block, b)
                & same_last(t.last, memory)
        }
        Err(QueueError::Damaged) => want == 1,
        Err(QueueError::Outside) => want == 2,
        Err(_) => false,
    }
}
