// How many bytes a block's code takes, and what is remembered once it is queued: known before a byte is written.
ghost use Rattle.std.specs.Prelude.{◌≡◌, true};
ghost use Rattle.queue.specs.CodeComputed.{place_codable};
ghost use Rattle.queue.specs.Queue.{codable, measured};

use super::kept::{as_queued, remember, remember_place};
use super::legal::{are_parameters_legal, is_place_codable};
use super::length::{block_length, place_length};
use super::{Block, Last, Measured, QueueError};

// The bytes that a block's code would take, for a caller that must know before anything is written.
// A set without parameters has its own way, here and in append: it is the common one, and only the place is looked at.
pub fn measure(set: u8, back: Last, b: Block) -> Result<Measured, QueueError>
    ensures { result ≡ measured set back b }
{
    if !is_place_codable(b.x, b.y, back.x, back.y) {
        return Err(QueueError::NotCodable);
    }
    if set % 16 == 0 {
        return measure_place(back, b);
    }
    measure_used(set, back, b)
}

// The same in a set without parameters, where the place can be coded.
fn measure_place(back: Last, b: Block) -> Result<Measured, QueueError>
    requires { codable 0 back b ≡ true }
    ensures { result ≡ measured 0 back b }
{
    Ok(Measured {
        count: place_length(back, b) + 1,
        last: remember_place(b),
    })
}

// The same in any set, where the place can be coded.
fn measure_used(set: u8, back: Last, b: Block) -> Result<Measured, QueueError>
    requires { place_codable b.x b.y back.x back.y ≡ true }
    ensures { result ≡ measured set back b }
{
    if !are_parameters_legal(set, b.m, b.n, b.theta, b.t) {
        return Err(QueueError::NotCodable);
    }
    let kept = as_queued(set, b);
    Ok(Measured {
        count: block_length(set, back, kept),
        last: remember(kept),
    })
}
