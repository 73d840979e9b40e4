// The refusals of document 01's table and of document 02's requests, one case a number, and the answers that only say yes or no.
#![tactic(auto)]

ghost use Rattle.std.specs.Prelude.{◌≡◌};
ghost use Rattle.refusal.specs.Number.{number};

// Why a call is refused. `number` in specs/ gives each its number.
#[derive(Clone, Copy, Debug, PartialEq, Eq)]
pub enum Refusal {
    // A side is 0 or over 32768.
    Side = 1,
    // Fewer cells than pixels.
    Cells = 2,
    // A variable set over 63, or an interval that is not legal.
    Parameter = 3,
    // Verdict bytes differ in number from the children.
    Verdicts = 4,
    // A verdict byte is not legal.
    Verdict = 5,
    // The new codes do not fit the ring.
    Room = 6,
    // A block's number would pass 4294967295.
    Numbers = 7,
    // A record, a block, a cell or a lone coordinate is damaged.
    Damaged = 8,
    // A number to code is over 2^56 - 1.
    TooLarge = 9,
    // A code's bytes end early.
    EndsEarly = 10,
    // A code's head byte is 0.
    HeadZero = 11,
    // The picture buffer is shorter than the pixels.
    Picture = 12,
    // A single step on an empty queue.
    Empty = 13,
    // A sheet that the program does not take.
    Sheet = 14,
    // A box's bound is not finite, or its ends cross.
    Bounds = 15,
    // Padding leaves no width or height.
    Padding = 16,
    // A table of tile counts with fewer than four numbers a tile.
    Table = 17,
    // A pixel outside the picture.
    Pixel = 18,
}

// The number of a refusal. No `From` beside it: that would say the same twice.
pub fn number_of(r: Refusal) -> u8
    ensures { result ≡ number r }
{
    r as u8
}
