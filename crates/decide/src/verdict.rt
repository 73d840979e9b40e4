// Verdict bytes: which are legal, what becomes of a child, and what its evaluation costs.
ghost use Rattle.std.specs.Prelude.{◌≡◌, ◌<◌, ◌%◌, ◌/◌};
ghost use Rattle.decide.specs.Verdict.{legal_verdict, first_point, undecided_outcome, verdict_outcome, outcome_of, cost_of};

use coordinate::PIXEL_RANK;

// What becomes of a child before directions are sought.
#[derive(Clone, Copy, Debug, PartialEq, Eq)]
pub enum Outcome {
    // All its cells were True already, so its verdict plays no part.
    Skipped,
    // It holds no solution.
    False,
    // It is true throughout.
    Area,
    // A sample point was found true, the first at this place.
    Point(u8),
    // Nothing is decided, after so many sample points.
    Incomplete(u8),
}

// Whether a verdict byte is one that a child of this rank can get.
#[tactic(auto, unfolding(crate::specs::Verdict::legal_verdict))]
pub fn is_legal_verdict(rank: u8, v: u8) -> bool
    ensures { result ≡ legal_verdict rank v }
{
    if PIXEL_RANK <= rank {
        return (v / 64 < 3) & (v % 64 == 0);
    }
    (v / 64 < 3) & ((v % 32 == 0) | ((v / 64 == 1) & (v / 32 % 2 == 1)))
}

// What becomes of a child with this rank and verdict, where all its cells are True or not.
pub fn judge(rank: u8, v: u8, all: bool) -> Outcome
    ensures { result ≡ outcome_of rank v all }
{
    if all {
        return Outcome::Skipped;
    }
    by_verdict(rank, v)
}

// What a verdict makes of a child that is not skipped.
#[tactic(auto, unfolding(crate::specs::Verdict::verdict_outcome))]
fn by_verdict(rank: u8, v: u8) -> Outcome
    ensures { result ≡ verdict_outcome rank v }
{
    if v / 64 == 0 {
        return Outcome::False;
    }
    if v / 64 == 1 {
        return undecided(v);
    }
    if (PIXEL_RANK <= rank) | (v / 32 % 2 == 1) {
        return Outcome::Area;
    }
    Outcome::Incomplete(0)
}

// What an undecided verdict makes of a child: without the area bit no point is tried.
#[tactic(auto, unfolding(crate::specs::Verdict::undecided_outcome))]
fn undecided(v: u8) -> Outcome
    requires { v / 64 ≡ 1 }
    ensures { result ≡ undecided_outcome v }
{
    if v / 32 % 2 == 0 {
        return Outcome::Incomplete(0);
    }
    if v % 32 == 0 {
        return Outcome::Incomplete(5);
    }
    Outcome::Point(first_point(v))
}

// The place of the first point bit that is set: the xor takes the result and the area bit away.
fn first_point(v: u8) -> u8
    requires { (v / 32 ≡ 3) × (0 < v % 32) }
    ensures { result ≡ first_point v }
{
    (u8::leading_zeros(v ^ 0x60) - 2) as u8
}

// How many evaluations a child costs.
pub fn cost_of(o: Outcome) -> u64
    ensures { result ≡ cost_of o }
{
    match o {
        Outcome::Skipped => 0,
        Outcome::False => 1,
        Outcome::Area => 1,
        Outcome::Point(place) => place as u64 + 1,
        Outcome::Incomplete(points) => points as u64 + 1,
    }
}
