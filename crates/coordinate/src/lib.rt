// Coordinates: an index and a level on one axis of the picture. Document 01, "Small numbers and coordinates".
// The level k is kept as its rank, k + 48, an unsigned number: -32 to 15 is 16 to 63, and rank 48 is one pixel wide.
// A lone coordinate outside the ranges is refused by 8.
#![tactic(auto)]

ghost use Rattle.std.specs.Prelude.{◌≡◌, ◌<◌, true, false, MatchResult};
ghost use Rattle.refusal.specs.declared.Refusal.TheVariants.{Damaged};
ghost use Rattle.coordinate.specs.Axis.{ordinary_floor, legal_side, inside};
ghost use Rattle.coordinate.specs.Lone.{legal, pixel_asked, halves_asked, subdivisible_asked, inside_asked, place_right};

use refusal::Refusal;

// The rank of a pixel's level, which is 0.
pub const PIXEL_RANK: u8 = 48;
// The rank of the lowest level, which is -32.
pub const FLOOR_RANK: u8 = 16;
// Every index is below 2^47.
pub const INDEX_LIMIT: u64 = 1 << 47;
// The longest side of a picture, in pixels.
pub const LONGEST_SIDE: u32 = 32768;

// The part of one axis from i times 2^k to (i + 1) times 2^k, in pixels.
#[repr(C)]
#[derive(Clone, Copy, Debug, PartialEq, Eq)]
pub struct Coordinate {
    pub index: u64,
    // k + 48
    pub rank: u8,
}

// The two halves of a coordinate.
#[derive(Clone, Copy, Debug, PartialEq, Eq)]
pub struct Halves {
    pub low: Coordinate,
    pub high: Coordinate,
}

// Whether a side is one that a picture can have.
pub fn is_legal_side(side: u32) -> bool
    ensures { result ≡ legal_side side }
{
    (1..=LONGEST_SIDE).contains(&side)
}

// Whether index and level are in the ranges.
#[tactic(auto, unfolding(crate::specs::Axis::in_range))]
pub fn is_legal(c: Coordinate) -> bool
    ensures { result ≡ legal ordinary_floor c }
{
    (FLOOR_RANK <= c.rank) & (c.rank < 64) & (c.index < INDEX_LIMIT)
}

// A coordinate outside the ranges is refused.
fn check(c: Coordinate) -> Result<(), Refusal>
    ensures { MatchResult result (λ _. legal ordinary_floor c ≡ true) (λ why. (why ≡ Damaged) × (legal ordinary_floor c ≡ false)) }
{
    if is_legal(c) {
        Ok(())
    } else {
        Err(Refusal::Damaged)
    }
}

// The pixel that the coordinate begins in, uncut.
#[tactic(auto, using(crate::proofs::LoneLaws::shifts), unfolding(crate::specs::Lone::pixel_asked))]
pub fn pixel_index(c: Coordinate) -> Result<u64, Refusal>
    ensures { result ≡ pixel_asked ordinary_floor c }
{
    check(c)?;
    let rank = c.rank;
    if rank < PIXEL_RANK {
        Ok(c.index >> (PIXEL_RANK - rank))
    } else {
        Ok(c.index << (rank - PIXEL_RANK))
    }
}

// The halves, one level down. Refused too where they would leave the ranges.
#[tactic(auto, using(crate::proofs::PixelLaws::ranged), unfolding(crate::specs::Lone::halves_asked))]
pub fn subdivide(c: Coordinate) -> Result<Halves, Refusal>
    ensures { result ≡ halves_asked ordinary_floor c }
{
    check(c)?;
    let index = 2 * c.index;
    let rank = c.rank - 1;
    let low = Coordinate { index, rank };
    let high = Coordinate {
        index: index + 1,
        rank,
    };
    if (FLOOR_RANK < c.rank) & is_legal(high) {
        Ok(Halves { low, high })
    } else {
        Err(Refusal::Damaged)
    }
}

// Whether there is a level below.
#[tactic(auto, unfolding(crate::specs::Lone::subdivisible_asked))]
pub fn is_subdivisible(c: Coordinate) -> Result<bool, Refusal>
    ensures { result ≡ subdivisible_asked ordinary_floor c }
{
    check(c)?;
    Ok(FLOOR_RANK < c.rank)
}

// Whether the coordinate begins inside a side of so many pixels.
#[tactic(auto, using(crate::proofs::PixelLaws::ranged), unfolding(crate::specs::Lone::inside_asked))]
pub fn is_inside(c: Coordinate, side: u32) -> Result<bool, Refusal>
    ensures { result ≡ inside_asked ordinary_floor c side }
{
    check(c)?;
    Ok(begins_inside(c.index, c.rank, u64::from(side)))
}

// Whether it is in the ranges and begins inside.
#[tactic(auto, using(crate::proofs::PixelLaws::ranged))]
pub fn is_placed(c: Coordinate, side: u32) -> bool
    ensures { result ≡ place_right side c }
{
    is_legal(c) && begins_inside(c.index, c.rank, u64::from(side))
}

// The same without a product, which could be too large: a comparison of pixels below the pixel level, of places from it up.
#[tactic(auto, using(crate::proofs::LoneLaws::shifts))]
fn begins_inside(index: u64, rank: u8, side: u64) -> bool
    requires { (rank < 64) × (side < 4294967296) }
    ensures { result ≡ inside side rank index }
{
    if rank < PIXEL_RANK {
        index >> (PIXEL_RANK - rank) < side
    } else {
        index < (side + ((1 << (rank - PIXEL_RANK)) - 1)) >> (rank - PIXEL_RANK)
    }
}
