// The answers of the leaves as records, and a level as the rank that the leaves know.
ghost use Rattle.std.specs.Prelude.{◌≡◌};
ghost use Rattle.capi.specs.Leaf.{rank_of, coordinate_from, point_record, whether_record, pieces_record, code_record, read_record, pixel_record, halves_record};
ghost use Rattle.capi.specs.LeafComputed.{no_coordinate};

use crate::engine_records::refusal_number;
use crate::records::{
    Code, Coordinate, Halved, LOWEST_LEVEL, Number, Pieces, Point, RANK_OF_LEVEL_0, Read,
};
use coordinate::Halves;
use queue::whole_line;
use refusal::Refusal;

impl From<Result<f64, Refusal>> for Point {
    ghost from_gives = { λ a r. r ≡ point_record a };

    fn from(a: Result<f64, Refusal>) -> Point {
        match a {
            Ok(value) => Point { refusal: 0, value },
            Err(why) => Point {
                refusal: refusal_number(why),
                value: 0.0,
            },
        }
    }
}

impl From<Result<bool, Refusal>> for Number {
    ghost from_gives = { λ a r. r ≡ whether_record a };

    fn from(a: Result<bool, Refusal>) -> Number {
        match a {
            Ok(yes) => Number {
                refusal: 0,
                value: u64::from(yes),
            },
            Err(why) => Number {
                refusal: refusal_number(why),
                value: 0,
            },
        }
    }
}

impl From<Result<interval::Pieces, Refusal>> for Pieces {
    ghost from_gives = { λ a r. r ≡ pieces_record a };

    fn from(a: Result<interval::Pieces, Refusal>) -> Pieces {
        let none = whole_line();
        let (refusal, count, at) = match a {
            Ok(interval::Pieces::One(p)) => (0, 1, [p, none, none]),
            Ok(interval::Pieces::Two(p, q)) => (0, 2, [p, q, none]),
            Ok(interval::Pieces::Three(p, q, r)) => (0, 3, [p, q, r]),
            Err(why) => (refusal_number(why), 0, [none, none, none]),
        };
        Pieces { refusal, count, at }
    }
}

impl From<Result<small::Code, Refusal>> for Code {
    ghost from_gives = { λ a r. r ≡ code_record a };

    fn from(a: Result<small::Code, Refusal>) -> Code {
        match a {
            Ok(code) => Code {
                refusal: 0,
                head: code.head,
                tail: code.tail,
                count: code.count,
            },
            Err(why) => Code {
                refusal: refusal_number(why),
                head: 0,
                tail: 0,
                count: 0,
            },
        }
    }
}

impl From<Result<small::Number, Refusal>> for Read {
    ghost from_gives = { λ a r. r ≡ read_record a };

    fn from(a: Result<small::Number, Refusal>) -> Read {
        match a {
            Ok(number) => Read {
                refusal: 0,
                value: number.x,
                count: number.count,
            },
            Err(why) => Read {
                refusal: refusal_number(why),
                value: 0,
                count: 0,
            },
        }
    }
}

impl From<Result<u64, Refusal>> for Number {
    ghost from_gives = { λ a r. r ≡ pixel_record a };

    fn from(a: Result<u64, Refusal>) -> Number {
        match a {
            Ok(value) => Number { refusal: 0, value },
            Err(why) => Number {
                refusal: refusal_number(why),
                value: 0,
            },
        }
    }
}

impl From<Result<Halves, Refusal>> for Halved {
    ghost from_gives = { λ a r. r ≡ halves_record a };

    fn from(a: Result<Halves, Refusal>) -> Halved {
        match a {
            Ok(halves) => Halved {
                refusal: 0,
                low: halves.low.into(),
                high: halves.high.into(),
            },
            Err(why) => Halved {
                refusal: refusal_number(why),
                low: no_coordinate(),
                high: no_coordinate(),
            },
        }
    }
}

fn no_coordinate() -> Coordinate
    ensures { result ≡ no_coordinate }
{
    Coordinate { index: 0, level: 0 }
}

// A coordinate as the leaves know it; a level that has no rank becomes one that they refuse.
impl From<Coordinate> for coordinate::Coordinate {
    ghost from_gives = { λ c r. r ≡ coordinate_from c };

    fn from(c: Coordinate) -> coordinate::Coordinate {
        coordinate::Coordinate {
            index: c.index,
            rank: rank_of(c.level),
        }
    }
}

fn rank_of(level: i32) -> u8
    ensures { result ≡ rank_of level }
{
    if (level < LOWEST_LEVEL) | (15 < level) {
        return 64;
    }
    (level + RANK_OF_LEVEL_0) as u8
}
