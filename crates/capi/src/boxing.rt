// A block's box for programs in other languages: a plot and two coordinates in, four edges and two intervals out.
ghost use Rattle.std.specs.Prelude.{◌≡◌};
ghost use Rattle.boxes.specs.Boxes.{box_of};
ghost use Rattle.capi.specs.Boxing.{kind_of, box_record};
ghost use Rattle.capi.specs.Leaf.{coordinate_from};

use crate::engine_records::refusal_number;
use crate::records::{Boxed, Coordinate};
use boxes::{BlockBox, Edges, MapKind, Plot, block_box};
use interval::whole_line;
use refusal::Refusal;

// A block's box.
#[unsafe(no_mangle)]
pub extern "C" fn smyrilox_block_box(plot: Plot, kind: u8, x: Coordinate, y: Coordinate) -> Boxed
    ensures { result ≡ box_record (box_of plot (kind_of kind) (coordinate_from x) (coordinate_from y)) }
{
    block_box(plot, kind_of(kind), x.into(), y.into()).into()
}

// Every byte is a kind: 0 is quick, and any other precise. No `From`: `MapKind` is of `boxes`, which knows no such bytes.
fn kind_of(kind: u8) -> MapKind
    ensures { result ≡ kind_of kind }
{
    if kind == 0 {
        MapKind::Quick
    } else {
        MapKind::Precise
    }
}

impl From<Result<BlockBox, Refusal>> for Boxed {
    ghost from_gives = { λ a r. r ≡ box_record a };

    fn from(a: Result<BlockBox, Refusal>) -> Boxed {
        match a {
            Ok(found) => Boxed {
                refusal: 0,
                edges: found.edges,
                x: found.x,
                y: found.y,
            },
            Err(why) => {
                let line = whole_line();
                Boxed {
                    refusal: refusal_number(why),
                    edges: Edges {
                        left: line,
                        right: line,
                        bottom: line,
                        top: line,
                    },
                    x: line,
                    y: line,
                }
            }
        }
    }
}
