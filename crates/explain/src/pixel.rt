// The pixel that is asked about.
ghost use Rattle.std.specs.Prelude.{◌≡◌};
ghost use Rattle.explain.specs.Explained.{pixel_inside};
ghost use Rattle.explain.specs.Reasons.{covers_at};

use decide::Chosen;
use queue::Block;

// By its column, and its row from the top.
#[derive(Clone, Copy)]
pub(crate) struct Pixel {
    pub column: u32,
    pub row: u32,
}

impl Pixel {
    // Whether it is one of the picture's.
    pub(crate) fn is_inside(self, p: Chosen) -> bool
        ensures { result ≡ pixel_inside p self.column self.row }
    {
        (self.column < p.width) & (self.row < p.height)
    }

    // Whether a block covers it.
    pub(crate) fn is_covered(self, p: Chosen, b: Block) -> bool
        ensures { result ≡ covers_at p self.column self.row b }
    {
        let r = image::rectangle(b.x, b.y, p.width, p.height);
        let column = self.column as usize;
        let row = self.row as usize;
        let across = (r.left <= column) & (column < r.right);
        let down = (r.top <= row) & (row < r.bottom);
        across & down
    }
}
