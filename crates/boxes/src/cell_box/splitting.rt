ghost use Rattle.std.specs.Prelude.{◌≡◌, map, IfOk};
ghost use Rattle.boxes.specs.Cuts.{cut_order};
ghost use Rattle.boxes.specs.Pieces.{pieces_given, pieces_of};
ghost use Rattle.boxes.specs.Splits.{Remainder, cut_all_in, split_of, unbroken};

use crate::cell_box::CellBox;
use crate::cell_box::pieces::{Pieces, TooManyPieces};
use domain::{Bounds, HasBounds};

impl Pieces {
    /// Every piece cut by one region, in order.
    fn cut_by(&self, region: Bounds) -> Result<Pieces, TooManyPieces>
        ensures value { pieces_given result
            ≡ unbroken (cut_all_in cut_order (pieces_of self.now) region) }
    {
        let mut pieces = Pieces::new();
        for piece in self.as_slice() {
            piece.cut_into(region, &mut pieces)?;
        }
        Ok(pieces)
    }
}

impl CellBox {
    /// The split of a question by regions in place order: boxes of its cells that lie in no region. Refused where it is
    /// broken: more than 32 pieces stand after a region.
    pub fn split<R: HasBounds>(self, regions: &[R]) -> Result<Pieces, TooManyPieces>
        ensures value { pieces_given result ≡ split_of self.bounds (map R.bounds regions.now) }
        ensures remainder { IfOk result (λ ps.
            Remainder self.bounds (map R.bounds regions.now) (pieces_of ps)) }
    {
        let mut pieces = Pieces::of(self);
        for region in regions {
            pieces = pieces.cut_by(region.bounds())?;
        }
        Ok(pieces)
    }
}
