ghost use Rattle.std.specs.Prelude.{◌≡◌, map, length};
ghost use Rattle.boxes.specs.Plans.{plan_answer, plan_list};
ghost use Rattle.boxes.specs.Splits.{split_of};
ghost use Rattle.domain.specs.declared.refusals.Refusal.TheVariants.{SplitTooLarge};

use crate::cell_box::CellBox;
use crate::cell_box::pieces::TooManyPieces;
use domain::{Bounds, HasBounds, Refusal};

impl From<TooManyPieces> for Refusal {
    ghost from_gives = { λ _ r. r ≡ SplitTooLarge };

    fn from(_: TooManyPieces) -> Refusal {
        Refusal::SplitTooLarge
    }
}

impl CellBox {
    /// Writes the remainder boxes of a question into the first places of a list and answers how many there are.
    // a lent list and a count, and no `Vec`: the library has no heap
    pub fn plan<R: HasBounds>(self, regions: &[R], list: &mut [Bounds]) -> Result<usize, Refusal>
        ensures value { result
            ≡ plan_answer (split_of self.bounds (map R.bounds regions.now)) (length list.old) }
        ensures after { list.new
            ≡ plan_list (split_of self.bounds (map R.bounds regions.now)) list.old }
    {
        self.split(regions)?.write_to(list)
    }
}
