ghost use Rattle.std.specs.Prelude.{◌≡◌, ℕ};
ghost use Rattle.domain.specs.declared.attributes.Bounds.{Bounds as Numbers};
ghost use Rattle.values.specs.Regions.{plain_of};
ghost use Rattle.values.specs.declared.region.PlainRegion.{PlainRegion as Plain};

use crate::region::Region;
use boxes::CellBox;

/// What a region is worth to a question. Where space is wanted, a cache gives up a region of least value.
///
/// To write a value function, say by the ghost member what it values, and prove that the call answers exactly this.
pub trait ValueFunction {
    /// The value of a region to a question about an area, by the plain numbers of both. It depends on these and on the
    /// settings of the value function itself, which no call changes.
    ghost value: { Self → Plain → Numbers → ℕ };

    /// The value of the region to a question about the area.
    fn value(&self, region: Region, area: CellBox) -> u32
        ensures value { result ≡ value self.now (plain_of region) area.bounds };
}
