use crate::region::Region;
use crate::value_function::ValueFunction;
use boxes::CellBox;

/// Values a region by its stamp: the longer no question has met it, the less it is worth.
#[derive(Clone, Copy, PartialEq, Eq, Debug)]
pub struct Recency;

impl ValueFunction for Recency {
    ghost value = { λ _ region _. region.stamp };

    fn value(&self, region: Region, _area: CellBox) -> u32 {
        region.stamp()
    }
}
