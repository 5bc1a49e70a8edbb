ghost use Rattle.std.specs.Prelude.{◌≡◌};
ghost use Rattle.values.specs.Regions.{plain_of, region_of};

use boxes::CellBox;
use domain::{Bounds, HasBounds};

/// The plain numbers of a region, as lists and tables hold them.
// not one type with `Region` over the type of the box: tables hold plain numbers, any there are, in open fields; those of
// a region are closed
#[derive(Clone, Copy, PartialEq, Eq, Debug)]
pub struct PlainRegion {
    pub bounds: Bounds,
    /// The number of the last question that met the region.
    pub stamp: u32,
    /// How many records lie in the region.
    pub count: usize,
}

impl HasBounds for PlainRegion {
    ghost bounds = { λ r. r.bounds };

    fn bounds(&self) -> Bounds {
        self.bounds
    }
}

/// A region: a box that is held, its stamp and its number of records. It is made when it is wanted; what is kept are its
/// plain numbers.
// no `impl Model`: the model of a `Copy` type has an inverse, and a box is not made back from any six numbers
#[derive(Clone, Copy, PartialEq, Eq, Debug)]
pub struct Region {
    area: CellBox,
    stamp: u32,
    count: usize,
}

impl Region {
    /// The region of a box, a stamp and a number of records.
    pub fn new(area: CellBox, stamp: u32, count: usize) -> Region
        ensures value { plain_of result ≡ region_of area.bounds stamp count }
    {
        Region { area, stamp, count }
    }

    /// Its box.
    pub fn area(self) -> CellBox
        ensures value { result.bounds ≡ (plain_of self).bounds }
    {
        self.area
    }

    /// The number of the last question that met it.
    pub fn stamp(self) -> u32
        ensures value { result ≡ (plain_of self).stamp }
    {
        self.stamp
    }

    /// How many records lie in it.
    pub fn count(self) -> usize
        ensures value { result ≡ (plain_of self).count }
    {
        self.count
    }
}

/// The plain numbers of a region.
impl From<Region> for PlainRegion {
    ghost from_gives = { λ r p. p ≡ plain_of r };

    fn from(region: Region) -> PlainRegion {
        PlainRegion {
            bounds: region.area.bounds(),
            stamp: region.stamp,
            count: region.count,
        }
    }
}
