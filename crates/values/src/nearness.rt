ghost use Rattle.std.specs.Prelude.{◌↔◌, ◌≡◌, ◌+◌, ◌≤◌};
ghost use Rattle.values.specs.Nearness.{NearnessExamples, SameSums, difference_of, distance_of, farthest, nearness_of, sum_of};
ghost use Rattle.values.specs.Regions.{plain_of};

use crate::region::Region;
use crate::value_function::ValueFunction;
use boxes::CellBox;
use domain::Span;

/// The greatest distance of two boxes: that of the first cell of the domain and the last.
const FARTHEST: u32 = 4538;

/// Values a region by how near it lies to the question: 4,538 less the distance of the two boxes.
#[derive(Clone, Copy, PartialEq, Eq, Debug)]
pub struct Nearness;

impl ValueFunction for Nearness {
    ghost value = { λ _ region area. nearness_of region.bounds area };

    fn value(&self, region: Region, area: CellBox) -> u32
        ensures value { result ≡ nearness_of (plain_of region).bounds area.bounds }
        ensures complement { result + distance_of (plain_of region).bounds area.bounds ≡ farthest }
        ensures nearest { (result ≡ farthest) ↔ SameSums (plain_of region).bounds area.bounds }
        ensures nearness_examples { NearnessExamples }
    {
        FARTHEST - distance(region.area(), area)
    }
}

/// The distance of two boxes: the differences along the attributes, added up.
fn distance(a: CellBox, b: CellBox) -> u32
    ensures value { result ≡ distance_of a.bounds b.bounds }
    ensures bound { result ≤ farthest }
{
    let (a, b) = (a.bounds(), b.bounds());
    difference(a.birth, b.birth) + difference(a.service, b.service) + difference(a.band, b.band)
}

/// How far apart two ranges lie: the difference of the sums of their ends, larger less smaller.
fn difference(a: Span, b: Span) -> u32
    ensures value { result ≡ difference_of a b }
{
    sum(a).abs_diff(sum(b))
}

/// The lower end and the upper end of a range, added up.
fn sum(span: Span) -> u32
    ensures value { result ≡ sum_of span }
{
    u32::from(span.low) + u32::from(span.high)
}
