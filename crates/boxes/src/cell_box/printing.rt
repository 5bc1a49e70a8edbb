ghost use Rattle.std.specs.Prelude.{◌≡◌, ◌<◌, Some};
ghost use Rattle.domain.specs.Calendar.{month_of};
ghost use Rattle.boxes.specs.Text.{box_text};

use crate::cell_box::CellBox;
use domain::{Bounds, YearMonth};
use std::fmt;

/// The box as the course writes it: its three ranges, the first from month to month, and its cells.
impl fmt::Display for CellBox {
    ghost output = { λ b. Some (box_text b.bounds) };

    fn fmt<W: fmt::Write>(&self, f: &mut fmt::Formatter<W>) -> fmt::Result {
        let Bounds {
            birth,
            service,
            band,
        } = self.bounds();
        let (first, last) = (month(birth.low), month(birth.high));
        let cells = self.cells();
        write!(
            f,
            "born {first}..{last} served {service} band {band}, {cells} cells"
        )
    }
}

/// The month of a birth rank in span.
fn month(rank: u16) -> YearMonth
    requires { rank < 1536 }
    ensures value { month_of rank ≡ Some result }
{
    YearMonth::of_rank(rank).unwrap()
}
