ghost use Rattle.std.specs.Prelude.{◌≡◌};
ghost use Rattle.domain.specs.Attributes.{cells_of};
ghost use Rattle.sources.specs.Meters.{raised_by};

use boxes::CellBox;

/// What a source has charged: a number of 64 bits that rises by the cells of every question, and stops at its end.
// no `impl Model`: a `Copy` struct that holds one with a model is not copied where it is passed and used again
#[derive(Clone, Copy, PartialEq, Eq, Debug)]
pub struct Meter {
    reading: u64,
}

impl Meter {
    /// A meter that has charged nothing.
    pub fn new() -> Meter
        ensures value { result.reading ≡ 0 }
    {
        Meter { reading: 0 }
    }

    /// Charges the cells of a box.
    pub fn charge(&mut self, area: CellBox)
        ensures after { self.new.reading ≡ raised_by self.old.reading (cells_of area.bounds) }
    {
        self.reading = self.reading.saturating_add(u64::from(area.cells()));
    }

    /// What has been charged.
    pub fn reading(&self) -> u64
        ensures value { result ≡ self.now.reading }
    {
        // by a pattern, since the must-fail edit of this line needs a text that stands once
        let Meter { reading } = self;
        *reading
    }
}
