ghost use Rattle.std.specs.Prelude.{◌↔◌, ◌≡◌, IsTrue};
ghost use Rattle.sources.specs.Records.{LawfulRecord, cell_of, inside, is_lawful_record};

use boxes::CellBox;
use domain::Cell;

/// A member of a scheme.
#[derive(Clone, Copy, PartialEq, Eq, Debug)]
pub struct Record {
    /// What tells the member from the others of a collection, from 1.
    pub number: u32,
    /// The rank of the month of birth, 0 to 1,535.
    pub birth: u16,
    /// The months of service, 0 to 719.
    pub service: u16,
    /// The pay band, 0 to 15.
    pub band: u16,
    /// The yearly pension.
    pub pension: u32,
}

impl Record {
    /// The blank record: zero in every field. No source has it, since numbers begin at 1.
    pub const BLANK: Record = Record {
        number: 0,
        birth: 0,
        service: 0,
        band: 0,
        pension: 0,
    };

    /// The cell of the record.
    // a part of it, and no `From`
    pub fn cell(self) -> Cell
        ensures value { result ≡ cell_of self }
    {
        Cell {
            birth: self.birth,
            service: self.service,
            band: self.band,
        }
    }

    /// Does the record lie in the box?
    pub fn lies_in(self, area: CellBox) -> bool
        ensures value { result ≡ inside area.bounds self }
    {
        area.contains(self.cell())
    }

    /// May a source have the record: is its number at least 1, and every attribute in its span?
    pub fn is_lawful(self) -> bool
        ensures value { result ≡ is_lawful_record self }
        ensures cases { IsTrue result ↔ LawfulRecord self }
    {
        1 <= self.number && self.lies_in(CellBox::whole())
    }
}
