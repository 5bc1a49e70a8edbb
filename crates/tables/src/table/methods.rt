ghost use Rattle.std.specs.Prelude.{◌≡◌, length};
ghost use Rattle.sources.proofs.Collecting.{collection_lawful};
ghost use Rattle.sources.specs.Collections.{collection_of};
ghost use Rattle.tables.specs.Steps.{TableSteps};

use crate::table::Table;
use boxes::CellBox;
use domain::Refusal;
use sources::{Meter, Record, Source, is_collection, select};

impl<'a> Table<'a> {
    /// A table of the records, if they make a collection, and otherwise of none. It has charged nothing.
    pub fn new(records: &'a [Record]) -> Table<'a>
        ensures records { result.records.now ≡ collection_of records.now }
        ensures meter { result.meter.reading ≡ 0 }
    {
        let records = if is_collection(records) { records } else { &[] };
        Table {
            records,
            meter: Meter::new(),
        }
    }

    /// How many records the table has.
    pub fn len(&self) -> usize
        ensures value { result ≡ length self.now.records.now }
    {
        self.records.len()
    }
}

/// The type keeps that the records make a collection, so they are lawful.
impl<'a> Source for Table<'a> {
    ghost relation = { λ t. t.records.now };

    ghost meter = { λ t. t.meter.reading };

    ghost lawful = { λ t. collection_lawful t.records.now t.collection };

    ghost steps = { TableSteps };

    // the form is the trait's
    fn query(&mut self, area: CellBox, out: &mut [Record]) -> Result<usize, Refusal> {
        self.meter.charge(area);
        select(self.records, area, out)
    }

    fn meter(&self) -> u64 {
        self.meter.reading()
    }
}
