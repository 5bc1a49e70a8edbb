ghost use Rattle.std.specs.Prelude.{◌↔◌, ◌≡◌, IsTrue};
ghost use Rattle.sources.specs.Collections.{Collection, follow_on, is_collection, may_follow};
ghost use Rattle.sources.specs.Selections.{LawfulRelation};

use crate::record::Record;

/// The most records of a collection.
pub const MAX_RECORDS: usize = 2048;

/// Do the records make a collection: are there at most 2,048, do their numbers rise strictly from at least 1, and are
/// all attributes in span?
pub fn is_collection(records: &[Record]) -> bool
    ensures value { result ≡ is_collection records.now }
    ensures cases { IsTrue result ↔ Collection records.now }
    ensures lawful { IsTrue result → LawfulRelation records.now }
{
    records.len() <= MAX_RECORDS && follow_on(records)
}

/// Are the records lawful, and do their numbers rise strictly?
fn follow_on(records: &[Record]) -> bool
    ensures value { result ≡ follow_on 0 records.now }
{
    let mut last = 0;
    for record in records {
        if !may_follow(last, *record) {
            return false;
        }
        last = record.number;
    }
    true
}

/// May the record come after one that has the number `last`: is it lawful, and its number above that?
fn may_follow(last: u32, next: Record) -> bool
    ensures value { result ≡ may_follow last next }
{
    last < next.number && next.is_lawful()
}
