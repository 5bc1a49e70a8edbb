ghost use Rattle.std.specs.Prelude.{IsTrue};
ghost use Rattle.sources.specs.Collections.{is_collection};

use sources::{Meter, Record};

pub mod methods;

/// A source that has the records of a lent list, if they make a collection, and otherwise none. It answers in the order
/// of their numbers.
// a ghost field, and no `impl Model`: `lawful` of its `impl Source` rests on the field
#[derive(Drop)]
pub struct Table<'a> {
    records: &'a [Record],
    meter: Meter,
    ghost collection: { IsTrue (is_collection records.now) },
}
