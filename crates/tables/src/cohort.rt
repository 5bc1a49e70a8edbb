ghost use Rattle.std.specs.Prelude.{◌≡◌, length, take, IfOk};
ghost use Rattle.domain.specs.Cells.{count, holds};
ghost use Rattle.sources.specs.Answers.{answer_of, buffer_of};
ghost use Rattle.sources.specs.Collections.{collection_of};
ghost use Rattle.sources.specs.Selections.{Selected, selection};

use crate::table::Table;
use boxes::CellBox;
use domain::Refusal;
use sources::{Record, Source};

/// What a question brought: its answer, and what was charged for it.
#[derive(Clone, Copy, PartialEq, Eq, Debug)]
pub struct Cohort {
    /// How many records were answered.
    pub answer: Result<usize, Refusal>,
    /// One for each cell of the question's box.
    pub charge: u64,
}

/// Draws a cohort: puts one question to a fresh table of the records. The records answered stand in the first places of
/// the buffer, in the order of their numbers.
// a lent buffer and a count, and no `Vec`: the library has no heap
pub fn draw(records: &[Record], area: CellBox, out: &mut [Record]) -> Cohort
    ensures answer { result.answer
        ≡ answer_of (selection area.bounds (collection_of records.now)) (length out.old) }
    ensures after { out.new
        ≡ buffer_of (selection area.bounds (collection_of records.now)) out.old }
    ensures selected { IfOk result.answer (λ k.
        Selected area.bounds (collection_of records.now) (take k out.new)) }
    ensures charge { result.charge ≡ count (holds area.bounds) }
{
    let mut table = Table::new(records);
    let answer = table.query(area, out);
    Cohort {
        answer,
        charge: table.meter(),
    }
}
