ghost use Rattle.std.specs.Prelude.{◌≡◌, length, replicate};
ghost use Rattle.sources.specs.Answers.{answer_of, buffer_of};
ghost use Rattle.sources.specs.Records.{blank};
ghost use Rattle.sources.specs.Selections.{SelectionLaws, selection};

use crate::record::Record;
use boxes::CellBox;
use domain::Refusal;

/// Blanks every place of a buffer.
pub fn blank_all(out: &mut [Record])
    ensures after { out.new ≡ replicate (length out.old) blank }
{
    out.fill(Record::BLANK);
}

/// Copies the records that lie in a box to the first places of a buffer, in their order, and answers how many there
/// are. Where they outnumber the places it is refused, and every place is blank.
// a lent buffer and a count, and no `Vec`: the library has no heap
pub fn select(records: &[Record], area: CellBox, out: &mut [Record]) -> Result<usize, Refusal>
    ensures value { result ≡ answer_of (selection area.bounds records.now) (length out.old) }
    ensures after { out.new ≡ buffer_of (selection area.bounds records.now) out.old }
    ensures selection_laws { SelectionLaws }
{
    // counted by hand: a filter, and its next for each place of the buffer, took up to twice the time
    let mut count = 0;
    for record in records {
        if record.lies_in(area) {
            if count == out.len() {
                blank_all(out);
                return Err(Refusal::BufferTooShort);
            }
            out[count] = *record;
            count += 1;
        }
    }
    Ok(count)
}
