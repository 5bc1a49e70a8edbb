ghost use Rattle.std.specs.Prelude.{◌≡◌, ℕ, List, Result as Outcome};
ghost use Rattle.domain.specs.Attributes.{cells_of};
ghost use Rattle.domain.specs.declared.attributes.Bounds.{Bounds as Numbers};
ghost use Rattle.domain.specs.declared.refusals.Refusal.{Refusal as Reason};
ghost use Rattle.sources.specs.Answers.{Answers};
ghost use Rattle.sources.specs.Meters.{raised_by};
ghost use Rattle.sources.specs.Selections.{LawfulRelation};
ghost use Rattle.sources.specs.declared.record.Record.{Record as Member};

use crate::record::Record;
use boxes::CellBox;
use domain::Refusal;

/// Anything that answers questions about a list of records, and charges for the cells that it consults.
///
/// Whoever builds on sources, as a cache does, is proved from this page alone and holds for every source. To write one,
/// give the four ghost members and the two calls, and prove the clauses. They are promised in every state of the type:
/// what has to be true of a state belongs in a ghost field of the type. (The invariant of an `impl Model` would not do,
/// since `lawful` is not given it.) A source over another one says there what ties the two, by the ghost members of its
/// parameter, as in `struct Over<S: Source> { below: S, ghost ok: { .. S.relation below .. } }`.
pub trait Source {
    /// The records that the source has. No call changes them.
    ghost relation: { Self → List Member };

    /// What the source has charged.
    ghost meter: { Self → ℕ };

    /// A source has lawful records: none twice, every number at least 1, every attribute in its span.
    ghost lawful: { (s : Self) → LawfulRelation (relation s) };

    /// All that a question does: the state and the area, the buffer before, the answer, the buffer after, the state
    /// after. To generic code it is opaque, so the order of an answer is free there, and nothing else is. Over a known
    /// source everything can be told. Say here whatever the clauses of `query` leave open.
    ghost steps: { Self → Numbers → List Member → Outcome ℕ Reason → List Member → Self → Type 0 };

    /// Puts a question: which records lie in the area? Let k be their number. If the buffer has k places or more, the
    /// answer is k, the first k places hold these records, each once, and the others are untouched. If it has fewer,
    /// the question is refused with `BufferTooShort`, and every place is blank. Either way the meter rises by the cells
    /// of the area, and stops at its end.
    // a lent buffer and a count, and no `Vec`: the library has no heap; no struct of area and buffer, which each call
    // would make and each source take apart
    fn query(&mut self, area: CellBox, out: &mut [Record]) -> Result<usize, Refusal>
        ensures answers { Answers (relation self.old) area.bounds out.old result out.new }
        ensures charge { meter self.new ≡ raised_by (meter self.old) (cells_of area.bounds) }
        ensures same_relation { relation self.new ≡ relation self.old }
        ensures steps { steps self.old area.bounds out.old result out.new self.new };

    /// Reads the meter.
    fn meter(&self) -> u64
        ensures value { result ≡ meter self.now };
}
