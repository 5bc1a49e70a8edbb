ghost use Rattle.std.specs.Prelude.{◌≡◌, None, MatchResult};
ghost use Rattle.boxes.specs.Splits.{split_of};
ghost use Rattle.exercise.specs.Statements.{Stated};
ghost use Rattle.domain.specs.declared.refusals.Refusal.TheVariants.{SplitTooLarge};

use boxes::{CellBox, Pieces};
use domain::{Bounds, Refusal};

/// What a question costs where some regions are held: the remainder boxes, their cells, and the question's other cells.
#[derive(Clone, Copy)]
pub struct Statement {
    pub pieces: Pieces,
    pub charge: u32,
    pub saved: u32,
}

/// The statement of a question; refused where its split is broken.
pub fn state(question: CellBox, regions: &[Bounds]) -> Result<Statement, Refusal>
    ensures cases { MatchResult result (λ s. Stated question.bounds regions.now s)
        (λ e. (split_of question.bounds regions.now ≡ None) × (e ≡ SplitTooLarge)) }
{
    let pieces = question.split(regions)?;
    let charge = pieces.cells();
    let saved = question.cells() - charge;
    Ok(Statement {
        pieces,
        charge,
        saved,
    })
}
