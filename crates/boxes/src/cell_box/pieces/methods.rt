ghost use Rattle.std.specs.Prelude.{◌≡◌, ◌<◌, ◌^◌, [], ◌∷◌, length, sum_by, is_ok, Some};
ghost use Rattle.boxes.specs.Pieces.{bounds_of, box_cells, bounds_of_each, pieces_of};
ghost use Rattle.boxes.specs.Plans.{plan_answer, plan_list};
ghost use Rattle.boxes.specs.Splits.{Appended};
ghost use Rattle.domain.specs.Cells.{total_cells};
ghost use Rattle.std.specs.List.{slice_get};

use crate::cell_box::CellBox;
use crate::cell_box::pieces::{MAX_PIECES, Pieces, TooManyPieces};
use domain::{Bounds, Refusal};

impl Pieces {
    /// No piece.
    pub(crate) fn new() -> Pieces
        ensures value { pieces_of result ≡ [] }
    {
        Pieces {
            boxes: [CellBox::whole(); MAX_PIECES],
            len: 0,
        }
    }

    /// One piece.
    pub(crate) fn of(piece: CellBox) -> Pieces
        ensures value { pieces_of result ≡ piece.bounds ∷ [] }
    {
        Pieces {
            boxes: [piece; MAX_PIECES],
            len: 1,
        }
    }

    /// One piece more; refused, with nothing changed, where 32 stand.
    pub(crate) fn push(&mut self, piece: CellBox) -> Result<(), TooManyPieces>
        ensures after { Appended (pieces_of self.old) (piece.bounds ∷ [])
            (pieces_of self.new) (is_ok result) }
    {
        if self.len == MAX_PIECES {
            return Err(TooManyPieces);
        }
        self.boxes[self.len] = piece;
        self.len += 1;
        Ok(())
    }

    /// The pieces, in order.
    pub fn as_slice(&self) -> &[CellBox]
        ensures value { bounds_of_each result.now ≡ pieces_of self.now }
    {
        &self.boxes[..self.len]
    }

    /// How many pieces there are.
    pub fn len(&self) -> usize
        ensures value { result ≡ length (pieces_of self.now) }
    {
        self.as_slice().len()
    }

    /// The piece at a place, counted from 0.
    pub fn get(&self, place: usize) -> Option<CellBox>
        ensures value { bounds_of result ≡ slice_get (pieces_of self.now) place }
    {
        self.as_slice().get(place).copied()
    }

    /// The cells of the pieces, added up.
    pub fn cells(&self) -> u32
        ensures value { result ≡ total_cells (pieces_of self.now) }
    {
        total(self.as_slice())
    }

    /// Writes the pieces into the first places of a list and answers how many there are; refused, with nothing written,
    /// where the list has fewer places.
    // a lent list and a count, and no `Vec`: the library has no heap
    #[tactic(auto, using(crate::proofs::Places::plan_written, crate::proofs::Places::written_more))]
    pub fn write_to(&self, list: &mut [Bounds]) -> Result<usize, Refusal>
        ensures value { result ≡ plan_answer (Some (pieces_of self.now)) (length list.old) }
        ensures after { list.new ≡ plan_list (Some (pieces_of self.now)) list.old }
    {
        let pieces = self.as_slice();
        if list.len() < pieces.len() {
            return Err(Refusal::ListTooShort);
        }
        for (place, piece) in pieces.iter().enumerate() {
            list[place] = piece.bounds;
        }
        Ok(pieces.len())
    }
}

/// The cells of some boxes, added up.
fn total(boxes: &[CellBox]) -> u32
    requires { sum_by box_cells boxes.now < 2 ^ 32 }
    ensures value { result ≡ sum_by box_cells boxes.now }
{
    boxes.iter().map(|area| area.cells()).sum()
}
