ghost use Rattle.std.specs.Prelude.{◌≡◌, [], ◌∷◌, is_ok, IfOk, IsTrue};
ghost use Rattle.domain.specs.Attributes.{meet};
ghost use Rattle.boxes.specs.Cuts.{Complete, cut_of, cut_order, lower_of, narrowed, remnants, remnants_along, upper_of};
ghost use Rattle.boxes.specs.Pieces.{bounds_of, pieces_of};
ghost use Rattle.boxes.specs.Splits.{Appended, DividesInAnyOrder, Remainder};
ghost use Rattle.std.specs.Option.{option_to_list};

use crate::cell_box::CellBox;
use crate::cell_box::pieces::{Pieces, TooManyPieces};
use domain::{Axis, Bounds, Span};

/// The attributes in the order of cutting. No law of this crate rests on which comes first.
const CUT_ORDER: [Axis; 3] = [Axis::Birth, Axis::Service, Axis::Band];

/// The attributes in the order in which a box is cut.
pub fn cut_order() -> [Axis; 3]
    ensures value { result ≡ cut_order }
    ensures complete { Complete result }
    ensures divides_in_any_order { DividesInAnyOrder }
{
    CUT_ORDER
}

/// A piece and a box that cuts it: the two share a cell.
#[derive(Clone, Copy)]
struct Overlap {
    piece: CellBox,
    by: Bounds,
    ghost meets: { IsTrue (meet piece.bounds by) },
}

impl Overlap {
    /// The remnants below and above the box along one attribute. Either may be absent.
    fn cut_along(self, axis: Axis) -> (Option<CellBox>, Option<CellBox>)
        ensures first { bounds_of result.0 ≡ lower_of axis self.piece.bounds self.by }
        ensures second { bounds_of result.1 ≡ upper_of axis self.piece.bounds self.by }
    {
        let whole = self.piece.along(axis);
        let taken = self.by.along(axis);
        let lower = if whole.low < taken.low {
            Some(
                self.piece.with(
                    axis,
                    Span {
                        low: whole.low,
                        high: taken.low - 1,
                    },
                ),
            )
        } else {
            None
        };
        let upper = if taken.high < whole.high {
            Some(
                self.piece.with(
                    axis,
                    Span {
                        low: taken.high + 1,
                        high: whole.high,
                    },
                ),
            )
        } else {
            None
        };
        (lower, upper)
    }

    /// The piece narrowed to the box along one attribute.
    fn narrow(self, axis: Axis) -> Overlap
        ensures piece { result.piece.bounds ≡ narrowed axis self.piece.bounds self.by }
        ensures by { result.by ≡ self.by }
    {
        let whole = self.piece.along(axis);
        let taken = self.by.along(axis);
        let common = Span {
            low: whole.low.max(taken.low),
            high: whole.high.min(taken.high),
        };
        Overlap {
            piece: self.piece.with(axis, common),
            by: self.by,
        }
    }

    /// Cuts along one attribute: the remnants go to `out`, and what they leave of the piece is given back.
    fn cut_axis(self, axis: Axis, out: &mut Pieces) -> Result<Overlap, TooManyPieces>
        ensures after { Appended (pieces_of out.old) (remnants_along axis self.piece.bounds self.by)
            (pieces_of out.new) (is_ok result) }
        ensures ok { IfOk result (λ rest. (rest.piece.bounds ≡ narrowed axis self.piece.bounds self.by)
            × (rest.by ≡ self.by)) }
    {
        let (lower, upper) = self.cut_along(axis);
        push_remnant(out, lower)?;
        push_remnant(out, upper)?;
        Ok(self.narrow(axis))
    }

    /// Cuts along one attribute after another; the remnants go to `out`, in the order found.
    fn cut_axes(self, order: &[Axis], out: &mut Pieces) -> Result<(), TooManyPieces>
        ensures after { Appended (pieces_of out.old) (remnants order.now self.piece.bounds self.by)
            (pieces_of out.new) (is_ok result) }
    {
        let mut rest = self;
        for axis in order {
            rest = rest.cut_axis(*axis, out)?;
        }
        Ok(())
    }
}

/// Adds a remnant, if there is one.
fn push_remnant(out: &mut Pieces, remnant: Option<CellBox>) -> Result<(), TooManyPieces>
    ensures after { Appended (pieces_of out.old) (option_to_list (bounds_of remnant))
        (pieces_of out.new) (is_ok result) }
{
    match remnant {
        Some(piece) => out.push(piece),
        None => Ok(()),
    }
}

impl CellBox {
    /// Adds to `out` what `by` leaves of the box, in order; refused where `out` would have more than 32 pieces, and the
    /// first 32 then stand.
    pub(crate) fn cut_into(self, by: Bounds, out: &mut Pieces) -> Result<(), TooManyPieces>
        ensures after { Appended (pieces_of out.old) (cut_of self.bounds by)
            (pieces_of out.new) (is_ok result) }
    {
        if self.bounds.meets(by) {
            Overlap { piece: self, by }.cut_axes(&CUT_ORDER, out)
        } else {
            out.push(self)
        }
    }

    /// What `by` leaves of the box, in order: the box itself where the two share no cell.
    pub fn cut(self, by: Bounds) -> Pieces
        ensures value { pieces_of result ≡ cut_of self.bounds by }
        ensures remainder { Remainder self.bounds (by ∷ []) (pieces_of result) }
    {
        // there are six pieces at most, so there is room
        let mut pieces = Pieces::new();
        self.cut_into(by, &mut pieces).unwrap();
        pieces
    }
}
