ghost use Rattle.std.specs.Prelude.{◌↔◌, ◌≡◌, ◌≤◌, IfOk, IsOk, IsTrue};
ghost use Rattle.domain.specs.Attributes.{Lawful, LawfulSpan, cells_of, limit_of, meet, refusal_of, span_of, whole_domain, width_of, with_span};
ghost use Rattle.domain.specs.Cells.{ShareCell, count, holds};
ghost use Rattle.std.specs.Result.{result_err};

use domain::{Axis, Bounds, Cell, Refusal, Span};

pub mod cutting;
pub mod pieces;
pub mod planning;
pub mod printing;
pub mod splitting;

/// A box: a closed range in each attribute, every lower end at or below its upper end and both in the span of the
/// attribute.
// a ghost field, and no `impl Model`: what holds boxes rests on their lawfulness, which a model would keep from it
#[derive(Clone, Copy, PartialEq, Eq, Debug)]
pub struct CellBox {
    bounds: Bounds,
    ghost ok: { Lawful bounds },
}

impl CellBox {
    /// The box of six numbers, or why they make none.
    // a constructor that may refuse, and no `TryFrom`: the trait would say these three clauses by one relation
    pub fn new(bounds: Bounds) -> Result<CellBox, Refusal>
        ensures refused { result_err result ≡ refusal_of bounds }
        ensures ok { IfOk result (λ b. b.bounds ≡ bounds) }
        ensures succeeds { Lawful bounds → IsOk result }
    {
        bounds.check()?;
        Ok(CellBox { bounds })
    }

    /// The whole domain.
    pub fn whole() -> CellBox
        ensures value { result.bounds ≡ whole_domain }
    {
        CellBox {
            bounds: Bounds {
                birth: Span { low: 0, high: 1535 },
                service: Span { low: 0, high: 719 },
                band: Span { low: 0, high: 15 },
            },
        }
    }

    /// The six numbers of the box.
    // what it is made of, and no `From`: the call has the name by which a row of anything is read, `HasBounds::bounds`
    pub fn bounds(self) -> Bounds
        ensures value { result ≡ self.bounds }
    {
        // by a pattern, since the must-fail edit of this line needs a text that stands once
        let CellBox { bounds } = self;
        bounds
    }

    /// How many cells the box has.
    pub fn cells(self) -> u32
        ensures value { result ≡ cells_of self.bounds }
        ensures count { result ≡ count (holds self.bounds) }
    {
        width(self.bounds.birth) * width(self.bounds.service) * width(self.bounds.band)
    }

    /// Does the cell lie in the box?
    pub fn contains(self, cell: Cell) -> bool
        ensures value { result ≡ holds self.bounds cell }
    {
        self.bounds.contains(cell)
    }

    /// Do the two boxes share a cell?
    pub fn meets(self, other: CellBox) -> bool
        ensures value { result ≡ meet self.bounds other.bounds }
        ensures cases { IsTrue result ↔ ShareCell self.bounds other.bounds }
    {
        self.bounds.meets(other.bounds)
    }

    /// The range along one attribute.
    fn along(self, axis: Axis) -> Span
        ensures value { result ≡ span_of axis self.bounds }
        ensures lawful { LawfulSpan (limit_of axis) result }
    {
        self.bounds.along(axis)
    }

    /// The box with another range along one attribute.
    fn with(self, axis: Axis, span: Span) -> CellBox
        requires { LawfulSpan (limit_of axis) span }
        ensures value { result.bounds ≡ with_span axis span self.bounds }
    {
        CellBox {
            bounds: self.bounds.with(axis, span),
        }
    }
}

/// How many values the range has.
fn width(span: Span) -> u32
    requires { span.low ≤ span.high }
    ensures value { result ≡ width_of span }
{
    u32::from(span.high) + 1 - u32::from(span.low)
}
