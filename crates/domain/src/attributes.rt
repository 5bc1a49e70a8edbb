ghost use Rattle.std.specs.Prelude.{◌↔◌, ◌≡◌, IsTrue, OnOk, Some};
ghost use Rattle.domain.specs.Attributes.{Lawful, all_in_order, all_in_span, in_order, in_span, limit_of, meet, refusal_of, shares, six_of, span_of, with_span};
ghost use Rattle.domain.specs.Cells.{ShareCell, holds, within};
ghost use Rattle.domain.specs.Text.{numbers_text};
ghost use Rattle.std.specs.Result.{result_err};

use crate::refusals::Refusal;
use std::fmt;

/// One of the three attributes of a member.
#[derive(Clone, Copy, PartialEq, Eq, Debug)]
pub enum Axis {
    /// The month of birth, as its rank: `YearMonth` in calendar.rt.
    Birth,
    /// The months of service.
    Service,
    /// The pay band.
    Band,
}

/// A closed range of one attribute.
#[derive(Clone, Copy, PartialEq, Eq, Debug)]
pub struct Span {
    pub low: u16,
    pub high: u16,
}

/// The six plain numbers of a box, as lists and tables hold them. Any six stand here; `check` says whether they make a
/// box.
#[derive(Clone, Copy, PartialEq, Eq, Debug)]
pub struct Bounds {
    pub birth: Span,
    pub service: Span,
    pub band: Span,
}

/// One choice of birth rank, service and band.
// not one type with `Bounds` over what it has of an attribute: they share no method, and two names say more than one
#[derive(Clone, Copy, PartialEq, Eq, Debug)]
pub struct Cell {
    pub birth: u16,
    pub service: u16,
    pub band: u16,
}

impl Axis {
    /// How many values the attribute has: they are 0 up to one below this.
    pub fn limit(self) -> u16
        ensures value { result ≡ limit_of self }
    {
        match self {
            Axis::Birth => 1536,
            Axis::Service => 720,
            Axis::Band => 16,
        }
    }
}

impl Span {
    /// Does the value lie in the range?
    fn contains(self, value: u16) -> bool
        ensures value { result ≡ within self value }
    {
        (self.low..=self.high).contains(&value)
    }

    /// Do the two ranges have a value in common?
    fn meets(self, other: Span) -> bool
        ensures value { result ≡ shares self other }
    {
        self.low.max(other.low) <= self.high.min(other.high)
    }

    /// Are both ends in the span of the attribute?
    fn is_in_span(self, axis: Axis) -> bool
        ensures value { result ≡ in_span (limit_of axis) self }
    {
        self.low < axis.limit() && self.high < axis.limit()
    }

    /// Is the lower end at or below the upper end?
    fn is_in_order(self) -> bool
        ensures value { result ≡ in_order self }
    {
        self.low <= self.high
    }
}

/// The range as the course writes it: its two ends, joined by two full stops.
impl fmt::Display for Span {
    ghost output = { λ s. Some (numbers_text s) };

    fn fmt<W: fmt::Write>(&self, f: &mut fmt::Formatter<W>) -> fmt::Result {
        write!(f, "{}..{}", self.low, self.high)
    }
}

/// Six plain numbers in the order of the attributes, each lower end before its upper end.
impl From<[u16; 6]> for Bounds {
    ghost from_gives = { λ six b. six_of b ≡ six };

    fn from(six: [u16; 6]) -> Bounds {
        let [a, b, c, d, e, f] = six;
        Bounds {
            birth: Span { low: a, high: b },
            service: Span { low: c, high: d },
            band: Span { low: e, high: f },
        }
    }
}

impl Bounds {
    /// The range along one attribute.
    pub fn along(self, axis: Axis) -> Span
        ensures value { result ≡ span_of axis self }
    {
        match axis {
            Axis::Birth => self.birth,
            Axis::Service => self.service,
            Axis::Band => self.band,
        }
    }

    /// The same numbers, with another range along one attribute.
    pub fn with(self, axis: Axis, span: Span) -> Bounds
        ensures value { result ≡ with_span axis span self }
    {
        match axis {
            Axis::Birth => Bounds {
                birth: span,
                ..self
            },
            Axis::Service => Bounds {
                service: span,
                ..self
            },
            Axis::Band => Bounds { band: span, ..self },
        }
    }

    /// Do the numbers make a box? Refused with `InvalidRange` where one of the six is out of span, and otherwise with
    /// `ReversedRange` where a lower end is above its upper end.
    pub fn check(self) -> Result<(), Refusal>
        ensures refused { result_err result ≡ refusal_of self }
        ensures ok { OnOk result (Lawful self) }
    {
        if !self.is_in_span() {
            Err(Refusal::InvalidRange)
        } else if !self.is_in_order() {
            Err(Refusal::ReversedRange)
        } else {
            Ok(())
        }
    }

    /// Does the cell lie in the three ranges?
    pub fn contains(self, cell: Cell) -> bool
        ensures value { result ≡ holds self cell }
    {
        self.birth.contains(cell.birth)
            && self.service.contains(cell.service)
            && self.band.contains(cell.band)
    }

    /// Is there a cell that lies in both?
    pub fn meets(self, other: Bounds) -> bool
        ensures value { result ≡ meet self other }
        ensures cases { IsTrue result ↔ ShareCell self other }
    {
        self.birth.meets(other.birth)
            && self.service.meets(other.service)
            && self.band.meets(other.band)
    }

    /// Is each of the six numbers in the span of its attribute?
    fn is_in_span(self) -> bool
        ensures value { result ≡ all_in_span self }
    {
        self.birth.is_in_span(Axis::Birth)
            && self.service.is_in_span(Axis::Service)
            && self.band.is_in_span(Axis::Band)
    }

    /// Is each lower end at or below its upper end?
    fn is_in_order(self) -> bool
        ensures value { result ≡ all_in_order self }
    {
        self.birth.is_in_order() && self.service.is_in_order() && self.band.is_in_order()
    }
}
