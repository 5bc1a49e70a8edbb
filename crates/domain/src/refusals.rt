ghost use Rattle.std.specs.Prelude.{◌≡◌};
ghost use Rattle.domain.specs.Refusals.{number_of};

use thiserror::Error;

/// Why a call says no.
#[derive(Clone, Copy, PartialEq, Eq, Debug, Error)]
pub enum Refusal {
    /// 9: a question line has more than 80 bytes.
    #[error("the question line has more than 80 bytes")]
    LineTooLong = 9,
    /// 10: a word where a keyword belongs is none of the three.
    #[error("the keyword is none of born, served and pay")]
    UnknownKeyword = 10,
    /// 11: a keyword comes a second time.
    #[error("the keyword comes a second time")]
    RepeatedKeyword = 11,
    /// 12: a range is absent, malformed or out of span, or one of a box's six numbers is out of span.
    #[error("a range is absent, malformed or out of span")]
    InvalidRange = 12,
    /// 13: a lower end is above its upper end.
    #[error("a lower end is above its upper end")]
    ReversedRange = 13,
    /// 14: the buffer has fewer places than the records asked for.
    #[error("the buffer has fewer places than the records asked for")]
    BufferTooShort = 14,
    /// 15: no region has the place given.
    #[error("no region has this place")]
    NoSuchRegion = 15,
    /// 16: the split that was to be planned is broken.
    #[error("the split is broken: more than 32 pieces stand after a region")]
    SplitTooLarge = 16,
    /// 17: the list given for a plan has fewer places than remainder boxes.
    #[error("the list has fewer places than remainder boxes")]
    ListTooShort = 17,
}

impl Refusal {
    /// The number by which the course knows the refusal.
    pub fn number(self) -> u8
        ensures value { result ≡ number_of self }
    {
        self as u8
    }
}
