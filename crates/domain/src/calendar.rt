ghost use Rattle.std.specs.Prelude.{◌≡◌, IfSome, Some};
ghost use Rattle.domain.specs.Calendar.{rank_of, month_of};
ghost use Rattle.domain.specs.Text.{year_month_text};

use std::fmt;

/// A month of a year, counted from 1. Any two numbers make one; those from January 1900 to December 2027 have a rank.
#[derive(Clone, Copy, PartialEq, Eq, Debug)]
pub struct YearMonth {
    pub year: u16,
    pub month: u8,
}

impl YearMonth {
    /// The birth rank of the month: 0 for January 1900, 1,535 for December 2027.
    // a look-up that fails in one way, and no `TryFrom`
    pub fn rank(self) -> Option<u16>
        ensures value { result ≡ rank_of self }
        ensures back { IfSome result (λ n. month_of n ≡ Some self) }
    {
        if (1900..=2027).contains(&self.year) && (1..=12).contains(&self.month) {
            Some(12 * (self.year - 1900) + u16::from(self.month) - 1)
        } else {
            None
        }
    }

    /// The month of a birth rank.
    // a look-up that fails in one way, as `char::from_u32` is, and no `TryFrom`
    pub fn of_rank(rank: u16) -> Option<YearMonth>
        ensures value { result ≡ month_of rank }
        ensures back { IfSome result (λ m. rank_of m ≡ Some rank) }
    {
        if rank < 1536 {
            Some(YearMonth {
                year: 1900 + rank / 12,
                month: (rank % 12 + 1) as u8,
            })
        } else {
            None
        }
    }
}

/// The month as the course writes it: a year, a hyphen and a month of two digits at least.
impl fmt::Display for YearMonth {
    ghost output = { λ m. Some (year_month_text m) };

    #[tactic(auto, using(crate::proofs::TwoDigits::two_digits))]
    fn fmt<W: fmt::Write>(&self, f: &mut fmt::Formatter<W>) -> fmt::Result {
        let YearMonth { year, month } = *self;
        write!(f, "{year}-{month:02}")
    }
}
