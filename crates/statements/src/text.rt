ghost use Rattle.std.specs.Prelude.{Some};
ghost use Rattle.statements.specs.Text.{answer_text, members_text};

use sources::Record;
use std::fmt;

/// An answer as the course writes it: how many records there are and, if there are any, their numbers.
#[derive(Clone, Copy, PartialEq, Eq, Debug)]
pub struct Answer<'a> {
    /// The records that are answered, in the order in which they are written.
    pub records: &'a [Record],
}

impl fmt::Display for Answer<'_> {
    ghost output = { λ a. Some (answer_text a.records.now) };

    fn fmt<W: fmt::Write>(&self, f: &mut fmt::Formatter<W>) -> fmt::Result {
        if self.records.is_empty() {
            return write!(f, "answer 0");
        }
        let count = self.records.len();
        let numbers = Numbers {
            records: self.records,
        };
        write!(f, "answer {count}:{numbers}")
    }
}

/// The numbers of records in order, each after a space.
#[derive(Clone, Copy)]
struct Numbers<'a> {
    records: &'a [Record],
}

impl fmt::Display for Numbers<'_> {
    ghost output = { λ n. Some (members_text n.records.now) };

    fn fmt<W: fmt::Write>(&self, f: &mut fmt::Formatter<W>) -> fmt::Result {
        for record in self.records {
            write!(f, " {}", record.number)?;
        }
        Ok(())
    }
}
