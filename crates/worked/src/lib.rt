//! The worked examples of the course, as one proved fact over the definitions that the contracts use.

#![tactic(auto)]

ghost use Rattle.std.specs.Prelude.{◌≡◌};
ghost use Rattle.worked.specs.Examples.{WorkedExamples, last_question, last_region};

use domain::{Bounds, Span};

/// A question, and the region that is held when it is asked.
#[derive(Clone, Copy, PartialEq, Eq, Debug)]
pub struct WorkedSplit {
    pub question: Bounds,
    pub region: Bounds,
}

/// The worked examples hold. What is given is the last of them, for a program to work.
pub fn worked_examples() -> WorkedSplit
    ensures question { result.question ≡ last_question }
    ensures region { result.region ≡ last_region }
    ensures worked_examples { WorkedExamples }
{
    // field by field, and no `From` six numbers: the clauses say the box itself, not its list of numbers
    WorkedSplit {
        question: Bounds {
            birth: Span {
                low: 780,
                high: 959,
            },
            service: Span { low: 0, high: 240 },
            band: Span { low: 5, high: 8 },
        },
        region: Bounds {
            birth: Span {
                low: 720,
                high: 839,
            },
            service: Span {
                low: 120,
                high: 240,
            },
            band: Span { low: 5, high: 8 },
        },
    }
}
