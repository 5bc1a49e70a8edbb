//! The three attributes of a member, the plain numbers of boxes over them, months of birth, and the refusals of every call.

#![tactic(auto)]

pub mod attributes;
pub mod calendar;
pub mod refusals;
pub mod rows;

pub use attributes::{Axis, Bounds, Cell, Span};
pub use calendar::YearMonth;
pub use refusals::Refusal;
pub use rows::HasBounds;
