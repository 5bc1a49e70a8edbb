//! The table: a source that reads a lent list of records.

#![tactic(auto)]

pub mod cohort;
pub mod table;

pub use cohort::{Cohort, draw};
pub use table::Table;
