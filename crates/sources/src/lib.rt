//! Records, what a source of them is, and what sources are made of: collections, selections and meters.

#![tactic(auto)]

pub mod collections;
pub mod metering;
pub mod record;
pub mod selecting;
pub mod source;

pub use collections::is_collection;
pub use metering::Meter;
pub use record::Record;
pub use selecting::{blank_all, select};
pub use source::Source;
