//! Regions, and what they are worth to a question: value functions.

#![tactic(auto)]

pub mod nearness;
pub mod recency;
pub mod region;
pub mod value_function;

pub use nearness::Nearness;
pub use recency::Recency;
pub use region::{PlainRegion, Region};
pub use value_function::ValueFunction;
