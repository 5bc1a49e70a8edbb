//! Answers as the course writes them.

#![tactic(auto)]

pub mod text;

pub use text::Answer;
