//! Boxes over the three attributes of a member: making, measuring, cutting and splitting them.

#![tactic(auto)]

pub mod cell_box;

pub use cell_box::CellBox;
pub use cell_box::cutting::cut_order;
pub use cell_box::pieces::{Pieces, TooManyPieces};
