ghost use Rattle.std.specs.Prelude.{◌≡◌, ◌≤◌, length};
ghost use Rattle.boxes.specs.Splits.{max_pieces};

use crate::cell_box::CellBox;
use thiserror::Error;

pub mod methods;

/// The most pieces that may stand after a region.
pub const MAX_PIECES: usize = 32;

/// The pieces that a cut or a split leaves: at most 32 boxes in order. The first `len` places are in use.
// an array with its length, and no `ArrayVec` of the kit: pieces are fixed memory and `Copy`, which that is not
#[derive(Clone, Copy)]
pub struct Pieces {
    boxes: [CellBox; MAX_PIECES],
    len: usize,
    ghost places: { length boxes ≡ max_pieces },
    ghost fits: { len ≤ max_pieces },
}

/// There is no room for more than 32 pieces.
#[derive(Clone, Copy, PartialEq, Eq, Debug, Error)]
#[error("there is no room for more than 32 pieces")]
pub struct TooManyPieces;
