//! Functions that take the lesser or the greater ones of two or three pieces, which are affine maps of reads. The pieces are found
//! in the function's formula alone, and a row is written from them in one pass.
//!
//! Words: narrow piece, narrow pieces.
#![tactic(auto)]

mod finding;
mod piece;
mod steps;
mod writing;

pub use finding::find_narrow_pieces;
pub use piece::{NarrowPiece, NarrowPieces};
pub use writing::write_narrow_pieces;
