#![tactic(auto)]
//! Pieces of functions, and how they are joined.

use domains::Index;
use narrow_kernels::{NarrowAffineMap, NarrowExtreme};

/// A read, and the map that is applied to its samples.
#[derive(Clone, Copy)]
pub struct NarrowPiece<'a> {
    pub stage: usize,
    pub row: &'a Index,
    pub col: &'a Index,
    pub map: NarrowAffineMap,
}

/// Two or three pieces, with the choices that join them. Of three, the first two are joined first.
#[derive(Clone, Copy)]
pub enum NarrowPieces<'a> {
    Two(NarrowPiece<'a>, NarrowExtreme, NarrowPiece<'a>),
    Three(NarrowPiece<'a>, NarrowExtreme, NarrowPiece<'a>, NarrowExtreme, NarrowPiece<'a>),
}
