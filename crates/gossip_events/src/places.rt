//! Tiles that lines name.

use sequences::Sequence;

/// A tile by the number of its job, its stage, and the row and the column in the stage's grid.
#[derive(Clone, Copy, Debug, PartialEq, Eq)]
pub struct TileName {
    pub job: u32,
    pub stage: u16,
    pub row: u32,
    pub col: u32,
}

/// Tiles in the order in which they were named.
pub type TileNames = Sequence<TileName>;
