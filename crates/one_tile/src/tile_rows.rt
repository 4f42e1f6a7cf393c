//! Tiles in memory, row by row.

/// The tiles in one row of a grid, each with its numbers row by row.
#[derive(Drop)]
pub struct TileRow {
    pub tiles: Vec<Vec<i32>>,
}

/// The tiles of one stage.
#[derive(Drop)]
pub struct StageTiles {
    pub rows: Vec<TileRow>,
}
