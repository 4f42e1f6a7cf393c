#![tactic(auto)]
//! Tiles of all functions in memory.

use one_tile::StageTiles;
use tile_sources::TileSource;

/// The tiles of a job's functions, each function's at the place of its number; of functions that are not stored there are none.
#[derive(Drop)]
pub struct StoredTiles {
    pub(crate) stages: Vec<StageTiles>,
}

impl TileSource for StoredTiles {
    ghost use Rattle.tile_run.specs.Stored.{stored_tiles};

    ghost given = { λ stored. stored_tiles stored.stages.items };

    fn borrow_tile(&self, stage: usize, row: u32, col: u32) -> Option<&[i32]> {
        let tiles = self.stages.get(stage)?;
        let row = tiles.rows.get(row as usize)?;
        let numbers = row.tiles.get(col as usize)?;
        Some(numbers.as_slice())
    }
}
