#![tactic(auto)]
//! Sources of supplied tiles.

ghost use Rattle.std.specs.Prelude.{◌≡◌};
ghost use Rattle.std.specs.Option.{option_map};
ghost use Rattle.tile_sources.specs.KnownTiles.{KnownTiles};

/// Supplies tiles of stages that were computed before.
pub trait TileSource {
    /// Of a stage, and of the row and the column of a tile in its grid, the numbers of the tile, if they are supplied.
    ghost given: { Self → KnownTiles };

    /// The numbers of a tile, row by row, if they are supplied.
    fn borrow_tile(&self, stage: usize, row: u32, col: u32) -> Option<&[i32]>
        ensures { option_map (λ numbers. numbers.now) result ≡ given self.now stage row col };
}
