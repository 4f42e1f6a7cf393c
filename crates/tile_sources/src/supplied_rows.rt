#![tactic(auto)]
//! Rows of stages whose tiles are supplied.

ghost use Rattle.std.specs.Prelude.{◌≡◌, ◌≤◌, ◌<◌, ◌+ℤ◌, pos, length};
ghost use Rattle.job.specs.Kept.{pipeline_in};
ghost use Rattle.tile_eval.specs.Rows.{EachPlace, at};
ghost use Rattle.tile_sources.specs.KnownTiles.{given_at, IsGivenLine};

use crate::supplied_tiles::SuppliedTiles;
use crate::tile_source::TileSource;
use domains::Grid;
use job::Job;

/// The numbers that are supplied of a stage along a row of its domain, from a column on, whatever they are. They end with the
/// tile in which the first point lies, and are at most `most`.
pub fn borrow_supplied_row_up_to_tile_end<'a, K: TileSource>(
    known: &'a K,
    job: &Job,
    stage: usize,
    row: i32,
    first: i32,
    most: usize,
) -> &'a [i32]
    requires some { 0 < most }
    requires given { IsGivenLine (pipeline_in job.now) (K.given known.now) stage row first most }
    ensures some { 0 < length result.now }
    ensures most { length result.now ≤ most }
    ensures numbers { EachPlace (length result.now) (λ k. at result.now k
        ≡ given_at (pipeline_in job.now) (K.given known.now) stage row (first +ℤ pos k)) }
{
    let Some(domain) = job.domain(stage) else {
        unreachable!();
    };
    let tiles = SuppliedTiles {
        known,
        stage,
        grid: Grid::new(domain, job.sides()),
    };
    tiles.borrow_row_up_to_tile_end(row, first, most)
}
