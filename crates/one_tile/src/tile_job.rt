#![tactic(auto)]
//! What is requested: a tile of a job, by its layout, from supplied tiles.

ghost use Rattle.std.specs.Prelude.{◌≡◌, Some, slice_get};
ghost use Rattle.job.specs.Answers.{grid_of};
ghost use Rattle.job.specs.Kept.{pipeline_in};
ghost use Rattle.job.specs.Views.{stage_view};
ghost use Rattle.tile_sources.specs.KnownTiles.{AreWhole};

use domains::Grid;
use job::{Job, Stage};
use overlap_tiles::TileLayout;
use std::alloc::AllocError;
use tile_sources::{SuppliedTiles, TileSource};

/// A tile of a job that is to be computed: its layout, and the supplier of the tiles that it needs.
pub struct TileJob<'a, K: TileSource> {
    pub job: &'a Job,
    pub layout: &'a TileLayout<'a>,
    pub known: &'a K,
    ghost whole: { AreWhole (pipeline_in job.now) (K.given known.now) },
}

impl<'a, K: TileSource> Clone for TileJob<'a, K> {
    fn clone(&self) -> Result<TileJob<'a, K>, AllocError> {
        Ok(*self)
    }
}

impl<'a, K: TileSource> Copy for TileJob<'a, K> {}

impl<'a, K: TileSource> TileJob<'a, K> {
    // The tiles of a stored stage.
    pub(crate) fn view_supplied_tiles(&self, number: usize, stage: &Stage) -> SuppliedTiles<'a, K>
        requires { slice_get (pipeline_in self.now.job.now).stages number
            ≡ Some (stage_view stage.now) }
        ensures known { result.known.now ≡ self.now.known.now }
        ensures stage { result.stage ≡ number }
        ensures grid { result.grid ≡ grid_of (pipeline_in self.now.job.now) (stage_view stage.now) }
    {
        SuppliedTiles {
            known: self.known,
            stage: number,
            grid: Grid::new(*stage.domain(), self.job.sides()),
        }
    }
}
