#![tactic(auto)]
//! What is made available for a tile before it is computed.

ghost use Rattle.std.specs.Prelude.{◌≡◌, ℕ, IfOk};
ghost use Rattle.job.specs.Kept.{pipeline_in};
ghost use Rattle.overlap_tiles.specs.Plans.{IsTileLayout};
ghost use Rattle.one_tile.specs.Prepared.{IsPreparedOn};
ghost use Rattle.one_tile.specs.Runs.{NeedsGiven, IsSomeLayout};
ghost use Rattle.tile_sources.specs.Wide.{AreWide};

use crate::memory::{TileScratch, take_and_grow_tile_operand_vector};
use crate::operands::find_greatest_tile_operand_capacity;
use crate::scratch_view::TileScratchView;
use crate::tile_job::TileJob;
use std::alloc::{AllocError, Global};
use std::mem;
use tile_sources::{ThreePlaneBuffers, TileSource, find_plane_areas_to_convert};

impl<K: TileSource> TileJob<'_, K> {
    /// Computes the boxes of the inlined functions that the tile's layout names, so that all reads of the tile are available.
    /// Samples that are read often are converted to int32 first. All buffers are grown before the first value is computed.
    ///
    /// # Errors
    ///
    /// Fails only where memory is refused.
    pub fn compute_values_of_inlined_boxes<'s>(
        &self,
        alloc: Global,
        scratch: &'s mut TileScratch,
    ) -> Result<TileScratchView<'s>, AllocError>
        requires layout { IsSomeLayout (pipeline_in self.now.job.now) self.now.layout.now }
        requires needs { NeedsGiven (K.given self.now.known.now) self.now.layout.now.needs }
        ensures prepared { IfOk result (λ boxes. (g i j : ℕ)
            → IsTileLayout (pipeline_in self.now.job.now) self.now.layout.now.inlining g i j
            self.now.layout.now
            → IsPreparedOn (pipeline_in self.now.job.now) self.now.layout.now
            (K.given self.now.known.now) boxes g i j) }
        ensures wide { IfOk result
            (λ boxes. AreWide (pipeline_in self.now.job.now).picture boxes.planes.now) }
    {
        let room = find_greatest_tile_operand_capacity(self.job, self.layout.steps()).ok_or(
            AllocError,
        )?;
        let areas = find_plane_areas_to_convert(self.job, self.layout.steps());
        let mut operands = take_and_grow_tile_operand_vector(
            alloc,
            &mut scratch.operands_of_steps,
            room,
        )?;
        scratch.boxes.grow(self.layout.scratch())?;
        scratch.planes.grow(&areas)?;
        scratch.planes.convert_planes(self.job.picture(), &areas);
        // the converted planes are read while the memory of the boxes is written
        let planes = mem::replace(&mut scratch.planes, ThreePlaneBuffers::new(alloc));
        self.compute_inlined_steps(&planes, &mut scratch.boxes, &mut operands[..room]);
        scratch.planes = planes;
        scratch.operands_of_steps = operands;
        Ok(TileScratchView::from_numbers(scratch.boxes.as_slice(), &scratch.planes))
    }
}
