#![tactic(auto)]
//! Stages that are computed whole, without tiles and independently of schedules, and their values on tiles.

ghost use Rattle.std.specs.Prelude.{◌≡◌, ℤ, List, length, map, All, IfSome, IfNone, IfOk};
ghost use Rattle.domains.specs.declared.area.Area.{Area};
ghost use Rattle.job.specs.Kept.{pipeline_in};
ghost use Rattle.tile_eval.specs.Raster.{stage_values, IsFunctionTile, IsTrueTile};
ghost use Rattle.whole_stages.specs.Known.{AreTrue, IsServed};

use crate::buffers::StageBuffers;
use domains::{Area, Grid};
use job::{Body, Job};
use std::alloc::{AllocError, Global};

/// Some stages of a job and all that they read, whole, each computed once.
#[derive(Drop)]
pub struct ComputedWholeStages<'a> {
    job: &'a Job,
    known: StageBuffers,
    ghost places: { length known.buffers.items ≡ length (pipeline_in job.now).stages },
    ghost right: { AreTrue (pipeline_in job.now) known.buffers.items },
}

impl<'a> ComputedWholeStages<'a> {
    /// The planes and functions among some stages, and what all of these stages read. Unknown numbers do not count.
    ///
    /// # Errors
    ///
    /// Fails only where memory is refused.
    pub fn from_job(
        alloc: Global,
        job: &'a Job,
        stages: &[usize],
    ) -> Result<ComputedWholeStages<'a>, AllocError>
        ensures job { IfOk result (λ found. found.job.now ≡ job.now) }
        ensures served { IfOk result
            (λ found. All (IsServed (pipeline_in job.now) found.known.buffers.items) stages.now) }
    {
        let mut known = StageBuffers::new(alloc, job.stages().len())?;
        for stage in stages {
            known.compute_stage_after_its_reads(alloc, job, *stage)?;
        }
        Ok(ComputedWholeStages { job, known })
    }

    /// The job whose stages these are.
    pub fn job(&self) -> &'a Job
        ensures { result.now ≡ self.now.job.now }
    {
        self.job
    }

    /// The values of all stages that are known.
    pub fn known_buffers(&self) -> &StageBuffers
        ensures known { result.now ≡ self.now.known }
        ensures right { AreTrue (pipeline_in self.now.job.now) result.now.buffers.items }
    {
        &self.known
    }

    /// The values of a plane or a function on its whole domain, row by row, as a copy. There are none of an accumulator, nor if
    /// no stage has this number.
    ///
    /// # Errors
    ///
    /// Fails only where memory is refused.
    pub fn copy_stage_values(&self, alloc: Global, stage: usize) -> Result<Vec<i32>, AllocError>
        requires { IsServed (pipeline_in self.now.job.now) self.now.known.buffers.items stage }
        ensures { IfOk result
            (λ values. values.items ≡ stage_values (pipeline_in self.now.job.now) stage) }
    {
        match self.known.borrow_buffer_of_stage(stage) {
            Some(whole) => whole.values.to_vec(alloc),
            None => Ok(Vec::new(alloc)),
        }
    }

    // The same without a copy.
    fn into_stage_values(self, alloc: Global, stage: usize) -> Vec<i32>
        requires { IsServed (pipeline_in self.job.now) self.known.buffers.items stage }
        ensures { result.items ≡ stage_values (pipeline_in self.entry.job.now) stage }
    {
        let mut known = self.known;
        match known.take_out_buffer_of_stage_if_known(stage) {
            Some(whole) => whole.into_stage_values(),
            None => Vec::new(alloc),
        }
    }

    /// The values of a function on its tile in this row and column of its grid, row by row, as a copy. There are none if it has
    /// no such tile, or no function has this number.
    ///
    /// # Errors
    ///
    /// Fails only where memory is refused.
    pub fn copy_tile_values(
        &self,
        alloc: Global,
        stage: usize,
        row: u32,
        col: u32,
    ) -> Result<Option<Vec<i32>>, AllocError>
        requires { IsServed (pipeline_in self.now.job.now) self.now.known.buffers.items stage }
        ensures some { IfOk result (λ found. IfSome found
            (λ values. IsTrueTile (pipeline_in self.now.job.now) stage row col values.items)) }
        ensures none { IfOk result (λ found. IfNone found ((values : List ℤ)
            → ¬ (IsTrueTile (pipeline_in self.now.job.now) stage row col values))) }
    {
        let Some(area) = find_tile_area_in_whole_function(self.job, stage, row, col) else {
            return Ok(None);
        };
        match self.known.borrow_buffer_of_stage(stage) {
            Some(whole) => Ok(Some(whole.copy_area_values(alloc, &area)?)),
            None => unreachable!(),
        }
    }
}

/// The area of a function's tile in this row and column of its grid; none if there is no such tile, or no such function.
pub fn find_tile_area_in_whole_function(job: &Job, stage: usize, row: u32, col: u32) -> Option<Area>
    ensures some { IfSome result (IsFunctionTile (pipeline_in job.now) stage row col) }
    ensures none { IfNone result
        ((area : Area) → ¬ (IsFunctionTile (pipeline_in job.now) stage row col area)) }
{
    let found = job.stage(stage)?;
    match found.body() {
        Body::Function(_) => Grid::new(*found.domain(), job.sides()).tile(row, col),
        Body::Plane(_) | Body::Accumulator(_) => None,
    }
}

/// The values of a plane or a function on its whole domain, row by row: without tiles, each stage that it reads is computed whole
/// before. There are none where no stage has this number, or an accumulator does.
///
/// # Errors
///
/// Fails only where memory is refused.
pub fn plain(alloc: Global, job: &Job, stage: usize) -> Result<Vec<i32>, AllocError>
    ensures { IfOk result (λ values. values.items ≡ stage_values (pipeline_in job.now) stage) }
{
    Ok(ComputedWholeStages::from_job(alloc, job, &[stage])?.into_stage_values(alloc, stage))
}

/// The values of several stages; what they read is computed once.
///
/// # Errors
///
/// Fails only where memory is refused.
pub fn compute_values_of_whole_stages(
    alloc: Global,
    job: &Job,
    stages: &[usize],
) -> Result<Vec<Vec<i32>>, AllocError>
    ensures { IfOk result (λ all. map (λ values. values.items) all.items
        ≡ map (stage_values (pipeline_in job.now)) stages.now) }
{
    let known = ComputedWholeStages::from_job(alloc, job, stages)?;
    let mut all = Vec::with_capacity(alloc, stages.len())?;
    for stage in stages {
        all.push(known.copy_stage_values(alloc, *stage)?)?;
    }
    Ok(all)
}
