#![tactic(auto)]
//! Buffers stages, each after those that it reads.

ghost use Rattle.std.specs.Prelude.{◌≡◌, replicate, length, All, None, IfOk, OnOk};
ghost use Rattle.job.specs.Kept.{pipeline_in};
ghost use Rattle.tile_eval.specs.Raster.{stage_values};
ghost use Rattle.whole_stages.specs.Known.{AreTrue, IsServed};
ghost use Rattle.whole_stages.specs.inside.Kept.{IsKept, HasInputs, KnowsMore};

use crate::buffers::{StageBuffer, StageBuffers};
use crate::functions::evaluate_whole_function;
use crate::planes::convert_whole_plane_of_picture;
use job::{Body, Job, StageKind};
use std::alloc::{AllocError, Global};

impl StageBuffers {
    /// `count` stages of which none is known.
    pub fn new(alloc: Global, count: usize) -> Result<StageBuffers, AllocError>
        ensures { IfOk result (λ known. known.buffers.items ≡ replicate count None) }
    {
        let mut buffers = Vec::new(alloc);
        for _ in 0..count {
            buffers.push(None)?;
        }
        Ok(StageBuffers { buffers })
    }

    /// Computes a whole stage, if it is not known, after what it reads; for an accumulator only what it reads.
    #[cycle(compute_stage_after_its_reads)]
    pub(crate) fn compute_stage_after_its_reads(
        &mut self,
        alloc: Global,
        job: &Job,
        stage: usize,
    ) -> Result<(), AllocError>
        requires places { length self.old.buffers.items ≡ length (pipeline_in job.now).stages }
        requires right { AreTrue (pipeline_in job.now) self.old.buffers.items }
        ensures places { OnOk result
            (length self.new.buffers.items ≡ length (pipeline_in job.now).stages) }
        ensures right { OnOk result (AreTrue (pipeline_in job.now) self.new.buffers.items) }
        ensures more { OnOk result (KnowsMore self.old.buffers.items self.new.buffers.items) }
        ensures served { OnOk result (IsServed (pipeline_in job.now) self.new.buffers.items stage) }
    {
        if self.borrow_buffer_of_stage(stage).is_some() {
            return Ok(());
        }
        self.compute_stages_that_stage_reads(alloc, job, stage)?;
        if let Some(whole) = self.compute_stage_buffer(alloc, job, stage)? {
            self.insert_buffer(stage, whole);
        }
        Ok(())
    }

    // All that a stage reads.
    #[cycle(compute_stage_after_its_reads)]
    fn compute_stages_that_stage_reads(
        &mut self,
        alloc: Global,
        job: &Job,
        stage: usize,
    ) -> Result<(), AllocError>
        requires places { length self.old.buffers.items ≡ length (pipeline_in job.now).stages }
        requires right { AreTrue (pipeline_in job.now) self.old.buffers.items }
        ensures places { OnOk result
            (length self.new.buffers.items ≡ length (pipeline_in job.now).stages) }
        ensures right { OnOk result (AreTrue (pipeline_in job.now) self.new.buffers.items) }
        ensures more { OnOk result (KnowsMore self.old.buffers.items self.new.buffers.items) }
        ensures inputs { OnOk result
            (HasInputs (pipeline_in job.now) self.new.buffers.items stage) }
    {
        let Some(reads) = job.reads(stage) else {
            return Ok(());
        };
        for read in reads {
            self.compute_stage_after_its_reads(alloc, job, read.stage())?;
        }
        Ok(())
    }

    // What is kept of the stage of this number: its values on its domain, if it has any.
    fn compute_stage_buffer(
        &self,
        alloc: Global,
        job: &Job,
        number: usize,
    ) -> Result<Option<StageBuffer>, AllocError>
        requires right { AreTrue (pipeline_in job.now) self.now.buffers.items }
        requires inputs { HasInputs (pipeline_in job.now) self.now.buffers.items number }
        ensures { IfOk result (λ kept. IsKept (pipeline_in job.now) number kept) }
    {
        match job.stage(number) {
            Some(stage) if stage.kind() != StageKind::Accumulator => Ok(Some(StageBuffer {
                area: *stage.domain(),
                values: self.compute_stage_values(alloc, job, number)?,
            })),
            _ => Ok(None),
        }
    }

    // The values of the stage of this number, from those that it reads.
    fn compute_stage_values(
        &self,
        alloc: Global,
        job: &Job,
        number: usize,
    ) -> Result<Vec<i32>, AllocError>
        requires right { AreTrue (pipeline_in job.now) self.now.buffers.items }
        requires inputs { HasInputs (pipeline_in job.now) self.now.buffers.items number }
        ensures { IfOk result (λ values. values.items ≡ stage_values (pipeline_in job.now) number) }
    {
        let Some(stage) = job.stage(number) else {
            return Ok(Vec::new(alloc));
        };
        match stage.body() {
            Body::Plane(plane) => convert_whole_plane_of_picture(alloc, job.picture(), *plane),
            Body::Function(function) => evaluate_whole_function(
                alloc,
                self,
                function,
                stage.domain(),
            ),
            Body::Accumulator(_) => Ok(Vec::new(alloc)),
        }
    }
}
