#![tactic(auto)]
//! Which stages are inlined.

ghost use Rattle.std.specs.Prelude.{◌≡◌, ◌&&◌, false, slice_set, IfOk, IfSome, IfNone};
ghost use Rattle.job.specs.Kept.{pipeline_in};
ghost use Rattle.tile_boxes.specs.Schedules.{StoresOutputs, IsInlinedOutput};
ghost use Rattle.tile_boxes.specs.Schedules.{is_inlined, is_function_stage, inlining_for};

use job::{Job, StageKind};
use std::alloc::{AllocError, Global};
use std::marker::Model;

/// Whether each stage is inlined. Contracts see a list of that.
#[derive(Debug, Drop)]
pub struct InlinedStages {
    inlining: Vec<bool>,
}

impl Model for InlinedStages {
    ghost use Rattle.std.specs.Prelude.{List, Bool};

    ghost Value = { List Bool };

    ghost view = { λ f. f.inlining.items };
}

impl InlinedStages {
    ghost use Rattle.job.specs.Kept.{pipeline_in};
    ghost use Rattle.tile_boxes.specs.Schedules.{is_inlined, inlining_for, all_stored};

    /// Each stage is stored.
    ///
    /// # Errors
    ///
    /// Fails only where memory is refused.
    pub fn all_stored(alloc: Global, job: &Job) -> Result<InlinedStages, AllocError>
        ensures { IfOk result (λ f. f ≡ all_stored (pipeline_in job.now)) }
    {
        let inlining = vec![in alloc; false; job.stages().len()]?;
        Ok(InlinedStages { inlining })
    }

    /// The requested stages, except for planes and accumulators.
    ///
    /// # Errors
    ///
    /// Fails only where memory is refused.
    #[tactic(auto, using(crate::proofs::Lists::map_range_more))]
    pub fn from_requested(
        alloc: Global,
        job: &Job,
        asked: &[bool],
    ) -> Result<InlinedStages, AllocError>
        ensures { IfOk result (λ f. f ≡ inlining_for (pipeline_in job.now) asked.now) }
    {
        let mut inlining = Vec::new(alloc);
        for number in 0..job.stages().len() {
            inlining.push(is_function_and_requested_inlined(job, asked, number))?;
        }
        Ok(InlinedStages { inlining })
    }

    /// Whether the stage of this number is inlined.
    pub fn inlined(&self, stage: usize) -> bool
        ensures { result ≡ is_inlined self.now stage }
    {
        is_among_inlined(&self.inlining, stage)
    }

    /// Inlines the stage of this number, or stores it.
    pub fn set_stage_inlined_or_stored(&mut self, stage: usize, is_inlined: bool)
        ensures { self.new ≡ slice_set self.old stage is_inlined }
    {
        if stage < self.inlining.len() {
            self.inlining[stage] = is_inlined;
        }
    }
}

/// The least output that is requested. It allocates no memory.
pub fn find_output_requested_inlined(job: &Job, asked: &[bool]) -> Option<usize>
    ensures some { IfSome result
        (IsInlinedOutput (pipeline_in job.now) (inlining_for (pipeline_in job.now) asked.now)) }
    ensures none { IfNone result
        (StoresOutputs (pipeline_in job.now) (inlining_for (pipeline_in job.now) asked.now)) }
{
    for number in 0..job.stages().len() {
        if is_function_and_requested_inlined(job, asked, number) && job.is_output(number) {
            return Some(number);
        }
    }
    None
}

fn is_among_inlined(inlining: &[bool], number: usize) -> bool
    ensures { result ≡ is_inlined inlining.now number }
{
    match inlining.get(number) {
        Some(inlined) => *inlined,
        None => false,
    }
}

fn is_function_and_requested_inlined(job: &Job, asked: &[bool], number: usize) -> bool
    ensures { result ≡ (is_inlined asked.now number && is_function_stage (pipeline_in job.now) number) }
{
    is_among_inlined(asked, number) && is_function_stage(job, number)
}

/// Whether the stage of this number is a function.
pub fn is_function_stage(job: &Job, number: usize) -> bool
    ensures { result ≡ is_function_stage (pipeline_in job.now) number }
{
    job.kind(number) == Some(StageKind::Function)
}
