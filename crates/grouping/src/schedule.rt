#![tactic(auto)]
//! Which functions are inlined, and what that costs.

ghost use Rattle.std.specs.Prelude.{◌≡◌, ◌≤◌, None, IfOk, IfErr, length, slice_index_or};

use crate::fault::ScheduleFault;
use crate::greedy::choose_greedy_inlining_with_costs;
use domains::Area;
use job::Job;
use std::alloc::{AllocError, Global};
use std::marker::Model;
use tile_boxes::{
    BoxWalk, InlinedStages, find_output_requested_inlined, order_stages_by_rank, survey_stage_costs,
};

/// Which functions are inlined, what the other functions and the accumulators cost, and whether each of their tiles is known to
/// fit in scratch memory. Contracts see inlining and costs as lists.
#[derive(Debug, Drop)]
pub struct Schedule {
    inlining: InlinedStages,
    costs: Vec<Option<u64>>,
    fits: bool,
}

impl Model for Schedule {
    ghost use Rattle.grouping.specs.Inlining.{Inlining};

    ghost Value = { Inlining };

    ghost view = { λ s. record { inlining = s.inlining; costs = s.costs.items; fits = s.fits } };
}

impl Schedule {
    ghost use Rattle.job.specs.Kept.{pipeline_in};
    ghost use Rattle.tile_boxes.specs.Schedules.{is_inlined, inlining_for, all_stored, IsSchedule};
    ghost use Rattle.tile_boxes.specs.Targets.{IsTarget, target_over, boxes};
    ghost use Rattle.tile_boxes.specs.Walks.{target_of};
    ghost use Rattle.tile_boxes.specs.Costs.{scratch};
    ghost use Rattle.grouping.specs.Greedy.{greedy_inlining};
    ghost use Rattle.grouping.specs.Inlining.{IsScheduleOf, IsScheduleFault};
    ghost use Rattle.tile_boxes.specs.Costs.{AllFitScratch};
    ghost use Rattle.tile_boxes.specs.Schedules.{StoresOutputs};

    /// The schedule that inlines nothing.
    ///
    /// # Errors
    ///
    /// Fails only where memory is refused.
    pub fn stored(alloc: Global, job: &Job) -> Result<Schedule, AllocError>
        ensures stored { IfOk result (λ s. s.inlining ≡ all_stored (pipeline_in job.now)) }
        ensures fits { IfOk result (λ s. AllFitScratch (pipeline_in job.now) s.inlining) }
        ensures schedule { IfOk result (IsScheduleOf (pipeline_in job.now)) }
    {
        let inlining = InlinedStages::all_stored(alloc, job)?;
        let schedule = Schedule::from_inlining(alloc, job, inlining)?;
        Ok(schedule)
    }

    /// The schedule that inlines the requested functions. `inlining` specifies for each stage whether it is requested; for planes
    /// and accumulators that counts as no.
    ///
    /// # Errors
    ///
    /// Names the least requested output, even if no memory is left. Otherwise fails only where memory is refused.
    pub fn of(alloc: Global, job: &Job, inlining: &[bool]) -> Result<Schedule, ScheduleFault>
        requires each { length inlining.now ≡ length (pipeline_in job.now).stages }
        ensures inlining { IfOk result (λ s. s.inlining
            ≡ inlining_for (pipeline_in job.now) inlining.now) }
        ensures schedule { IfOk result (IsScheduleOf (pipeline_in job.now)) }
        ensures fault { IfErr result (IsScheduleFault (pipeline_in job.now) inlining.now) }
    {
        match find_output_requested_inlined(job, inlining) {
            Some(stage) => Err(ScheduleFault::OutputInlined(stage)),
            None => Ok(Schedule::from_requested(alloc, job, inlining)?),
        }
    }

    // The schedule that inlines the requested functions, none of which is an output.
    fn from_requested(alloc: Global, job: &Job, asked: &[bool]) -> Result<Schedule, AllocError>
        requires outputs { StoresOutputs (pipeline_in job.now)
            (inlining_for (pipeline_in job.now) asked.now) }
        ensures inlining { IfOk result (λ s. s.inlining
            ≡ inlining_for (pipeline_in job.now) asked.now) }
        ensures schedule { IfOk result (IsScheduleOf (pipeline_in job.now)) }
    {
        let inlining = InlinedStages::from_requested(alloc, job, asked)?;
        let schedule = Schedule::from_inlining(alloc, job, inlining)?;
        Ok(schedule)
    }

    /// The greedy schedule. Functions are visited from the last to the first in dependence order. A function that is read, and is
    /// no output, is inlined if one stored stage has all its readers in its tiles. Its boxes must fit in scratch memory there,
    /// and the stage then takes at most `percent` percent more points than both take apart.
    ///
    /// # Errors
    ///
    /// Fails only where memory is refused.
    pub fn greedy(alloc: Global, job: &Job, percent: u32) -> Result<Schedule, AllocError>
        requires percent { percent ≤ 10000 }
        ensures greedy { IfOk result (λ s. s.inlining
            ≡ greedy_inlining (pipeline_in job.now) percent) }
        ensures schedule { IfOk result (IsScheduleOf (pipeline_in job.now)) }
        ensures fits { IfOk result (λ s. AllFitScratch (pipeline_in job.now) s.inlining) }
    {
        let choice = choose_greedy_inlining_with_costs(alloc, job, percent)?;
        Ok(Schedule {
            inlining: choice.inlining,
            costs: choice.costs,
            fits: true,
        })
    }

    fn from_inlining(
        alloc: Global,
        job: &Job,
        inlining: InlinedStages,
    ) -> Result<Schedule, AllocError>
        requires schedule { IsSchedule (pipeline_in job.now) inlining }
        ensures inlining { IfOk result (λ s. s.inlining ≡ inlining) }
        ensures schedule { IfOk result (IsScheduleOf (pipeline_in job.now)) }
    {
        let survey = survey_stage_costs(alloc, job, &inlining)?;
        Ok(Schedule {
            inlining,
            costs: survey.costs,
            fits: survey.fits,
        })
    }

    /// Whether the stage of this number is inlined.
    pub fn inlined(&self, stage: usize) -> bool
        ensures { result ≡ is_inlined self.now.inlining stage }
    {
        self.inlining.inlined(stage)
    }

    /// How many points the tiles of a stored function or an accumulator take together, including what is inlined in them; none
    /// for other stages.
    pub fn cost(&self, stage: usize) -> Option<u64>
        ensures { result ≡ slice_index_or self.now.costs stage None }
    {
        match self.costs.as_slice().get(stage) {
            Some(cost) => *cost,
            None => None,
        }
    }

    /// Whether each tile of a stored function and of an accumulator is known to fit in scratch memory.
    pub fn fits(&self) -> bool
        ensures { result ≡ self.now.fits }
    {
        self.fits
    }

    // A target over a region of its domain.
    fn start_box_walk<'a>(&'a self, job: &'a Job, target: usize, region: Area) -> BoxWalk<'a>
        ensures { target_of result
            ≡ target_over (pipeline_in job.now) self.now.inlining target region }
    {
        BoxWalk {
            job,
            schedule: &self.inlining,
            stage: target,
            region,
        }
    }

    /// The functions that a target needs over a region of its domain, except the target itself, in dependence order. Each has the
    /// area that is needed.
    ///
    /// # Errors
    ///
    /// Fails only where memory is refused.
    pub fn boxes(
        &self,
        alloc: Global,
        job: &Job,
        target: usize,
        region: Area,
    ) -> Result<Vec<(usize, Area)>, AllocError>
        requires target { IsTarget
            (target_over (pipeline_in job.now) self.now.inlining target region) }
        ensures { IfOk result (λ found. found.items
            ≡ boxes (target_over (pipeline_in job.now) self.now.inlining target region)) }
    {
        self.start_box_walk(job, target, region).boxes(alloc)
    }

    /// How many points the boxes of what is inlined have together, for a target over a region of its domain.
    ///
    /// # Errors
    ///
    /// Fails only where memory is refused.
    pub fn count_scratch_points(
        &self,
        alloc: Global,
        job: &Job,
        target: usize,
        region: Area,
    ) -> Result<u64, AllocError>
        requires target { IsTarget
            (target_over (pipeline_in job.now) self.now.inlining target region) }
        ensures { IfOk result (λ n. n
            ≡ scratch (target_over (pipeline_in job.now) self.now.inlining target region)) }
    {
        let order = order_stages_by_rank(alloc, job.stages())?;
        self.start_box_walk(job, target, region)
            .count_scratch_points(alloc, &order)
    }
}
