#![tactic(auto)]
//! Stages for parts of formulas, and what is known of them.

ghost use Rattle.std.specs.Prelude.{IsTrue, OnOk};
ghost use Rattle.job.specs.Kept.{pipeline_in};
ghost use Rattle.job.specs.Views.{stage_view};
ghost use Rattle.part_stages.specs.Parts.{ArePartStages, IsWholeStage};

use crate::part_areas::find_area_of_part_reads;
use crate::part_formulas::find_only_part_formula;
use crate::part_ranks::{count_stages_of_part_ranks, has_part_reads_below};
use crate::part_stage::make_part_stage;
use job::{Formula, Job, Stage};
use joined_formulas::{StageFormula, find_joined_part};
use normal_formulas::copy_normal_formula;
use std::alloc::{AllocError, Global};

/// How many stages a job has at most.
const MOST_STAGES: usize = 65_536;

/// Stages for parts of formulas, to stand behind those of a job, and what is known of them and of some of its own.
#[derive(Debug, Drop)]
pub struct PartStages {
    pub stages: Vec<Stage>,
    pub known: Vec<StageFormula>,
}

// Whether a stage has a value wherever all that it reads has one.
fn is_whole_part_stage(job: &Job, stage: &Stage) -> bool
    ensures { IsTrue result → IsWholeStage (pipeline_in job.now) (stage_view stage.now) }
{
    if !has_part_reads_below(stage, count_stages_of_part_ranks(job)) {
        return false;
    }
    match find_area_of_part_reads(job, stage.reads()) {
        Some(area) => area.inside(stage.domain()),
        None => false,
    }
}

impl PartStages {
    /// Whether a stage is known to have a formula.
    pub(crate) fn has_part_formula(&self, formula: &Formula) -> bool {
        find_joined_part(&self.known, formula).is_some()
    }

    /// Adds what is known of the stage of a number, if it is one formula, wherever all that this reads has a value.
    pub(crate) fn push_whole_part(
        &mut self,
        alloc: Global,
        job: &Job,
        number: usize,
    ) -> Result<(), AllocError>
        ensures { OnOk result (ArePartStages (pipeline_in job.now) self.old
            → ArePartStages (pipeline_in job.now) self.new) }
    {
        let Some(stage) = job.stage(number) else {
            return Ok(());
        };
        let Some(formula) = find_only_part_formula(stage.body()) else {
            return Ok(());
        };
        if is_whole_part_stage(job, stage) {
            self.known.push(StageFormula {
                stage: number,
                formula: copy_normal_formula(alloc, formula)?,
                whole: true,
            })?;
        }
        Ok(())
    }

    /// Adds the stage of a formula, and what is known of it. Whether it could be added.
    pub(crate) fn push_part_stage(
        &mut self,
        alloc: Global,
        job: &Job,
        formula: &Formula,
    ) -> Result<bool, AllocError>
        ensures { OnOk result (ArePartStages (pipeline_in job.now) self.old
            → ArePartStages (pipeline_in job.now) self.new) }
    {
        let number = count_stages_of_part_ranks(job) + self.stages.len();
        if number >= MOST_STAGES {
            return Ok(false);
        }
        let Some(stage) = make_part_stage(alloc, job, formula)? else {
            return Ok(false);
        };
        let formula = copy_normal_formula(alloc, formula)?;
        self.stages.push(stage)?;
        self.known.push(StageFormula {
            stage: number,
            formula,
            whole: true,
        })?;
        Ok(true)
    }
}
