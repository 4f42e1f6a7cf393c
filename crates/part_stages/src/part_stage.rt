#![tactic(auto)]
//! Stages that have the values of parts.

ghost use Rattle.std.specs.Prelude.{◌≡◌, [], Some, IfOk, IfSome, map};
ghost use Rattle.std.specs.Option.{option_map};
ghost use Rattle.job.specs.Kept.{pipeline_in};
ghost use Rattle.job.specs.Pipeline.{function};
ghost use Rattle.job.specs.Views.{case_view, formula_view, stage_view};
ghost use Rattle.part_stages.specs.Parts.{IsPartStage};

use crate::part_areas::find_part_area;
use crate::part_formulas::is_part_formula;
use crate::part_ranks::{
    are_part_reads_below, count_stages_of_part_ranks, find_greatest_part_rank,
};
use job::{Body, Formula, Function, Job, Stage};
use normal_formulas::copy_normal_formula;
use std::alloc::{AllocError, Global};

// The function that is this formula at all points.
fn make_part_function(alloc: Global, formula: &Formula) -> Result<Function, AllocError>
    ensures { IfOk result (λ made. function (map case_view made.cases.items) (option_map formula_view made.otherwise)
        ≡ function [] (Some (formula_view formula.now))) }
{
    let copy = copy_normal_formula(alloc, formula)?;
    Function::new(alloc, Vec::new(alloc), Some(copy))
}

/// The stage that has the values of a formula, wherever all that it reads has one. None where there is no such point, or they
/// are no domain of a stage.
///
/// # Errors
///
/// Fails only where memory is refused.
pub(crate) fn make_part_stage(
    alloc: Global,
    job: &Job,
    formula: &Formula,
) -> Result<Option<Stage>, AllocError>
    ensures { IfOk result (λ found. IfSome found
        (λ stage. IsPartStage (pipeline_in job.now) (formula_view formula.now) (stage_view stage))) }
{
    if !is_part_formula(formula) {
        return Ok(None);
    }
    let function = make_part_function(alloc, formula)?;
    let reads = function.reads();
    if !are_part_reads_below(reads, count_stages_of_part_ranks(job)) {
        return Ok(None);
    }
    let Some(area) = find_part_area(job, reads) else {
        return Ok(None);
    };
    let Some(rank) = find_greatest_part_rank(job.stages(), reads).checked_add(1) else {
        return Ok(None);
    };
    let Some(name) = job.name(reads.first().map_or(0, |read| read.stage())) else {
        return Ok(None);
    };
    Ok(Some(Stage::new(name, rank, area, Body::Function(function))))
}
