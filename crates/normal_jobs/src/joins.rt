#![tactic(auto)]
//! Which stages are known by a formula: those that copy another one or are one number, and those that are joined.

ghost use Rattle.std.specs.Prelude.{IfOk, OnOk};
ghost use Rattle.job.specs.Kept.{pipeline_in};
ghost use Rattle.joined_formulas.specs.Joins.{AreFormulasOf};

use crate::uses::{NormalUse, count_normal_uses, is_light_formula};
use domains::Index;
use job::{Formula, Job};
use joined_formulas::{StageFormula, make_joined_formula};
use part_stages::find_only_part_formula;
use std::alloc::{AllocError, Global};

// Whether an index is a step from the number.
fn is_normal_step(index: &Index) -> bool {
    index.mul() == 1 && index.div() == 1
}

// Whether a formula is a copy of a stage, or a number.
fn is_normal_copy(formula: &Formula) -> bool {
    match formula {
        Formula::Number(_) => true,
        Formula::Read(_, row, column) => is_normal_step(row) && is_normal_step(column),
        _ => false,
    }
}

// Whether a stage may be joined: if not, its formula is brought to its normal form once only.
fn may_be_normal_join(job: &Job, uses: &[NormalUse], number: usize, formula: &Formula) -> bool {
    match formula {
        Formula::Stencil(_, _, kernel) => kernel.as_slice().len() == 1,
        _ => is_light_formula(formula) || is_normal_join(job, uses, number, formula),
    }
}

// Whether what reads the stage of this number reads its formula in its place.
fn is_normal_join(job: &Job, uses: &[NormalUse], number: usize, formula: &Formula) -> bool {
    if is_normal_copy(formula) {
        return true;
    }
    match uses.get(number) {
        Some(found) => found.is_normal_join(job, number, formula),
        None => false,
    }
}

// Adds the formula of the stage of this number to what is known, if it has this rank and is joined.
fn push_normal_join(
    alloc: Global,
    job: &Job,
    uses: &[NormalUse],
    known: &mut Vec<StageFormula>,
    number: usize,
    rank: usize,
) -> Result<(), AllocError>
    ensures { OnOk result (AreFormulasOf (pipeline_in job.now) known.old.items
        → AreFormulasOf (pipeline_in job.now) known.new.items) }
{
    let Some(stage) = job.stage(number) else {
        return Ok(());
    };
    if stage.rank() != rank {
        return Ok(());
    }
    let Some(formula) = find_only_part_formula(stage.body()) else {
        return Ok(());
    };
    if !may_be_normal_join(job, uses, number, formula) {
        return Ok(());
    }
    let formula = make_joined_formula(alloc, known, formula)?;
    if is_normal_join(job, uses, number, &formula) {
        known.push(StageFormula {
            stage: number,
            formula,
            whole: false,
        })?;
    }
    Ok(())
}

// Adds the formulas of the joined stages of a rank.
fn push_normal_joins_of_rank(
    alloc: Global,
    job: &Job,
    uses: &[NormalUse],
    known: &mut Vec<StageFormula>,
    rank: usize,
) -> Result<(), AllocError>
    ensures { OnOk result (AreFormulasOf (pipeline_in job.now) known.old.items
        → AreFormulasOf (pipeline_in job.now) known.new.items) }
{
    for number in 0..job.stages().len() {
        push_normal_join(alloc, job, uses, known, number, rank)?;
    }
    Ok(())
}

/// The formulas of all joined stages, of which those of lower ranks are joined into those of higher ones.
///
/// # Errors
///
/// Fails only where memory is refused.
pub(crate) fn list_normal_joins(alloc: Global, job: &Job) -> Result<Vec<StageFormula>, AllocError>
    ensures { IfOk result (λ known. AreFormulasOf (pipeline_in job.now) known.items) }
{
    let uses = count_normal_uses(alloc, job)?;
    let mut known = Vec::new(alloc);
    for below in 0..job.stages().len() {
        push_normal_joins_of_rank(alloc, job, &uses, &mut known, below + 1)?;
    }
    Ok(known)
}
