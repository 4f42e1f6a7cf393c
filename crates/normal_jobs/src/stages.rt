#![tactic(auto)]
//! Stages whose formulas are joined and in normal form.

ghost use Rattle.std.specs.Prelude.{IfOk, map};
ghost use Rattle.job.specs.Views.{stage_view};
ghost use Rattle.normal_jobs.specs.StandIns.{StandsForStage, StandForStages};

use crate::bodies::make_normal_body;
use job::Stage;
use joined_formulas::StageFormula;
use std::alloc::{AllocError, Global};

// The stage with its formulas joined and in normal form, and with this rank.
fn make_normal_stage(
    alloc: Global,
    known: &[StageFormula],
    stage: &Stage,
    rank: usize,
) -> Result<Stage, AllocError>
    ensures { IfOk result (λ made. StandsForStage known.now (stage_view stage.now) (stage_view made)) }
{
    let body = make_normal_body(alloc, known, stage.body())?;
    Ok(Stage::new(*stage.name(), rank, *stage.domain(), body))
}

/// The stages with their formulas joined and in normal form, and with these ranks; their own where none is given.
///
/// # Errors
///
/// Fails only where memory is refused.
pub(crate) fn make_normal_stages(
    alloc: Global,
    known: &[StageFormula],
    stages: &[Stage],
    ranks: &[usize],
) -> Result<Vec<Stage>, AllocError>
    ensures { IfOk result (λ made. StandForStages known.now (map stage_view stages.now)
        (map stage_view made.items)) }
{
    let mut made = Vec::with_capacity(alloc, stages.len())?;
    for stage in stages {
        let rank = ranks.get(made.len()).copied().unwrap_or(stage.rank());
        made.push(make_normal_stage(alloc, known, stage, rank)?)?;
    }
    Ok(made)
}
