//! Whether the numbers of a fact are those of its tile.

ghost use Rattle.std.specs.Prelude.{◌≡◌, ◌↔◌, IfOk, IsTrue};
ghost use Rattle.fact_audit.specs.Shapes.{FitsJob};
ghost use Rattle.fact_audit.specs.TrueFacts.{IsTrueOf};
ghost use Rattle.fact_audit.specs.Verdicts.{IsJobVerdict};
ghost use Rattle.job.specs.Kept.{pipeline_in};
ghost use Rattle.whole_stages.specs.Known.{IsServed};

use crate::shape::is_well_shaped_fact;
use crate::verdict::Verdict;
use reductions::compute_true_partial;
use std::alloc::{AllocError, Global};
use tile_fact::{Body, Fact};
use whole_stages::ComputedWholeStages;

/// The verdict on a fact by its job, whose stages were computed whole.
///
/// # Errors
///
/// Fails only where memory is refused.
pub(crate) fn judge_fact_by_stages(
    alloc: Global,
    stages: &ComputedWholeStages<'_>,
    fact: &Fact,
) -> Result<Verdict, AllocError>
    requires { IsServed (pipeline_in stages.now.job.now) stages.now.known.buffers.items
        fact.now.key.stage }
    ensures { IfOk result (IsJobVerdict (pipeline_in stages.now.job.now) fact.now) }
{
    if !is_well_shaped_fact(stages.job(), fact) {
        return Ok(Verdict::Misshapen);
    }
    if is_true_fact_of_job(alloc, stages, fact)? {
        return Ok(Verdict::True);
    }
    Ok(Verdict::False)
}

// Whether a fact is true of the job.
fn is_true_fact_of_job(
    alloc: Global,
    stages: &ComputedWholeStages<'_>,
    fact: &Fact,
) -> Result<bool, AllocError>
    requires { IsServed (pipeline_in stages.now.job.now) stages.now.known.buffers.items
        fact.now.key.stage }
    ensures { IfOk result (λ is. IsTrue is ↔ IsTrueOf fact.now (pipeline_in stages.now.job.now)) }
{
    let key = fact.key();
    let stage = usize::from(key.stage);
    match fact.body() {
        Body::Tile(samples) => match stages.copy_tile_values(alloc, stage, key.row, key.col)? {
            Some(values) => Ok(are_samples_of_true_fact(samples.as_slice(), &values)),
            None => Ok(false),
        },
        Body::Partial(bins) => match compute_true_partial(alloc, stages, stage, key.row, key.col)? {
            Some(totals) => Ok(are_bins_of_true_fact(bins.as_slice(), &totals)),
            None => Ok(false),
        },
    }
}

fn are_samples_of_true_fact(samples: &[i32], values: &Vec<i32>) -> bool
    ensures { IsTrue result ↔ samples.now ≡ values.now.items }
{
    samples == values.as_slice()
}

fn are_bins_of_true_fact(bins: &[i64], totals: &Vec<i64>) -> bool
    ensures { IsTrue result ↔ bins.now ≡ totals.now.items }
{
    bins == totals.as_slice()
}
