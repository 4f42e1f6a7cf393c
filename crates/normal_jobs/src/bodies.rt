#![tactic(auto)]
//! What stages are at each point, with their formulas joined and in normal form.

ghost use Rattle.std.specs.Prelude.{IfOk};
ghost use Rattle.job.specs.Views.{body_view, formula_view};
ghost use Rattle.normal_jobs.specs.StandIns.{StandsForBody, StandsForSums};

use crate::cases::make_normal_function;
use job::{Accumulator, Body};
use joined_formulas::{StageFormula, make_joined_formula};
use std::alloc::{AllocError, Global};

// The accumulator with its formulas in normal form.
fn make_normal_accumulator(
    alloc: Global,
    known: &[StageFormula],
    accumulator: &Accumulator,
) -> Result<Accumulator, AllocError>
    ensures { IfOk result (λ made. StandsForSums known.now accumulator.now.fold made.fold
        accumulator.now.bins made.bins
        (formula_view accumulator.now.value) (formula_view made.value)
        (formula_view accumulator.now.bin) (formula_view made.bin)) }
{
    let value = make_joined_formula(alloc, known, accumulator.value())?;
    let bin = make_joined_formula(alloc, known, accumulator.bin())?;
    Accumulator::new(alloc, accumulator.fold(), *accumulator.bins(), value, bin)
}

/// What a stage is at each point, with its formulas joined and in normal form.
///
/// # Errors
///
/// Fails only where memory is refused.
pub(crate) fn make_normal_body(
    alloc: Global,
    known: &[StageFormula],
    body: &Body,
) -> Result<Body, AllocError>
    ensures { IfOk result (λ made. StandsForBody known.now (body_view body.now) (body_view made)) }
{
    match body {
        Body::Plane(plane) => Ok(Body::Plane(*plane)),
        Body::Function(function) => Ok(Body::Function(make_normal_function(
            alloc, known, function,
        )?)),
        Body::Accumulator(accumulator) => Ok(Body::Accumulator(make_normal_accumulator(
            alloc,
            known,
            accumulator,
        )?)),
    }
}
