#![tactic(auto)]
//! Rows of steps of divisions.

ghost use Rattle.std.specs.Prelude.{◌≡◌, ◌<◌, ◌+ℤ◌, pos, length, IsTrue};
ghost use Rattle.job.specs.Reads.{EachRead};
ghost use Rattle.job.specs.Values.{formula_value};
ghost use Rattle.row_loops.specs.Rows.{EachPlace, at};
ghost use Rattle.wide_divisions.specs.DivisionSteps.{read_of_rest, step_formula, IsRightStep};

use crate::digits::write_division_step_results;
use crate::reads::{DivisionStepRead, borrow_division_step_read};
use crate::step::{DivisionStep, DivisionStepRest};
use row_kernels::RowSpan;
use tile_eval::RowSource;

// The read of what a step begins with.
fn find_read_of_division_step_rest<'a>(rest: &DivisionStepRest<'a>) -> DivisionStepRead<'a>
    ensures { result ≡ read_of_rest rest.now }
{
    match rest {
        DivisionStepRest::Read(read) => *read,
        DivisionStepRest::Capped { read, .. } => *read,
    }
}

/// Writes the values of a step of a division at a row of points, if the samples that it reads are adjacent in memory.
/// Returns whether it did.
// Apart, so that a step of another stage does without the stack that this takes.
#[inline(never)]
pub fn write_division_step<S: RowSource>(
    source: &S,
    step: &DivisionStep<'_>,
    points: &RowSpan,
    out: &mut [i32],
) -> bool
    requires fits { length out.old ≡ points.now.len }
    requires right { IsRightStep step.now }
    requires reads { EachPlace points.now.len (λ k. EachRead (S.has source.now)
        (step_formula step.now) points.now.row (points.now.col +ℤ pos k)) }
    ensures { IsTrue result → EachPlace (length out.old) (λ k. at out.new k
        ≡ formula_value (S.samples source.now) (step_formula step.now) points.now.row
        (points.now.col +ℤ pos k)) }
{
    let read = find_read_of_division_step_rest(&step.rest);
    let Some(samples) = borrow_division_step_read(source, &read, points) else {
        return false;
    };
    let Some(divisors) = borrow_division_step_read(source, &step.divisor, points) else {
        return false;
    };
    write_division_step_results(out, samples, divisors, step);
    true
}
