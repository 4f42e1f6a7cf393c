#![tactic(auto)]
//! Copies of formulas.

ghost use Rattle.std.specs.Prelude.{◌≡◌, IfOk};
ghost use Rattle.job.specs.Views.{formula_view};

use job::{Formula, copy_kernel};
use std::alloc::{AllocError, Global};

/// A copy of a formula, in a box.
#[cycle(copy_normal_formula)]
pub(crate) fn copy_normal_formula_in_box(
    alloc: Global,
    formula: &Formula,
) -> Result<Box<Formula>, AllocError>
    ensures { IfOk result (λ copy. formula_view copy.value ≡ formula_view formula.now) }
{
    let copy = copy_normal_formula(alloc, formula)?;
    Ok(Box::new(alloc, copy)?)
}

/// A copy of a formula.
///
/// # Errors
///
/// Fails only where memory is refused.
#[cycle(copy_normal_formula)]
pub fn copy_normal_formula(alloc: Global, formula: &Formula) -> Result<Formula, AllocError>
    ensures { IfOk result (λ copy. formula_view copy ≡ formula_view formula.now) }
{
    match formula {
        Formula::Number(number) => Ok(Formula::Number(*number)),
        Formula::Coordinate(axis) => Ok(Formula::Coordinate(*axis)),
        Formula::Read(stage, row, column) => Ok(Formula::Read(*stage, *row, *column)),
        Formula::Unary(op, of) => Ok(Formula::Unary(*op, copy_normal_formula_in_box(alloc, of)?)),
        Formula::Binary(op, left, right) => Ok(Formula::Binary(
            *op,
            copy_normal_formula_in_box(alloc, left)?,
            copy_normal_formula_in_box(alloc, right)?,
        )),
        Formula::Ternary(op, first, second, third) => Ok(Formula::Ternary(
            *op,
            copy_normal_formula_in_box(alloc, first)?,
            copy_normal_formula_in_box(alloc, second)?,
            copy_normal_formula_in_box(alloc, third)?,
        )),
        Formula::Literal(op, of, number) => Ok(Formula::Literal(
            *op,
            copy_normal_formula_in_box(alloc, of)?,
            *number,
        )),
        Formula::Lookup(entries, index) => Ok(Formula::Lookup(
            entries.clone()?,
            copy_normal_formula_in_box(alloc, index)?,
        )),
        Formula::Select(left, relation, right, then, otherwise) => Ok(Formula::Select(
            copy_normal_formula_in_box(alloc, left)?,
            *relation,
            copy_normal_formula_in_box(alloc, right)?,
            copy_normal_formula_in_box(alloc, then)?,
            copy_normal_formula_in_box(alloc, otherwise)?,
        )),
        Formula::Stencil(stage, divisor, kernel) => {
            Ok(Formula::Stencil(*stage, *divisor, copy_kernel(kernel)?))
        }
    }
}
