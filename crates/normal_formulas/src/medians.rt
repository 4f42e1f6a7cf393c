#![tactic(auto)]
//! Medians of three: the greater of the lesser of two, and of the lesser of their greater and a third.

ghost use Rattle.std.specs.Prelude.{◌≡◌, IfOk, IfSome, true};
ghost use Rattle.operators.specs.declared.operator.BinaryOp.TheVariants.{Min};
ghost use Rattle.job.specs.Formula.{binary};
ghost use Rattle.job.specs.Views.{formula_view};
ghost use Rattle.normal_formulas.specs.Rewrites.{Rewrites};
ghost use Rattle.normal_formulas.specs.NormalMedians.{AreLesserAndGreater, median};

use crate::copies::copy_normal_formula_in_box;
use crate::same::is_same_normal_formula;
use job::Formula;
use operators::BinaryOp;
use std::alloc::{AllocError, Global};

// The formulas that an operator joins, if a formula is that.
fn split_normal_operands(op: BinaryOp, formula: &Formula) -> Option<(&Formula, &Formula)>
    ensures { IfSome result (λ it. formula_view formula.now ≡ binary op (formula_view it.0.now) (formula_view it.1.now)) }
{
    match formula {
        Formula::Binary(own, left, right) if *own == op => Some((left, right)),
        _ => None,
    }
}

// Whether two formulas are the lesser and the greater of two.
fn are_normal_lesser_and_greater(lesser: &Formula, greater: &Formula) -> bool
    ensures { result ≡ true → AreLesserAndGreater (formula_view lesser.now) (formula_view greater.now) }
{
    let Some((left, right)) = split_normal_operands(BinaryOp::Min, lesser) else {
        return false;
    };
    let Some((first, second)) = split_normal_operands(BinaryOp::Max, greater) else {
        return false;
    };
    is_same_normal_formula(left, first) && is_same_normal_formula(right, second)
}

// The lesser of two and the third, of which a formula is the greater, by the greater of the two.
fn find_normal_third<'a>(
    formula: &'a Formula,
    greater: &Formula,
) -> Option<(&'a Formula, &'a Formula)>
    ensures { IfSome result (λ it. Rewrites (binary Min (formula_view formula.now) (formula_view greater.now))
        (median (formula_view it.0.now) (formula_view greater.now) (formula_view it.1.now))) }
{
    let (left, right) = split_normal_operands(BinaryOp::Max, formula)?;
    if are_normal_lesser_and_greater(right, greater) {
        Some((right, left))
    } else if are_normal_lesser_and_greater(left, greater) {
        Some((left, right))
    } else {
        None
    }
}

// A median of copies of its parts.
fn build_normal_median(
    alloc: Global,
    lesser: &Formula,
    greater: &Formula,
    third: &Formula,
) -> Result<Formula, AllocError>
    ensures { IfOk result (λ made. formula_view made
        ≡ median (formula_view lesser.now) (formula_view greater.now) (formula_view third.now)) }
{
    let lesser = copy_normal_formula_in_box(alloc, lesser)?;
    let greater = copy_normal_formula_in_box(alloc, greater)?;
    let third = copy_normal_formula_in_box(alloc, third)?;
    let least = Formula::Binary(BinaryOp::Min, greater, third);
    Ok(Formula::Binary(BinaryOp::Max, lesser, Box::new(alloc, least)?))
}

/// The median that a lesser of two formulas is, if it is one.
pub(crate) fn find_normal_median(
    alloc: Global,
    op: BinaryOp,
    left: &Formula,
    right: &Formula,
) -> Result<Option<Formula>, AllocError>
    ensures { IfOk result (λ found. IfSome found (λ made. Rewrites (binary op (formula_view left.now) (formula_view right.now)) (formula_view made))) }
{
    if op != BinaryOp::Min {
        return Ok(None);
    }
    if let Some((lesser, third)) = find_normal_third(left, right) {
        return Ok(Some(build_normal_median(alloc, lesser, right, third)?));
    }
    match find_normal_third(right, left) {
        Some((lesser, third)) => Ok(Some(build_normal_median(alloc, lesser, left, third)?)),
        None => Ok(None),
    }
}
