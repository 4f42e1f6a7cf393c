#![tactic(auto)]
//! Clamps, which are the least of a number and of the greatest of a formula and another number, and distances, which are the greater of
//! two differences.

ghost use Rattle.std.specs.Prelude.{◌≡◌, IfSome, IfOk, true, false};
ghost use Rattle.operators.specs.declared.operator.UnaryOp.TheVariants.{Abs};
ghost use Rattle.operators.specs.declared.operator.BinaryOp.TheVariants.{Min, Max};
ghost use Rattle.operators.specs.declared.operator.TernaryOp.TheVariants.{Clamp};
ghost use Rattle.job.specs.Formula.{Formula as FormulaView, number as constant, unary, binary, ternary};
ghost use Rattle.job.specs.Views.{formula_view};
ghost use Rattle.normal_formulas.specs.Rewrites.{Rewrites};

use crate::copies::copy_normal_formula_in_box;
use crate::medians::find_normal_median;
use crate::same::is_same_normal_formula;
use job::Formula;
use operators::{BinaryOp, TernaryOp, UnaryOp};
use std::alloc::{AllocError, Global};

// What an operator takes with a number on its right, if a formula is that, and the number.
fn find_normal_bound(op: BinaryOp, formula: &Formula) -> Option<(&Formula, i32)>
    ensures { IfSome result (λ it. formula_view formula.now ≡ binary op (formula_view it.0.now) (constant it.1)) }
{
    match formula {
        Formula::Binary(own, of, bound) if *own == op => match &**bound {
            Formula::Number(number) => Some((of, *number)),
            _ => None,
        },
        _ => None,
    }
}

// What an operator clamps, with the bounds.
fn find_normal_clamp<'a>(
    op: BinaryOp,
    left: &'a Formula,
    right: &Formula,
) -> Option<(&'a Formula, i32, i32)>
    ensures { IfSome result (λ it. Rewrites (binary op (formula_view left.now) (formula_view right.now))
        (ternary Clamp (formula_view it.0.now) (constant it.1) (constant it.2))) }
{
    let Formula::Number(number) = right else {
        return None;
    };
    match op {
        BinaryOp::Min => {
            let (of, low) = find_normal_bound(BinaryOp::Max, left)?;
            Some((of, low, *number))
        }
        BinaryOp::Max => {
            let (of, high) = find_normal_bound(BinaryOp::Min, left)?;
            if *number <= high {
                Some((of, *number, high))
            } else {
                None
            }
        }
        BinaryOp::Add | BinaryOp::Sub | BinaryOp::Mul => None,
    }
}

// Whether the operands of an operator stay in their order. Of a least or greatest number, a number is the right operand.
fn is_normal_order(op: BinaryOp, left: &Formula) -> bool
    ensures { result ≡ false → (f g : FormulaView) → Rewrites (binary op f g) (binary op g f) }
{
    match op {
        BinaryOp::Min | BinaryOp::Max => !matches!(left, Formula::Number(_)),
        BinaryOp::Add | BinaryOp::Sub | BinaryOp::Mul => true,
    }
}

// Whether an operator takes the greater of two differences, one of which is the other's opposite.
fn is_normal_distance(op: BinaryOp, left: &Formula, right: &Formula) -> bool
    ensures { result ≡ true → Rewrites (binary op (formula_view left.now) (formula_view right.now)) (unary Abs (formula_view left.now)) }
{
    match (op, left, right) {
        (
            BinaryOp::Max,
            Formula::Binary(BinaryOp::Sub, first, second),
            Formula::Binary(BinaryOp::Sub, other, last),
        ) => is_same_normal_formula(first, last) && is_same_normal_formula(second, other),
        _ => false,
    }
}

// The operands in their order.
fn order_normal_operands(
    op: BinaryOp,
    left: Box<Formula>,
    right: Box<Formula>,
) -> (Box<Formula>, Box<Formula>)
    ensures { Rewrites (binary op (formula_view left.value) (formula_view right.value))
        (binary op (formula_view result.0.value) (formula_view result.1.value)) }
{
    if is_normal_order(op, &left) {
        (left, right)
    } else {
        (right, left)
    }
}

// An operator on two formulas in their order, or a clamp.
fn clamp_normal_operands(
    alloc: Global,
    op: BinaryOp,
    left: Box<Formula>,
    right: Box<Formula>,
) -> Result<Formula, AllocError>
    ensures { IfOk result (λ made. Rewrites (binary op (formula_view left.value) (formula_view right.value)) (formula_view made)) }
{
    match find_normal_clamp(op, &left, &right) {
        Some((of, low, high)) => Ok(Formula::Ternary(
            TernaryOp::Clamp,
            copy_normal_formula_in_box(alloc, of)?,
            Box::new(alloc, Formula::Number(low))?,
            Box::new(alloc, Formula::Number(high))?,
        )),
        None => Ok(Formula::Binary(op, left, right)),
    }
}

/// An operator on two formulas.
pub(crate) fn join_normal_operands(
    alloc: Global,
    op: BinaryOp,
    left: Box<Formula>,
    right: Box<Formula>,
) -> Result<Formula, AllocError>
    ensures { IfOk result (λ made. Rewrites (binary op (formula_view left.value) (formula_view right.value)) (formula_view made)) }
{
    if is_normal_distance(op, &left, &right) {
        return Ok(Formula::Unary(UnaryOp::Abs, left));
    }
    let (left, right) = order_normal_operands(op, left, right);
    match find_normal_median(alloc, op, &left, &right)? {
        Some(median) => Ok(median),
        None => clamp_normal_operands(alloc, op, left, right),
    }
}
