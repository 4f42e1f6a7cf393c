#![tactic(auto)]
//! The walk over a formula: its parts become normal first, and then the formula of them.

ghost use Rattle.std.specs.Prelude.{◌≡◌, IfOk, IfSome, OnOk, pos};
ghost use Rattle.operators.specs.declared.operator.BinaryOp.TheVariants.{Add};
ghost use Rattle.job.specs.Formula.{number as constant, binary};
ghost use Rattle.job.specs.Views.{formula_view};
ghost use Rattle.normal_formulas.specs.Rewrites.{Rewrites};
ghost use Rattle.normal_formulas.specs.NormalSums.{product, sum_formula};

use crate::clamps::join_normal_operands;
use crate::quotients::apply_normal_literal;
use crate::relations::choose_normal_formula;
use crate::sums::NormalSum;
use domains::arithmetic::{wrapping_add, wrapping_mul, wrapping_neg, wrapping_shl};
use job::{Formula, copy_kernel};
use operators::{BinaryOp, LiteralOp, UnaryOp};
use std::alloc::{AllocError, Global};

// A number of the text, or one with the other sign.
fn find_normal_number(formula: &Formula) -> Option<i32>
    ensures { IfSome result (λ it. Rewrites (formula_view formula.now) (constant it)) }
{
    match formula {
        Formula::Number(number) => Some(*number),
        Formula::Unary(UnaryOp::Neg, of) => match &**of {
            Formula::Number(number) => Some(wrapping_neg(*number)),
            _ => None,
        },
        _ => None,
    }
}

// Whether a formula is gathered as a sum.
fn is_normal_sum(formula: &Formula) -> bool {
    match formula {
        Formula::Unary(UnaryOp::Neg, _)
        | Formula::Binary(BinaryOp::Add | BinaryOp::Sub, _, _)
        | Formula::Literal(LiteralOp::Shl, _, _) => true,
        Formula::Binary(BinaryOp::Mul, left, right) => {
            find_normal_number(left).is_some() || find_normal_number(right).is_some()
        }
        _ => false,
    }
}

// Adds a factor times a formula to a sum.
#[cycle(normalize_formula)]
fn add_normal_formula(
    alloc: Global,
    sum: &mut NormalSum,
    factor: i32,
    formula: &Formula,
) -> Result<(), AllocError>
    ensures { OnOk result (Rewrites (binary Add (product factor (formula_view formula.now)) (sum_formula sum.old)) (sum_formula sum.new)) }
{
    match formula {
        Formula::Number(number) => {
            sum.number = wrapping_add(sum.number, wrapping_mul(factor, *number));
            Ok(())
        }
        Formula::Unary(UnaryOp::Neg, of) => {
            add_normal_formula(alloc, sum, wrapping_neg(factor), of)
        }
        Formula::Binary(BinaryOp::Add, left, right) => {
            add_normal_formula(alloc, sum, factor, left)?;
            add_normal_formula(alloc, sum, factor, right)
        }
        Formula::Binary(BinaryOp::Sub, left, right) => {
            add_normal_formula(alloc, sum, factor, left)?;
            add_normal_formula(alloc, sum, wrapping_neg(factor), right)
        }
        Formula::Binary(BinaryOp::Mul, left, right) => {
            match (find_normal_number(left), find_normal_number(right)) {
                (Some(number), _) => {
                    add_normal_formula(alloc, sum, wrapping_mul(factor, number), right)
                }
                (None, Some(number)) => {
                    add_normal_formula(alloc, sum, wrapping_mul(factor, number), left)
                }
                (None, None) => add_normal_parts(alloc, sum, factor, formula),
            }
        }
        Formula::Literal(LiteralOp::Shl, of, count) if *count < 32 => {
            add_normal_formula(alloc, sum, wrapping_shl(factor, *count), of)
        }
        _ => add_normal_parts(alloc, sum, factor, formula),
    }
}

// Adds a factor times a formula of which the parts become normal.
#[cycle(normalize_formula)]
fn add_normal_parts(
    alloc: Global,
    sum: &mut NormalSum,
    factor: i32,
    formula: &Formula,
) -> Result<(), AllocError>
    ensures { OnOk result (Rewrites (binary Add (product factor (formula_view formula.now)) (sum_formula sum.old)) (sum_formula sum.new)) }
{
    let term = normalize_formula_parts(alloc, formula)?;
    sum.add_normal_term(factor, term)
}

// The normal form of a sum.
#[cycle(normalize_formula)]
fn normalize_sum(alloc: Global, formula: &Formula) -> Result<Formula, AllocError>
    ensures { IfOk result (λ made. Rewrites (formula_view formula.now) (formula_view made)) }
{
    let mut sum = NormalSum {
        terms: Vec::new(alloc),
        number: 0,
    };
    add_normal_formula(alloc, &mut sum, 1, formula)?;
    sum.build_normal_sum(alloc)
}

#[cycle(normalize_formula)]
fn normalize_formula_in_box(alloc: Global, formula: &Formula) -> Result<Box<Formula>, AllocError>
    ensures { IfOk result (λ made. Rewrites (formula_view formula.now) (formula_view made.value)) }
{
    let made = normalize_formula(alloc, formula)?;
    Ok(Box::new(alloc, made)?)
}

/// The normal form of a formula, which may stand for it.
///
/// # Errors
///
/// Fails only where memory is refused.
#[cycle(normalize_formula)]
pub fn normalize_formula(alloc: Global, formula: &Formula) -> Result<Formula, AllocError>
    ensures { IfOk result (λ made. Rewrites (formula_view formula.now) (formula_view made)) }
{
    if is_normal_sum(formula) {
        normalize_sum(alloc, formula)
    } else {
        normalize_formula_parts(alloc, formula)
    }
}

// A formula of which the parts become normal.
#[cycle(normalize_formula)]
fn normalize_formula_parts(alloc: Global, formula: &Formula) -> Result<Formula, AllocError>
    ensures { IfOk result (λ made. Rewrites (formula_view formula.now) (formula_view made)) }
{
    match formula {
        Formula::Number(number) => Ok(Formula::Number(*number)),
        Formula::Coordinate(axis) => Ok(Formula::Coordinate(*axis)),
        Formula::Read(stage, row, column) => Ok(Formula::Read(*stage, *row, *column)),
        Formula::Unary(op, of) => {
            let of = normalize_formula_in_box(alloc, of)?;
            Ok(Formula::Unary(*op, of))
        }
        Formula::Binary(op, left, right) => {
            let left = normalize_formula_in_box(alloc, left)?;
            let right = normalize_formula_in_box(alloc, right)?;
            join_normal_operands(alloc, *op, left, right)
        }
        Formula::Ternary(op, first, second, third) => {
            let first = normalize_formula_in_box(alloc, first)?;
            let second = normalize_formula_in_box(alloc, second)?;
            let third = normalize_formula_in_box(alloc, third)?;
            Ok(Formula::Ternary(*op, first, second, third))
        }
        Formula::Literal(op, of, number) => {
            let of = normalize_formula(alloc, of)?;
            apply_normal_literal(alloc, *op, of, *number)
        }
        Formula::Lookup(entries, index) => {
            let index = normalize_formula_in_box(alloc, index)?;
            Ok(Formula::Lookup(entries.clone()?, index))
        }
        Formula::Select(left, relation, right, then, otherwise) => {
            let left = normalize_formula_in_box(alloc, left)?;
            let right = normalize_formula_in_box(alloc, right)?;
            let then = normalize_formula_in_box(alloc, then)?;
            let otherwise = normalize_formula_in_box(alloc, otherwise)?;
            Ok(choose_normal_formula(left, *relation, right, then, otherwise))
        }
        Formula::Stencil(stage, divisor, kernel) => {
            Ok(Formula::Stencil(*stage, *divisor, copy_kernel(kernel)?))
        }
    }
}
