#![tactic(auto)]
//! Formulas of two and three reads that one instruction computes: distances, least, greatest and middle ones.

ghost use Rattle.std.specs.Prelude.{◌≡◌, IfSome, true};
ghost use Rattle.operators.specs.declared.operator.UnaryOp.TheVariants.{Abs};
ghost use Rattle.operators.specs.declared.operator.BinaryOp.TheVariants.{Max};
ghost use Rattle.job.specs.Formula.{unary, binary};
ghost use Rattle.job.specs.Views.{formula_view};
ghost use Rattle.narrow_eval.specs.NarrowPrograms.{program_formula};

use crate::narrow_program::NarrowProgram;
use domains::Index;
use job::Formula;
use narrow_sums::match_narrow_sum_read;
use operators::{BinaryOp, UnaryOp};

// Whether two indices are the same.
fn are_same_narrow_program_indices(first: &Index, second: &Index) -> bool
    ensures { result ≡ true → first.now ≡ second.now }
{
    *first == *second
}

// Whether two formulas are the same read.
fn are_same_narrow_program_reads(first: &Formula, second: &Formula) -> bool
    ensures { result ≡ true → formula_view first.now ≡ formula_view second.now }
{
    let Formula::Read(stage, row, column) = first else {
        return false;
    };
    let Formula::Read(other, other_row, other_column) = second else {
        return false;
    };
    if *stage != *other || !are_same_narrow_program_indices(row, other_row) {
        return false;
    }
    are_same_narrow_program_indices(column, other_column)
}

/// The absolute difference of two lines that an operator and its formula give.
pub(crate) fn choose_narrow_program_of_distance(
    op: UnaryOp,
    formula: &Formula,
) -> Option<NarrowProgram>
    ensures { IfSome result (λ it. program_formula it ≡ unary op (formula_view formula.now)) }
{
    match (op, formula) {
        (UnaryOp::Abs, Formula::Binary(BinaryOp::Sub, left, right)) => {
            Some(NarrowProgram::Distance(
                match_narrow_sum_read(left)?,
                match_narrow_sum_read(right)?,
            ))
        }
        _ => None,
    }
}

// The middle ones of three lines: the greater of the lesser of two, and of the lesser of their greater and a third.
fn choose_narrow_program_of_median(low: &Formula, high: &Formula) -> Option<NarrowProgram>
    ensures { IfSome result (λ it. program_formula it
        ≡ binary Max (formula_view low.now) (formula_view high.now)) }
{
    let Formula::Binary(BinaryOp::Min, first, second) = low else {
        return None;
    };
    let Formula::Binary(BinaryOp::Min, greater, third) = high else {
        return None;
    };
    let Formula::Binary(BinaryOp::Max, same_first, same_second) = &**greater else {
        return None;
    };
    if !are_same_narrow_program_reads(same_first, first)
        || !are_same_narrow_program_reads(same_second, second)
    {
        return None;
    }
    Some(NarrowProgram::Median(
        match_narrow_sum_read(first)?,
        match_narrow_sum_read(second)?,
        match_narrow_sum_read(third)?,
    ))
}

// The least or the greatest of three lines.
fn choose_narrow_program_of_extreme(
    op: BinaryOp,
    pair: &Formula,
    third: &Formula,
) -> Option<NarrowProgram>
    ensures { IfSome result (λ it. program_formula it
        ≡ binary op (formula_view pair.now) (formula_view third.now)) }
{
    let Formula::Binary(inner, first, second) = pair else {
        return None;
    };
    let first = match_narrow_sum_read(first)?;
    let second = match_narrow_sum_read(second)?;
    let third = match_narrow_sum_read(third)?;
    match (op, *inner) {
        (BinaryOp::Min, BinaryOp::Min) => Some(NarrowProgram::Least(first, second, third)),
        (BinaryOp::Max, BinaryOp::Max) => Some(NarrowProgram::Greatest(first, second, third)),
        _ => None,
    }
}

/// The least, the greatest or the middle ones of three lines that an operator makes of two formulas.
pub(crate) fn choose_narrow_program_of_three_reads(
    op: BinaryOp,
    left: &Formula,
    right: &Formula,
) -> Option<NarrowProgram>
    ensures { IfSome result (λ it. program_formula it
        ≡ binary op (formula_view left.now) (formula_view right.now)) }
{
    match choose_narrow_program_of_extreme(op, left, right) {
        Some(it) => Some(it),
        None => match op {
            BinaryOp::Max => choose_narrow_program_of_median(left, right),
            BinaryOp::Add | BinaryOp::Sub | BinaryOp::Mul | BinaryOp::Min => None,
        },
    }
}
