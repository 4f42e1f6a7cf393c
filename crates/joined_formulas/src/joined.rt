#![tactic(auto)]
//! The walk over a formula.

ghost use Rattle.std.specs.Prelude.{◌≡◌, [], ◌∷◌, pos, IfOk, IfSome, IsTrue};
ghost use Rattle.operators.specs.declared.operator.LiteralOp.TheVariants.{Div};
ghost use Rattle.job.specs.Formula.{literal, read, stencil};
ghost use Rattle.job.specs.Views.{formula_view};
ghost use Rattle.joined_formulas.specs.Joins.{Joins};
ghost use Rattle.joined_formulas.specs.inside.Found.{IsSource};

use crate::columns::join_stencil_by_columns;
use crate::indices::{is_own_index, move_joined_formula};
use crate::known::{StageFormula, find_stage_formula};
use crate::known_parts::find_joined_part;
use domains::Index;
use job::{Formula, Kernel, copy_kernel};
use normal_formulas::normalize_formula;
use operators::LiteralOp;
use std::alloc::{AllocError, Global};

// What stands for the read of a stage.
fn join_read(
    alloc: Global,
    known: &[StageFormula],
    stage: usize,
    row: Index,
    column: Index,
) -> Result<Formula, AllocError>
    ensures { IfOk result (λ made. Joins known.now (read stage row column) (formula_view made)) }
{
    if let Some(formula) = find_stage_formula(known, stage) {
        if let Some(made) = move_joined_formula(alloc, &row, &column, formula)? {
            return Ok(made);
        }
    }
    Ok(Formula::Read(stage, row, column))
}

// The stage that a kernel reads in place of this one, of which a copy is known.
fn find_joined_source(known: &[StageFormula], stage: usize) -> Option<usize>
    ensures { IfSome result (λ source. IsSource known.now stage source) }
{
    match find_stage_formula(known, stage)? {
        Formula::Read(source, row, column) if is_own_index(row) && is_own_index(column) => {
            Some(*source)
        }
        _ => None,
    }
}

// Whether a kernel is one factor of 1.
fn is_own_joined_kernel(kernel: &Kernel) -> bool
    ensures { IsTrue result → kernel.now ≡ (pos 1 ∷ []) ∷ [] }
{
    let rows = kernel.as_slice();
    rows.len() == 1 && rows[0].as_slice().len() == 1 && rows[0].as_slice()[0] == 1
}

// What stands for the stencil of a stage that has several factors.
fn join_wide_stencil(
    known: &[StageFormula],
    stage: usize,
    divisor: u32,
    kernel: &Kernel,
) -> Result<Formula, AllocError>
    ensures { IfOk result (λ made. Joins known.now (stencil stage divisor kernel.now) (formula_view made)) }
{
    match find_joined_source(known, stage) {
        Some(source) => Ok(Formula::Stencil(source, divisor, copy_kernel(kernel)?)),
        None => Ok(Formula::Stencil(stage, divisor, copy_kernel(kernel)?)),
    }
}

// What stands for the stencil of the point itself.
fn join_own_stencil(
    alloc: Global,
    known: &[StageFormula],
    stage: usize,
    divisor: u32,
    own: Index,
) -> Result<Formula, AllocError>
    ensures { IfOk result (λ made. Joins known.now (literal Div (read stage own own) divisor) (formula_view made)) }
{
    let read = join_read(alloc, known, stage, own, own)?;
    Ok(Formula::Literal(LiteralOp::Div, Box::new(alloc, read)?, divisor))
}

// What stands for the stencil of a stage.
fn join_stencil(
    alloc: Global,
    known: &[StageFormula],
    stage: usize,
    divisor: u32,
    kernel: &Kernel,
) -> Result<Formula, AllocError>
    ensures { IfOk result (λ made. Joins known.now (stencil stage divisor kernel.now) (formula_view made)) }
{
    if is_own_joined_kernel(kernel) {
        if let Some(own) = Index::new(1, 0, 1) {
            return join_own_stencil(alloc, known, stage, divisor, own);
        }
    }
    match join_stencil_by_columns(alloc, known, stage, divisor, kernel)? {
        Some(made) => Ok(made),
        None => join_wide_stencil(known, stage, divisor, kernel),
    }
}

#[cycle(join_formula)]
fn join_formula_in_box(
    alloc: Global,
    known: &[StageFormula],
    formula: &Formula,
) -> Result<Box<Formula>, AllocError>
    ensures { IfOk result (λ made. Joins known.now (formula_view formula.now) (formula_view made.value)) }
{
    let made = join_formula(alloc, known, formula)?;
    Ok(Box::new(alloc, made)?)
}

/// The formula in which each read of a stage of which a formula is known became this formula, where it has one at the indices of
/// the read, and each part that a whole stage is known to have became a read of it.
///
/// # Errors
///
/// Fails only where memory is refused.
#[cycle(join_formula)]
pub fn join_formula(
    alloc: Global,
    known: &[StageFormula],
    formula: &Formula,
) -> Result<Formula, AllocError>
    ensures { IfOk result (λ made. Joins known.now (formula_view formula.now) (formula_view made)) }
{
    match find_joined_part(known, formula) {
        Some(read) => Ok(read),
        None => join_formula_parts(alloc, known, formula),
    }
}

/// The formula that is joined in each of its parts, but not as a whole.
///
/// # Errors
///
/// Fails only where memory is refused.
#[cycle(join_formula)]
fn join_formula_parts(
    alloc: Global,
    known: &[StageFormula],
    formula: &Formula,
) -> Result<Formula, AllocError>
    ensures { IfOk result (λ made. Joins known.now (formula_view formula.now) (formula_view made)) }
{
    match formula {
        Formula::Number(number) => Ok(Formula::Number(*number)),
        Formula::Coordinate(axis) => Ok(Formula::Coordinate(*axis)),
        Formula::Read(stage, row, column) => join_read(alloc, known, *stage, *row, *column),
        Formula::Unary(op, of) => {
            let of = join_formula_in_box(alloc, known, of)?;
            Ok(Formula::Unary(*op, of))
        }
        Formula::Binary(op, left, right) => {
            let left = join_formula_in_box(alloc, known, left)?;
            let right = join_formula_in_box(alloc, known, right)?;
            Ok(Formula::Binary(*op, left, right))
        }
        Formula::Ternary(op, first, second, third) => {
            let first = join_formula_in_box(alloc, known, first)?;
            let second = join_formula_in_box(alloc, known, second)?;
            let third = join_formula_in_box(alloc, known, third)?;
            Ok(Formula::Ternary(*op, first, second, third))
        }
        Formula::Literal(op, of, number) => {
            let of = join_formula_in_box(alloc, known, of)?;
            Ok(Formula::Literal(*op, of, *number))
        }
        Formula::Lookup(entries, index) => {
            let index = join_formula_in_box(alloc, known, index)?;
            Ok(Formula::Lookup(entries.clone()?, index))
        }
        Formula::Select(left, relation, right, then, otherwise) => {
            let left = join_formula_in_box(alloc, known, left)?;
            let right = join_formula_in_box(alloc, known, right)?;
            let then = join_formula_in_box(alloc, known, then)?;
            let otherwise = join_formula_in_box(alloc, known, otherwise)?;
            Ok(Formula::Select(left, *relation, right, then, otherwise))
        }
        Formula::Stencil(stage, divisor, kernel) => {
            join_stencil(alloc, known, *stage, *divisor, kernel)
        }
    }
}

/// The normal form of a joined formula.
///
/// # Errors
///
/// Fails only where memory is refused.
pub fn make_joined_formula(
    alloc: Global,
    known: &[StageFormula],
    formula: &Formula,
) -> Result<Formula, AllocError>
    ensures { IfOk result (λ made. Joins known.now (formula_view formula.now) (formula_view made)) }
{
    let joined = join_formula_parts(alloc, known, formula)?;
    normalize_formula(alloc, &joined)
}
