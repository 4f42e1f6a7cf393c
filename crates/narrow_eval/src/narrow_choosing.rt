#![tactic(auto)]
//! The choice of instructions for formulas. A program computes its formula by its type alone, so no clause binds the choice.

ghost use Rattle.std.specs.Prelude.{◌≡◌, IfOk, IfSome, map};
ghost use Rattle.std.specs.Option.{option_map};
ghost use Rattle.job.specs.Formula.{read, unary, binary, ternary, literal, lookup, select};
ghost use Rattle.job.specs.Views.{case_view, formula_view};
ghost use Rattle.narrow_sums.specs.SumRows.{found_sum_formula};
ghost use Rattle.narrow_eval.specs.NarrowPrograms.{program_case, program_formula, IsProgramOf};

use crate::narrow_case::{NarrowCase, NarrowFunction};
use crate::narrow_extremes::{
    choose_narrow_program_of_distance, choose_narrow_program_of_three_reads,
};
use crate::narrow_program::NarrowProgram;
use domains::Index;
use job::{Formula, Function, JobCase};
use narrow_sums::{FoundNarrowSum, find_narrow_sum_row, match_narrow_sum_read};
use operators::{BinaryOp, LiteralOp, Relation, TernaryOp, UnaryOp, copy_kernel};
use std::alloc::{AllocError, Global};
use tables::TableEntries;

// A program for a formula, in a box. (Out of line, as formulas may be 4,096 deep: each level takes little stack so.)
#[inline(never)]
#[cycle(choose_narrow_program)]
fn choose_narrow_program_in_box(
    alloc: Global,
    formula: &Formula,
) -> Result<Box<NarrowProgram>, AllocError>
    ensures { IfOk result (λ it. program_formula it.value ≡ formula_view formula.now) }
{
    let program = choose_narrow_program(alloc, formula)?;
    Ok(Box::new(alloc, program)?)
}

// A program for a sum.
#[inline(never)]
#[cycle(choose_narrow_program)]
fn choose_narrow_program_of_sum(
    alloc: Global,
    found: FoundNarrowSum<'_>,
) -> Result<NarrowProgram, AllocError>
    ensures { IfOk result (λ it. program_formula it ≡ found_sum_formula found.entry) }
{
    match found.start {
        None => Ok(NarrowProgram::Sum(found.row)),
        Some(start) => {
            let start = choose_narrow_program_of_operation(alloc, start)?;
            Ok(NarrowProgram::JoinedSum(Box::new(alloc, start)?, found.row))
        }
    }
}

// A program for a formula, if it is a sum.
#[inline(never)]
#[cycle(choose_narrow_program)]
fn choose_narrow_program_if_sum(
    alloc: Global,
    formula: &Formula,
) -> Result<Option<NarrowProgram>, AllocError>
    ensures { IfOk result (λ made. IfSome made (λ it. program_formula it ≡ formula_view formula.now)) }
{
    match find_narrow_sum_row(alloc, formula)? {
        Some(found) => Ok(Some(choose_narrow_program_of_sum(alloc, found)?)),
        None => Ok(None),
    }
}

// A program for an operator on a formula.
#[inline(never)]
#[cycle(choose_narrow_program)]
fn choose_narrow_program_of_unary(
    alloc: Global,
    op: UnaryOp,
    of: &Formula,
) -> Result<NarrowProgram, AllocError>
    ensures { IfOk result (λ it. program_formula it ≡ unary op (formula_view of.now)) }
{
    match choose_narrow_program_of_distance(op, of) {
        Some(it) => Ok(it),
        None => Ok(NarrowProgram::Unary(op, choose_narrow_program_in_box(alloc, of)?)),
    }
}

// A program for an operator on two formulas.
#[inline(never)]
#[cycle(choose_narrow_program)]
fn choose_narrow_program_of_binary(
    alloc: Global,
    op: BinaryOp,
    left: &Formula,
    right: &Formula,
) -> Result<NarrowProgram, AllocError>
    ensures { IfOk result (λ it. program_formula it
        ≡ binary op (formula_view left.now) (formula_view right.now)) }
{
    if let Some(it) = choose_narrow_program_of_three_reads(op, left, right) {
        return Ok(it);
    }
    let left = choose_narrow_program_in_box(alloc, left)?;
    let right = choose_narrow_program_in_box(alloc, right)?;
    Ok(NarrowProgram::Binary(op, left, right))
}

// A program for an operator on three formulas.
#[inline(never)]
#[cycle(choose_narrow_program)]
fn choose_narrow_program_of_ternary(
    alloc: Global,
    op: TernaryOp,
    first: &Formula,
    second: &Formula,
    third: &Formula,
) -> Result<NarrowProgram, AllocError>
    ensures { IfOk result (λ it. program_formula it
        ≡ ternary op (formula_view first.now) (formula_view second.now) (formula_view third.now)) }
{
    let first = choose_narrow_program_in_box(alloc, first)?;
    let second = choose_narrow_program_in_box(alloc, second)?;
    let third = choose_narrow_program_in_box(alloc, third)?;
    Ok(NarrowProgram::Ternary(op, first, second, third))
}

// A program for a choice between two formulas, by two more that are compared.
#[inline(never)]
#[cycle(choose_narrow_program)]
fn choose_narrow_program_of_select(
    alloc: Global,
    left: &Formula,
    relation: Relation,
    right: &Formula,
    then: &Formula,
    other: &Formula,
) -> Result<NarrowProgram, AllocError>
    ensures { IfOk result (λ it. program_formula it ≡ select (formula_view left.now) relation
        (formula_view right.now) (formula_view then.now) (formula_view other.now)) }
{
    let left = choose_narrow_program_in_box(alloc, left)?;
    let right = choose_narrow_program_in_box(alloc, right)?;
    let then = choose_narrow_program_in_box(alloc, then)?;
    let other = choose_narrow_program_in_box(alloc, other)?;
    Ok(NarrowProgram::Select(left, relation, right, then, other))
}

// A program for an operator with a number of the text.
#[inline(never)]
#[cycle(choose_narrow_program)]
fn choose_narrow_program_of_literal(
    alloc: Global,
    op: LiteralOp,
    of: &Formula,
    number: u32,
) -> Result<NarrowProgram, AllocError>
    ensures { IfOk result (λ it. program_formula it ≡ literal op (formula_view of.now) number) }
{
    let of = choose_narrow_program_in_box(alloc, of)?;
    Ok(NarrowProgram::Literal(op, of, number))
}

// A program for the entry of a table at an index.
#[inline(never)]
#[cycle(choose_narrow_program)]
fn choose_narrow_program_of_lookup(
    alloc: Global,
    entries: &TableEntries,
    index: &Formula,
) -> Result<NarrowProgram, AllocError>
    ensures { IfOk result (λ it. program_formula it ≡ lookup entries.now (formula_view index.now)) }
{
    let index = choose_narrow_program_in_box(alloc, index)?;
    Ok(NarrowProgram::Lookup(entries.clone()?, index))
}

// A program for a read.
#[inline(never)]
fn choose_narrow_program_of_read(
    formula: &Formula,
    stage: usize,
    row: Index,
    col: Index,
) -> NarrowProgram
    requires { formula_view formula.now ≡ read stage row col }
    ensures { program_formula result ≡ formula_view formula.now }
{
    match match_narrow_sum_read(formula) {
        Some(read) => NarrowProgram::Line(read),
        None => NarrowProgram::Gather(stage, row, col),
    }
}

// A program for a formula that is no sum, operand by operand.
#[inline(never)]
#[cycle(choose_narrow_program)]
fn choose_narrow_program_of_operation(
    alloc: Global,
    formula: &Formula,
) -> Result<NarrowProgram, AllocError>
    ensures { IfOk result (λ it. program_formula it ≡ formula_view formula.now) }
{
    match formula {
        Formula::Number(number) => Ok(NarrowProgram::Number(*number)),
        Formula::Coordinate(axis) => Ok(NarrowProgram::Coordinate(*axis)),
        Formula::Read(stage, row, col) => {
            Ok(choose_narrow_program_of_read(formula, *stage, *row, *col))
        }
        Formula::Unary(op, of) => choose_narrow_program_of_unary(alloc, *op, of),
        Formula::Binary(op, a, b) => choose_narrow_program_of_binary(alloc, *op, a, b),
        Formula::Ternary(op, a, b, c) => choose_narrow_program_of_ternary(alloc, *op, a, b, c),
        Formula::Literal(op, of, number) => {
            choose_narrow_program_of_literal(alloc, *op, of, *number)
        }
        Formula::Lookup(entries, index) => choose_narrow_program_of_lookup(alloc, entries, index),
        Formula::Select(a, relation, b, then, other) => {
            choose_narrow_program_of_select(alloc, a, *relation, b, then, other)
        }
        Formula::Stencil(stage, divisor, kernel) => {
            Ok(NarrowProgram::Stencil(*stage, *divisor, copy_kernel(kernel)?))
        }
    }
}

/// A program for a formula.
///
/// # Errors
///
/// Fails only where memory is refused.
#[cycle(choose_narrow_program)]
pub fn choose_narrow_program(alloc: Global, formula: &Formula) -> Result<NarrowProgram, AllocError>
    ensures { IfOk result (λ it. program_formula it ≡ formula_view formula.now) }
{
    match choose_narrow_program_if_sum(alloc, formula)? {
        Some(it) => Ok(it),
        None => choose_narrow_program_of_operation(alloc, formula),
    }
}

// A case with a program for its formula.
fn choose_narrow_case(alloc: Global, case: &JobCase) -> Result<NarrowCase, AllocError>
    ensures { IfOk result (λ it. program_case it ≡ case_view case.now) }
{
    Ok(NarrowCase {
        area: *case.area(),
        tests: case.tests().to_vec(alloc)?,
        program: choose_narrow_program(alloc, case.formula())?,
    })
}

// All cases of a function.
fn choose_narrow_cases(alloc: Global, cases: &[JobCase]) -> Result<Vec<NarrowCase>, AllocError>
    ensures { IfOk result (λ made. map program_case made.items ≡ map case_view cases.now) }
{
    let mut made = Vec::with_capacity(alloc, cases.len())?;
    for case in cases {
        made.push(choose_narrow_case(alloc, case)?)?;
    }
    Ok(made)
}

// A program for what holds outside the cases, if there is something.
fn choose_narrow_program_otherwise(
    alloc: Global,
    otherwise: &Option<Formula>,
) -> Result<Option<NarrowProgram>, AllocError>
    ensures { IfOk result (λ made. option_map program_formula made
        ≡ option_map formula_view otherwise.now) }
{
    match otherwise {
        Some(formula) => Ok(Some(choose_narrow_program(alloc, formula)?)),
        None => Ok(None),
    }
}

/// A function with programs for its formulas.
///
/// # Errors
///
/// Fails only where memory is refused.
pub fn choose_narrow_function(
    alloc: Global,
    function: &Function,
) -> Result<NarrowFunction, AllocError>
    ensures { IfOk result (λ made. IsProgramOf made (map case_view function.now.cases.items)
        (option_map formula_view function.now.otherwise)) }
{
    Ok(NarrowFunction {
        cases: choose_narrow_cases(alloc, function.cases())?,
        otherwise: choose_narrow_program_otherwise(alloc, function.otherwise())?,
    })
}
