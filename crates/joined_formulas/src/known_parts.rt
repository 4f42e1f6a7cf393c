#![tactic(auto)]
//! Parts of formulas that a stage is known to have: at the point itself, or at other indices.

ghost use Rattle.std.specs.Prelude.{◌≡◌, ℤ, IsTrue, IfSome};
ghost use Rattle.domains.specs.Index.{IsIndex, index_at};
ghost use Rattle.job.specs.Formula.{read};
ghost use Rattle.job.specs.Views.{formula_view};
ghost use Rattle.joined_formulas.specs.Joins.{Joins};
ghost use Rattle.joined_formulas.specs.inside.Parts.{IsPartAt, IsPartRead};

use crate::indices::{compose_joined_indices, is_own_index};
use crate::known::StageFormula;
use domains::{Index, Span};
use job::{Formula, Kernel, KernelFactors};
use tables::TableEntries;

// The indices of the first read of a formula.
fn find_first_joined_read(formula: &Formula) -> Option<(Index, Index)> {
    match formula {
        Formula::Number(_) | Formula::Coordinate(_) | Formula::Stencil(_, _, _) => None,
        Formula::Read(_, row, column) => Some((*row, *column)),
        Formula::Unary(_, of) | Formula::Literal(_, of, _) | Formula::Lookup(_, of) => {
            find_first_joined_read(of)
        }
        Formula::Binary(_, left, right) => {
            let found = find_first_joined_read(left);
            if found.is_some() {
                return found;
            }
            find_first_joined_read(right)
        }
        Formula::Ternary(_, first, second, third) => {
            let found = find_first_joined_read(first);
            if found.is_some() {
                return found;
            }
            let found = find_first_joined_read(second);
            if found.is_some() {
                return found;
            }
            find_first_joined_read(third)
        }
        Formula::Select(left, _, right, then, otherwise) => {
            let found = find_first_joined_read(left);
            if found.is_some() {
                return found;
            }
            let found = find_first_joined_read(right);
            if found.is_some() {
                return found;
            }
            let found = find_first_joined_read(then);
            if found.is_some() {
                return found;
            }
            find_first_joined_read(otherwise)
        }
    }
}

// The index at which an index that is a step is another one.
fn find_joined_part_index(own: &Index, other: &Index) -> Option<Index>
    ensures { IfSome result IsIndex }
{
    let back = own.add().checked_mul(other.div())?;
    Index::new(other.mul(), other.add().checked_sub(back)?, other.div())
}

// The indices at which a part may be a formula, by the first read of each.
fn find_joined_part_indices(part: &Formula, formula: &Formula) -> Option<(Index, Index)>
    ensures row { IfSome result (λ found. IsIndex found.0) }
    ensures column { IfSome result (λ found. IsIndex found.1) }
{
    match (
        find_first_joined_read(part),
        find_first_joined_read(formula),
    ) {
        (Some((row, column)), Some((other_row, other_column))) => Some((
            find_joined_part_index(&row, &other_row)?,
            find_joined_part_index(&column, &other_column)?,
        )),
        (None, None) => Some((Index::new(1, 0, 1)?, Index::new(1, 0, 1)?)),
        _ => None,
    }
}

// Whether an index is at each number what another one is at the number of the first index.
fn is_joined_part_index(by: &Index, own: &Index, other: &Index) -> bool
    ensures { IsTrue result → (v : ℤ) → index_at other.now v ≡ index_at own.now (index_at by.now v) }
{
    match compose_joined_indices(by, own) {
        Some(index) => index == *other,
        None => false,
    }
}

// Whether two lists have the same numbers.
fn is_same_joined_list(numbers: &[i32], others: &[i32]) -> bool
    ensures { IsTrue result → others.now ≡ numbers.now }
{
    numbers == others
}

// Whether two spans are the same.
fn is_same_joined_span(span: &Span, other: &Span) -> bool
    ensures { IsTrue result → other.now ≡ span.now }
{
    *span == *other
}

// Whether two tables have the same entries.
fn is_same_joined_table(entries: &TableEntries, other: &TableEntries) -> bool
    ensures { IsTrue result → other.now ≡ entries.now }
{
    if !is_same_joined_span(entries.span(), other.span()) {
        return false;
    }
    is_same_joined_list(entries.values(), other.values())
}

// Whether two rows of kernels are the same.
fn is_same_joined_row(row: &KernelFactors, other: &KernelFactors) -> bool
    ensures { IsTrue result → other.now ≡ row.now }
{
    is_same_joined_list(row.as_slice(), other.as_slice())
}

// Whether two kernels are the same.
fn is_same_joined_kernel(kernel: &Kernel, other: &Kernel) -> bool
    ensures { IsTrue result → other.now ≡ kernel.now }
{
    let (rows, others) = (kernel.as_slice(), other.as_slice());
    if rows.len() != others.len() {
        return false;
    }
    for place in 0..rows.len() {
        if !is_same_joined_row(&rows[place], &others[place]) {
            return false;
        }
    }
    true
}

// Whether a formula is at each point what a part is at the point of these indices.
fn is_joined_part(row: &Index, column: &Index, part: &Formula, formula: &Formula) -> bool
    ensures { IsTrue result → IsPartAt row.now column.now (formula_view part.now) (formula_view formula.now) }
{
    match (part, formula) {
        (Formula::Number(number), Formula::Number(other)) => *number == *other,
        (Formula::Coordinate(axis), Formula::Coordinate(other)) => {
            if !is_own_index(row) || !is_own_index(column) {
                return false;
            }
            *axis == *other
        }
        (
            Formula::Read(stage, own_row, own_column),
            Formula::Read(other, other_row, other_column),
        ) => {
            if *stage != *other || !is_joined_part_index(row, own_row, other_row) {
                return false;
            }
            is_joined_part_index(column, own_column, other_column)
        }
        (Formula::Unary(op, of), Formula::Unary(other, other_of)) => {
            if *op != *other {
                return false;
            }
            is_joined_part(row, column, of, other_of)
        }
        (Formula::Binary(op, left, right), Formula::Binary(other, other_left, other_right)) => {
            if *op != *other || !is_joined_part(row, column, left, other_left) {
                return false;
            }
            is_joined_part(row, column, right, other_right)
        }
        (
            Formula::Ternary(op, first, second, third),
            Formula::Ternary(other, other_first, other_second, other_third),
        ) => {
            if *op != *other || !is_joined_part(row, column, first, other_first) {
                return false;
            }
            if !is_joined_part(row, column, second, other_second) {
                return false;
            }
            is_joined_part(row, column, third, other_third)
        }
        (Formula::Literal(op, of, number), Formula::Literal(other, other_of, other_number)) => {
            if *op != *other || *number != *other_number {
                return false;
            }
            is_joined_part(row, column, of, other_of)
        }
        (Formula::Lookup(entries, index), Formula::Lookup(other, other_index)) => {
            if !is_same_joined_table(entries, other) {
                return false;
            }
            is_joined_part(row, column, index, other_index)
        }
        (
            Formula::Select(left, relation, right, then, otherwise),
            Formula::Select(other_left, other, other_right, other_then, other_otherwise),
        ) => {
            if *relation != *other || !is_joined_part(row, column, left, other_left) {
                return false;
            }
            if !is_joined_part(row, column, right, other_right) {
                return false;
            }
            if !is_joined_part(row, column, then, other_then) {
                return false;
            }
            is_joined_part(row, column, otherwise, other_otherwise)
        }
        (
            Formula::Stencil(stage, divisor, kernel),
            Formula::Stencil(other, other_divisor, other_kernel),
        ) => {
            if *stage != *other || *divisor != *other_divisor {
                return false;
            }
            if !is_own_index(row) || !is_own_index(column) {
                return false;
            }
            is_same_joined_kernel(kernel, other_kernel)
        }
        _ => false,
    }
}

// The read of a stage that stands for a formula, if its own one is a part at some indices.
fn find_joined_part_of_stage(known: &StageFormula, formula: &Formula) -> Option<Formula>
    ensures { IfSome result (λ made. IsPartRead known.now (formula_view formula.now) (formula_view made)) }
{
    let (row, column) = find_joined_part_indices(&known.formula, formula)?;
    if is_joined_part(&row, &column, &known.formula, formula) {
        Some(Formula::Read(known.stage, row, column))
    } else {
        None
    }
}

/// The read that stands for a formula, if a stage is known that has its values: at the point itself, or at other indices.
pub fn find_joined_part(known: &[StageFormula], formula: &Formula) -> Option<Formula>
    ensures { IfSome result (λ made. Joins known.now (formula_view formula.now) (formula_view made)) }
{
    for each in known {
        if each.whole {
            if let Some(made) = find_joined_part_of_stage(each, formula) {
                return Some(made);
            }
        }
    }
    None
}
