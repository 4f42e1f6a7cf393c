#![tactic(auto)]
//! Whether formulas are well-formed.

ghost use Rattle.std.specs.Prelude.{◌≡◌, [], Some, IsTrue, IfSome, FitsSigned};
ghost use Rattle.std.specs.Int.{w32};
ghost use Rattle.domains.specs.Index.{IsIndex};
ghost use Rattle.job.specs.Pipeline.{function};
ghost use Rattle.tables.specs.Entries.{IsEntries};
ghost use Rattle.job.specs.Views.{body_view, formula_view};
ghost use Rattle.job.specs.WellFormed.{IsDivisor, IsFormula, IsLiteral};

use crate::part_kernels::is_part_kernel;
use domains::Index;
use job::{Body, Formula};
use operators::LiteralOp;
use tables::TableEntries;

/// The formula of a function that has one for all points.
pub fn find_only_part_formula(body: &Body) -> Option<&Formula>
    ensures { IfSome result (λ formula. body_view body.now ≡ function [] (Some (formula_view formula.now))) }
{
    match body {
        Body::Function(function) if function.cases().is_empty() => function.otherwise().as_ref(),
        _ => None,
    }
}

// Whether a number divides.
fn is_part_divisor(number: u32) -> bool
    ensures { IsTrue result → IsDivisor number }
{
    1 <= number && number < 1 << 31
}

// Whether an operator may have this number of the text.
fn is_part_literal(op: LiteralOp, number: u32) -> bool
    ensures { IsTrue result → IsLiteral op number }
{
    match op {
        LiteralOp::Div | LiteralOp::Rem => is_part_divisor(number),
        LiteralOp::Shl | LiteralOp::Shr => number <= 31,
    }
}

// Each index lies within its limits.
fn is_part_read_index(index: &Index) -> bool
    ensures { IsTrue result → IsIndex index.now }
{
    index.div() >= 1
}

// Each number fits in 32 bits.
fn is_part_number(number: i32) -> bool
    ensures { IsTrue result → FitsSigned w32 number }
{
    i32::MIN <= number
}

// Each table of a formula has entries within their limits.
fn is_part_table(entries: &TableEntries) -> bool
    ensures { IsTrue result → IsEntries entries.now }
{
    !entries.values().is_empty()
}

/// Whether the numbers of a formula lie within their limits.
pub(crate) fn is_part_formula(formula: &Formula) -> bool
    ensures { IsTrue result → IsFormula (formula_view formula.now) }
{
    match formula {
        Formula::Number(number) => is_part_number(*number),
        Formula::Coordinate(_) => true,
        Formula::Read(_, row, column) => {
            if !is_part_read_index(row) {
                return false;
            }
            is_part_read_index(column)
        }
        Formula::Unary(_, of) => is_part_formula(of),
        Formula::Binary(_, left, right) => {
            if !is_part_formula(left) {
                return false;
            }
            is_part_formula(right)
        }
        Formula::Ternary(_, first, second, third) => {
            if !is_part_formula(first) || !is_part_formula(second) {
                return false;
            }
            is_part_formula(third)
        }
        Formula::Literal(op, of, number) => {
            if !is_part_literal(*op, *number) {
                return false;
            }
            is_part_formula(of)
        }
        Formula::Lookup(entries, index) => {
            if !is_part_table(entries) {
                return false;
            }
            is_part_formula(index)
        }
        Formula::Select(left, _, right, then, otherwise) => {
            if !is_part_formula(left) || !is_part_formula(right) {
                return false;
            }
            if !is_part_formula(then) {
                return false;
            }
            is_part_formula(otherwise)
        }
        Formula::Stencil(_, divisor, kernel) => {
            if !is_part_divisor(*divisor) {
                return false;
            }
            is_part_kernel(kernel)
        }
    }
}
