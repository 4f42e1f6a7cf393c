#![tactic(auto)]
//! Formulas that are the same, part by part.

ghost use Rattle.std.specs.Prelude.{◌≡◌, true};
ghost use Rattle.job.specs.Views.{formula_view};

use domains::Index;
use job::Formula;

// Whether two indices are the same.
fn is_same_normal_index(first: &Index, second: &Index) -> bool
    ensures { result ≡ true → first.now ≡ second.now }
{
    *first == *second
}

/// Whether two formulas are one read.
pub(crate) fn is_same_normal_read(first: &Formula, second: &Formula) -> bool
    ensures { result ≡ true → formula_view first.now ≡ formula_view second.now }
{
    let Formula::Read(stage, row, column) = first else {
        return false;
    };
    let Formula::Read(other, other_row, other_column) = second else {
        return false;
    };
    if *stage != *other || !is_same_normal_index(row, other_row) {
        return false;
    }
    is_same_normal_index(column, other_column)
}

/// Whether two formulas are found to be the same: reads, numbers, and operators on one or two of them. Of any others the answer is no.
pub(crate) fn is_same_normal_formula(first: &Formula, second: &Formula) -> bool
    ensures { result ≡ true → formula_view first.now ≡ formula_view second.now }
{
    match (first, second) {
        (Formula::Number(number), Formula::Number(other)) => *number == *other,
        (Formula::Unary(op, of), Formula::Unary(other_op, other)) => {
            *op == *other_op && is_same_normal_formula(of, other)
        }
        (Formula::Binary(op, left, right), Formula::Binary(other, other_left, other_right)) => {
            *op == *other
                && is_same_normal_formula(left, other_left)
                && is_same_normal_formula(right, other_right)
        }
        (Formula::Literal(op, of, number), Formula::Literal(other_op, other, other_number)) => {
            *op == *other_op && *number == *other_number && is_same_normal_formula(of, other)
        }
        _ => is_same_normal_read(first, second),
    }
}
