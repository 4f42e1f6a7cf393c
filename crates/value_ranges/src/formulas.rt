#![tactic(auto)]
//! Ranges of formulas.

ghost use Rattle.std.specs.Prelude.{◌≡◌, ℤ, pos, true, false};
ghost use Rattle.domains.specs.Arithmetic.{wrapped, floor_div};
ghost use Rattle.job.specs.Formula.{binary};
ghost use Rattle.job.specs.Values.{Valuation, weighted_sum, formula_value};
ghost use Rattle.job.specs.Views.{formula_view};
ghost use Rattle.job.specs.WellFormed.{IsDivisor};
ghost use Rattle.value_ranges.specs.Narrow.{IsNarrowStencil};
ghost use Rattle.value_ranges.specs.Ranges.{InRange, IsNarrowRange, full_range};
ghost use Rattle.value_ranges.specs.inside.Found.{AreUnderKernel, IsFound, IsWider};

use crate::kernels::{find_value_range_of_kernel_sum, is_narrow_kernel};
use crate::operands::{
    find_value_range_of_binary, find_value_range_of_literal, find_value_range_of_quotient,
    find_value_range_of_square, find_value_range_of_ternary, find_value_range_of_unary,
};
use crate::table_entries::find_value_range_of_table;
use crate::value_range::{
    ValueRange, full_value_range, is_narrow_value_range, join_value_ranges, value_range_at,
};
use domains::Index;
use job::{Formula, Kernel};
use operators::BinaryOp;

// The range of the values of a formula, and whether each formula in it is computed in 16 bits.
#[derive(Clone, Copy, Debug)]
pub(crate) struct FoundRange {
    pub(crate) range: ValueRange,
    pub(crate) narrow: bool,
}

// All numbers, of a formula that is not computed in 16 bits.
fn found_full_value_range() -> FoundRange
    ensures range { result.range ≡ full_range }
    ensures narrow { result.narrow ≡ false }
{
    FoundRange {
        range: full_value_range(),
        narrow: false,
    }
}

// The range of a formula, whose operands are computed in 16 bits or not.
fn found_value_range(range: ValueRange, operands: bool) -> FoundRange
    ensures range { result.range ≡ range }
    ensures operands { result.narrow ≡ true → operands ≡ true }
    ensures narrow { result.narrow ≡ true → IsNarrowRange result.range }
{
    FoundRange {
        range,
        narrow: operands && is_narrow_value_range(&range),
    }
}

// Whether two formulas are both computed in 16 bits.
pub(crate) fn are_both_narrow(first: bool, second: bool) -> bool
    ensures { result ≡ true → (first ≡ true) × (second ≡ true) }
{
    first && second
}

// Whether two indices are the same.
fn are_same_indices_in_value_range(first: &Index, second: &Index) -> bool
    ensures { result ≡ true → first.now ≡ second.now }
{
    *first == *second
}

// Whether two formulas are a read of the same number.
fn are_same_read_in_value_range(first: &Formula, second: &Formula) -> bool
    ensures { result ≡ true → (env : Valuation) (r c : ℤ)
        → formula_value env (formula_view first.now) r c
        ≡ formula_value env (formula_view second.now) r c }
{
    let Formula::Read(stage, row, column) = first else {
        return false;
    };
    let Formula::Read(other, other_row, other_column) = second else {
        return false;
    };
    if *stage != *other || !are_same_indices_in_value_range(row, other_row) {
        return false;
    }
    are_same_indices_in_value_range(column, other_column)
}

// The range of an operator's formula on two formulas whose ranges are known.
fn find_value_range_of_binary_formula(
    op: BinaryOp,
    first: &Formula,
    second: &Formula,
    left: ValueRange,
    right: ValueRange,
) -> ValueRange
    ensures { (env : Valuation) (r c : ℤ)
        → InRange left (formula_value env (formula_view first.now) r c)
        → InRange right (formula_value env (formula_view second.now) r c)
        → InRange result (formula_value env (binary op (formula_view first.now) (formula_view second.now)) r c) }
{
    match op {
        BinaryOp::Mul if are_same_read_in_value_range(first, second) => find_value_range_of_square(
            left,
        ),
        _ => find_value_range_of_binary(op, left, right),
    }
}

// What holds of both.
pub(crate) fn join_found_value_ranges(first: FoundRange, second: FoundRange) -> FoundRange
    ensures first { IsWider first result }
    ensures second { IsWider second result }
{
    FoundRange {
        range: join_value_ranges(first.range, second.range),
        narrow: first.narrow && second.narrow,
    }
}

// What is found of a stencil.
fn find_value_range_of_stencil(read: ValueRange, divisor: u32, kernel: &Kernel) -> FoundRange
    ensures range { (f : ℤ → ℤ → ℤ) (r c : ℤ) → IsDivisor divisor → AreUnderKernel read kernel.now f r c
        → InRange result.range (floor_div (wrapped (weighted_sum kernel.now f r c)) (pos divisor)) }
    ensures narrow { result.narrow ≡ true → (f : ℤ → ℤ → ℤ) (r c : ℤ) → AreUnderKernel read kernel.now f r c
        → IsNarrowStencil f divisor kernel.now r c }
{
    let range = find_value_range_of_quotient(find_value_range_of_kernel_sum(kernel, read), divisor);
    FoundRange {
        range,
        narrow: is_narrow_kernel(kernel, divisor, read),
    }
}

// The range of the values of a formula, and whether each formula in it is computed in 16 bits.
pub(crate) fn find_value_range_of_formula(formula: &Formula, ranges: &[ValueRange]) -> FoundRange
    ensures { IsFound ranges.now (formula_view formula.now) result }
{
    match formula {
        Formula::Number(n) => found_value_range(ValueRange { lo: *n, hi: *n }, true),
        Formula::Coordinate(_) => found_full_value_range(),
        Formula::Read(stage, _, _) => found_value_range(value_range_at(ranges, *stage), true),
        Formula::Unary(op, a) => {
            let operand = find_value_range_of_formula(a, ranges);
            found_value_range(
                find_value_range_of_unary(*op, operand.range),
                operand.narrow,
            )
        }
        Formula::Literal(op, a, n) => {
            let operand = find_value_range_of_formula(a, ranges);
            found_value_range(
                find_value_range_of_literal(*op, operand.range, *n),
                operand.narrow,
            )
        }
        Formula::Binary(op, a, b) => {
            let left = find_value_range_of_formula(a, ranges);
            let right = find_value_range_of_formula(b, ranges);
            found_value_range(
                find_value_range_of_binary_formula(*op, a, b, left.range, right.range),
                are_both_narrow(left.narrow, right.narrow),
            )
        }
        Formula::Ternary(op, a, b, c) => {
            let first = find_value_range_of_formula(a, ranges);
            let second = find_value_range_of_formula(b, ranges);
            let third = find_value_range_of_formula(c, ranges);
            found_value_range(
                find_value_range_of_ternary(*op, first.range, second.range, third.range),
                are_both_narrow(are_both_narrow(first.narrow, second.narrow), third.narrow),
            )
        }
        Formula::Select(a, _, b, then, other) => {
            let left = find_value_range_of_formula(a, ranges);
            let right = find_value_range_of_formula(b, ranges);
            let first = find_value_range_of_formula(then, ranges);
            let second = find_value_range_of_formula(other, ranges);
            found_value_range(
                join_value_ranges(first.range, second.range),
                are_both_narrow(
                    are_both_narrow(left.narrow, right.narrow),
                    are_both_narrow(first.narrow, second.narrow),
                ),
            )
        }
        Formula::Lookup(table, _) => found_value_range(find_value_range_of_table(table), false),
        Formula::Stencil(stage, divisor, kernel) => {
            find_value_range_of_stencil(value_range_at(ranges, *stage), *divisor, kernel)
        }
    }
}
