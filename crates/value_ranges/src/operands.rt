#![tactic(auto)]
//! Ranges of what operators make of numbers that lie in ranges.

ghost use Rattle.std.specs.Prelude.{◌≡◌, ◌*ℤ◌, ◌≤ℤ◌, ℤ, pos, FitsSigned};
ghost use Rattle.std.specs.Int.{w32};
ghost use Rattle.domains.specs.Arithmetic.{floor_div};
ghost use Rattle.operators.specs.Limits.{IsDivisor, IsLiteral};
ghost use Rattle.operators.specs.Values.{unary_value, binary_value, ternary_value, literal_value};
ghost use Rattle.operators.specs.declared.operator.BinaryOp.TheVariants.{Mul};
ghost use Rattle.operators.specs.declared.operator.LiteralOp.TheVariants.{Shr};
ghost use Rattle.value_ranges.specs.Ranges.{InRange};
ghost use Rattle.value_ranges.specs.inside.Found.{IsBetween};

use crate::value_range::{ValueRange, full_value_range, wrap_value_range};
use domains::arithmetic::{floor_div, floor_shr};
use operators::{BinaryOp, LiteralOp, TernaryOp, UnaryOp};

// The exact product of two ends.
fn multiply_value_range_ends(a: i32, b: i32) -> i64
    ensures { result ≡ a *ℤ b }
{
    i64::from(a) * i64::from(b)
}

// The least of four ends.
fn find_least_value_range_end(first: i64, second: i64, third: i64, fourth: i64) -> i64
    ensures first { result ≤ℤ first }
    ensures second { result ≤ℤ second }
    ensures third { result ≤ℤ third }
    ensures fourth { result ≤ℤ fourth }
{
    first.min(second).min(third.min(fourth))
}

// The greatest of four ends.
fn find_greatest_value_range_end(first: i64, second: i64, third: i64, fourth: i64) -> i64
    ensures first { first ≤ℤ result }
    ensures second { second ≤ℤ result }
    ensures third { third ≤ℤ result }
    ensures fourth { fourth ≤ℤ result }
{
    first.max(second).max(third.max(fourth))
}

// The least and the greatest product of two numbers in ranges.
pub(crate) fn find_value_range_product_ends(a: ValueRange, b: ValueRange) -> (i64, i64)
    ensures { (v w : ℤ) → InRange a v → InRange b w → IsBetween result (v *ℤ w) }
{
    let first = multiply_value_range_ends(a.lo, b.lo);
    let second = multiply_value_range_ends(a.lo, b.hi);
    let third = multiply_value_range_ends(a.hi, b.lo);
    let fourth = multiply_value_range_ends(a.hi, b.hi);
    let least = find_least_value_range_end(first, second, third, fourth);
    let greatest = find_greatest_value_range_end(first, second, third, fourth);
    (least, greatest)
}

// The range of a product.
fn find_value_range_of_product(a: ValueRange, b: ValueRange) -> ValueRange
    ensures { (v w : ℤ) → InRange a v → InRange b w → InRange result (binary_value Mul v w) }
{
    let (lo, hi) = find_value_range_product_ends(a, b);
    wrap_value_range(lo, hi)
}

// The range of the product of a number with itself.
pub(crate) fn find_value_range_of_square(a: ValueRange) -> ValueRange
    ensures { (v : ℤ) → InRange a v → InRange result (binary_value Mul v v) }
{
    let (lo, hi) = find_value_range_product_ends(a, a);
    wrap_value_range(lo.max(0), hi)
}

// The range of what an operator makes of a number in a range.
pub(crate) fn find_value_range_of_unary(op: UnaryOp, a: ValueRange) -> ValueRange
    ensures { (v : ℤ) → InRange a v → InRange result (unary_value op v) }
{
    let (lo, hi) = (i64::from(a.lo), i64::from(a.hi));
    match op {
        UnaryOp::Neg => wrap_value_range(-hi, -lo),
        UnaryOp::Abs => wrap_value_range(lo.max(-hi).max(0), hi.max(-lo)),
    }
}

// The range of what an operator makes of two numbers in ranges.
pub(crate) fn find_value_range_of_binary(op: BinaryOp, a: ValueRange, b: ValueRange) -> ValueRange
    ensures { (v w : ℤ) → InRange a v → InRange b w → InRange result (binary_value op v w) }
{
    match op {
        BinaryOp::Add => wrap_value_range(
            i64::from(a.lo) + i64::from(b.lo),
            i64::from(a.hi) + i64::from(b.hi),
        ),
        BinaryOp::Sub => wrap_value_range(
            i64::from(a.lo) - i64::from(b.hi),
            i64::from(a.hi) - i64::from(b.lo),
        ),
        BinaryOp::Mul => find_value_range_of_product(a, b),
        BinaryOp::Min => ValueRange {
            lo: a.lo.min(b.lo),
            hi: a.hi.min(b.hi),
        },
        BinaryOp::Max => ValueRange {
            lo: a.lo.max(b.lo),
            hi: a.hi.max(b.hi),
        },
    }
}

// The range of what an operator makes of three numbers in ranges.
pub(crate) fn find_value_range_of_ternary(
    op: TernaryOp,
    a: ValueRange,
    least: ValueRange,
    greatest: ValueRange,
) -> ValueRange
    ensures { (v l h : ℤ) → InRange a v → InRange least l → InRange greatest h
        → InRange result (ternary_value op v l h) }
{
    match op {
        TernaryOp::Clamp => ValueRange {
            lo: a.lo.max(least.lo).min(greatest.lo),
            hi: a.hi.max(least.hi).min(greatest.hi),
        },
    }
}

// The range of a quotient that is rounded down.
pub(crate) fn find_value_range_of_quotient(a: ValueRange, divisor: u32) -> ValueRange
    ensures { (v : ℤ) → IsDivisor divisor → InRange a v → InRange result (floor_div v (pos divisor)) }
{
    if divisor == 0 || divisor > 2147483647 {
        return full_value_range();
    }
    let divisor = divisor as i32;
    ValueRange {
        lo: floor_div(a.lo, divisor),
        hi: floor_div(a.hi, divisor),
    }
}

// The range of a number that is shifted to the right.
fn find_value_range_of_shift(a: ValueRange, count: u32) -> ValueRange
    ensures { (v : ℤ) → IsLiteral Shr count → InRange a v → InRange result (literal_value Shr v count) }
{
    if count > 31 {
        return full_value_range();
    }
    ValueRange {
        lo: floor_shr(a.lo, count),
        hi: floor_shr(a.hi, count),
    }
}

// The range of what an operator makes of a number in a range and of a literal.
pub(crate) fn find_value_range_of_literal(op: LiteralOp, a: ValueRange, n: u32) -> ValueRange
    ensures { (v : ℤ) → IsLiteral op n → FitsSigned w32 v → InRange a v
        → InRange result (literal_value op v n) }
{
    match op {
        LiteralOp::Div => find_value_range_of_quotient(a, n),
        LiteralOp::Shr => find_value_range_of_shift(a, n),
        LiteralOp::Rem | LiteralOp::Shl => full_value_range(),
    }
}
