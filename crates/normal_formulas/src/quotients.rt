#![tactic(auto)]
//! Quotients: those by powers of two are shifts, and a stencil has its own divisor.

ghost use Rattle.std.specs.Prelude.{◌≡◌, ◌≤◌, ◌^◌, IfOk, IfSome};
ghost use Rattle.operators.specs.declared.operator.LiteralOp.TheVariants.{Div, Shr};
ghost use Rattle.job.specs.Formula.{literal};
ghost use Rattle.job.specs.Views.{formula_view};
ghost use Rattle.normal_formulas.specs.Rewrites.{Rewrites};

use job::Formula;
use operators::LiteralOp;
use std::alloc::{AllocError, Global};

// The number of bits of which a divisor is the power of two, if it is one.
fn find_normal_shift(divisor: u32) -> Option<u32>
    ensures power { IfSome result (λ bits. divisor ≡ 2 ^ bits) }
    ensures few { IfSome result (λ bits. bits ≤ 31) }
{
    let bits = divisor.trailing_zeros();
    if bits < 31 && 1 << bits == divisor {
        Some(bits)
    } else {
        None
    }
}

// A formula that is shifted to the right. A stencil that is not divided yet is divided.
fn shift_normal_formula(alloc: Global, of: Formula, bits: u32) -> Result<Formula, AllocError>
    ensures { IfOk result (λ made. Rewrites (literal Shr (formula_view of) bits) (formula_view made)) }
{
    match of {
        Formula::Stencil(stage, 1, kernel) if bits < 31 => {
            Ok(Formula::Stencil(stage, 1 << bits, kernel))
        }
        of => Ok(Formula::Literal(LiteralOp::Shr, Box::new(alloc, of)?, bits)),
    }
}

// A formula that is divided by what is no power of two.
fn divide_normal_sum(alloc: Global, of: Formula, divisor: u32) -> Result<Formula, AllocError>
    ensures { IfOk result (λ made. Rewrites (literal Div (formula_view of) divisor) (formula_view made)) }
{
    match of {
        Formula::Stencil(stage, 1, kernel) => Ok(Formula::Stencil(stage, divisor, kernel)),
        of => Ok(Formula::Literal(LiteralOp::Div, Box::new(alloc, of)?, divisor)),
    }
}

// The quotient of a formula.
fn divide_normal_formula(alloc: Global, of: Formula, divisor: u32) -> Result<Formula, AllocError>
    ensures { IfOk result (λ made. Rewrites (literal Div (formula_view of) divisor) (formula_view made)) }
{
    match find_normal_shift(divisor) {
        Some(0) => Ok(of),
        Some(bits) => shift_normal_formula(alloc, of, bits),
        None => divide_normal_sum(alloc, of, divisor),
    }
}

/// An operation on a formula, whose right operand is a number of the text.
pub(crate) fn apply_normal_literal(
    alloc: Global,
    op: LiteralOp,
    of: Formula,
    number: u32,
) -> Result<Formula, AllocError>
    ensures { IfOk result (λ made. Rewrites (literal op (formula_view of) number) (formula_view made)) }
{
    match op {
        LiteralOp::Div => divide_normal_formula(alloc, of, number),
        LiteralOp::Shr => shift_normal_formula(alloc, of, number),
        LiteralOp::Rem | LiteralOp::Shl => {
            Ok(Formula::Literal(op, Box::new(alloc, of)?, number))
        }
    }
}
