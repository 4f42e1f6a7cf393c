#![tactic(auto)]
//! The center, the quotient and the number of a formula that is one sum.

ghost use Rattle.std.specs.Prelude.{◌≡◌, ℤ, pos, IfSome};
ghost use Rattle.domains.specs.Arithmetic.{floor_div};
ghost use Rattle.job.specs.Views.{formula_view};
ghost use Rattle.operators.specs.Limits.{IsDivisor};
ghost use Rattle.operators.specs.Values.{literal_value};
ghost use Rattle.narrow_sums.specs.SumRows.{with_number, with_quotient, with_center};

use crate::matching::match_narrow_sum_term_number;
use crate::reads::match_narrow_sum_read;
use crate::sum_row::NarrowSumQuotient;
use crate::terms::NarrowSumRead;
use job::Formula;
use operators::{BinaryOp, LiteralOp};

/// The read that a quotient is added to, if there is one, and the rest of the formula.
pub(crate) fn split_narrow_sum_row_center(formula: &Formula) -> (Option<NarrowSumRead>, &Formula)
    ensures { with_center result.0 (formula_view result.1.now) ≡ formula_view formula.now }
{
    let Formula::Binary(BinaryOp::Add, own, rest) = formula else {
        return (None, formula);
    };
    let Formula::Literal(_, _, _) = &**rest else {
        return (None, formula);
    };
    match match_narrow_sum_read(own) {
        Some(read) => (Some(read), &**rest),
        None => (None, formula),
    }
}

// The divisor of an operator with a literal, if it divides and rounds down.
fn find_narrow_sum_row_divisor(op: LiteralOp, literal: u32) -> Option<u32>
    ensures divisor { IfSome result IsDivisor }
    ensures quotients { IfSome result (λ divisor. (v : ℤ)
        → literal_value op v literal ≡ floor_div v (pos divisor)) }
{
    match op {
        LiteralOp::Div if 0 < literal && literal < 65536 => Some(literal),
        LiteralOp::Shr if literal < 16 => Some(1 << literal),
        LiteralOp::Div | LiteralOp::Shr | LiteralOp::Rem | LiteralOp::Shl => None,
    }
}

// The quotient that an operator makes with a literal, if it divides and rounds down.
fn find_narrow_sum_quotient(op: LiteralOp, literal: u32) -> Option<NarrowSumQuotient>
    ensures op { IfSome result (λ it. it.op ≡ op) }
    ensures literal { IfSome result (λ it. it.literal ≡ literal) }
{
    let divisor = find_narrow_sum_row_divisor(op, literal)?;
    Some(NarrowSumQuotient {
        op,
        literal,
        divisor,
    })
}

/// The quotient that a formula is, if it is one, and what is divided.
pub(crate) fn split_narrow_sum_row_quotient(
    formula: &Formula,
) -> (Option<NarrowSumQuotient>, &Formula)
    ensures { with_quotient result.0 (formula_view result.1.now) ≡ formula_view formula.now }
{
    let Formula::Literal(op, of, literal) = formula else {
        return (None, formula);
    };
    match find_narrow_sum_quotient(*op, *literal) {
        Some(quotient) => (Some(quotient), &**of),
        None => (None, formula),
    }
}

/// The number that is added to a sum, if there is one, and the sum.
pub(crate) fn split_narrow_sum_row_number(formula: &Formula) -> (Option<i16>, &Formula)
    ensures { with_number result.0 (formula_view result.1.now) ≡ formula_view formula.now }
{
    let Formula::Binary(BinaryOp::Add, sum, last) = formula else {
        return (None, formula);
    };
    match match_narrow_sum_term_number(last) {
        Some(number) => (Some(number), &**sum),
        None => (None, formula),
    }
}
