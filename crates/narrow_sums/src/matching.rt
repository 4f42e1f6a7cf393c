#![tactic(auto)]
//! The terms that formulas are.

ghost use Rattle.std.specs.Prelude.{◌≡◌, true, IfSome};
ghost use Rattle.operators.specs.declared.operator.BinaryOp.TheVariants.{Sub};
ghost use Rattle.job.specs.Formula.{number, binary};
ghost use Rattle.job.specs.Views.{formula_view};
ghost use Rattle.narrow_sums.specs.NarrowSums.{Same16, adds, signed};
ghost use Rattle.narrow_sums.specs.SumTerms.{read_formula, difference_formula, part_formula, term_formula, times};

use crate::reads::match_narrow_sum_read;
use crate::terms::{NarrowSumDifference, NarrowSumPart, NarrowSumRead, NarrowSumTerm};
use job::Formula;
use operators::{BinaryOp, TernaryOp};

/// A number of the text that fits in 16 bits.
pub(crate) fn match_narrow_sum_term_number(formula: &Formula) -> Option<i16>
    ensures { IfSome result (λ it. formula_view formula.now ≡ number it) }
{
    match formula {
        Formula::Number(number) if -32768 <= *number && *number <= 32767 => Some(*number as i16),
        _ => None,
    }
}

// The difference of two reads whose samples can be borrowed.
fn match_difference_of_narrow_sum_reads(formula: &Formula) -> Option<(NarrowSumRead, NarrowSumRead)>
    ensures { IfSome result (λ it. formula_view formula.now
        ≡ binary Sub (read_formula it.0) (read_formula it.1)) }
{
    match formula {
        Formula::Binary(BinaryOp::Sub, left, right) => Some((
            match_narrow_sum_read(left)?,
            match_narrow_sum_read(right)?,
        )),
        _ => None,
    }
}

// A clamped difference.
fn match_clamped_narrow_sum_part(formula: &Formula) -> Option<NarrowSumDifference>
    ensures { IfSome result (λ it. formula_view formula.now ≡ difference_formula it) }
{
    match formula {
        Formula::Ternary(TernaryOp::Clamp, of, low, high) => {
            let (left, right) = match_difference_of_narrow_sum_reads(of)?;
            Some(NarrowSumDifference {
                left,
                right,
                low: match_narrow_sum_term_number(low)?,
                high: match_narrow_sum_term_number(high)?,
            })
        }
        _ => None,
    }
}

// A read or a clamped difference.
fn match_narrow_sum_part(formula: &Formula) -> Option<NarrowSumPart>
    ensures { IfSome result (λ it. formula_view formula.now ≡ part_formula it) }
{
    match match_narrow_sum_read(formula) {
        Some(read) => Some(NarrowSumPart::Read(read)),
        None => Some(NarrowSumPart::Difference(match_clamped_narrow_sum_part(formula)?)),
    }
}

// A factor, and what it multiplies. A factor of 1 is not written.
fn split_narrow_sum_term(formula: &Formula) -> Option<(i16, &Formula)>
    ensures { IfSome result (λ it. formula_view formula.now ≡ times it.0 (formula_view it.1.now)) }
{
    match formula {
        Formula::Binary(BinaryOp::Mul, factor, of) => match match_narrow_sum_term_number(factor)? {
            1 => None,
            factor => Some((factor, &**of)),
        },
        _ => Some((1, formula)),
    }
}

/// Whether an operator adds or subtracts.
pub(crate) fn is_narrow_sum_row_operator(op: BinaryOp) -> bool
    ensures { result ≡ adds op }
{
    match op {
        BinaryOp::Add | BinaryOp::Sub => true,
        BinaryOp::Mul | BinaryOp::Min | BinaryOp::Max => false,
    }
}

// A factor, with the other sign if the operator subtracts, wrapped at 16 bits.
#[tactic(auto, using(std::proofs::lemmas::Int::wraps))]
fn sign_narrow_sum_term_factor(op: BinaryOp, factor: i16) -> i16
    ensures { Same16 result (signed op factor) }
{
    match op {
        BinaryOp::Sub => factor.wrapping_neg(),
        BinaryOp::Add | BinaryOp::Mul | BinaryOp::Min | BinaryOp::Max => factor,
    }
}

/// The term that a formula is, with the operator that joins it to a sum.
pub(crate) fn match_narrow_sum_term(op: BinaryOp, formula: &Formula) -> Option<NarrowSumTerm>
    requires { adds op ≡ true }
    ensures op { IfSome result (λ it. it.op ≡ op) }
    ensures formula { IfSome result (λ it. formula_view formula.now ≡ term_formula it) }
{
    let (factor, of) = split_narrow_sum_term(formula)?;
    let part = match_narrow_sum_part(of)?;
    let weight = sign_narrow_sum_term_factor(op, factor);
    Some(NarrowSumTerm {
        op,
        factor,
        weight,
        part,
    })
}
