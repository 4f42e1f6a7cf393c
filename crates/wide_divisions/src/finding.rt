#![tactic(auto)]
//! Which functions are steps of restoring divisions.

ghost use Rattle.std.specs.Prelude.{◌≡◌, ◌<◌, ◌^◌, ℤ, pos, [], Some, map, IfSome, IsTrue};
ghost use Rattle.std.specs.Option.{option_map, ForSome};
ghost use Rattle.wide_divisions.specs.Reads.{read_formula, IsAdjacentRead};
ghost use Rattle.job.specs.Formula.{binary, literal, number};
ghost use Rattle.job.specs.Views.{case_view, formula_view};
ghost use Rattle.operators.specs.declared.operator.BinaryOp.TheVariants.{Add, Sub, Min};
ghost use Rattle.operators.specs.declared.operator.LiteralOp.TheVariants.{Rem};
ghost use Rattle.wide_divisions.specs.DivisionSteps.{rest_formula, shifted_formula, step_formula};
ghost use Rattle.wide_divisions.specs.DivisionSteps.{IsRightRest, IsRightStep};
ghost use Rattle.wide_divisions.specs.declared.step.DivisionStepRest.TheVariants.{Capped};

use crate::reads::{DivisionStepRead, match_division_step_read};
use crate::step::{DivisionStep, DivisionStepRest};
use domains::Index;
use job::{Formula, Function};
use operators::{BinaryOp, LiteralOp, Relation};

// Whether two indices are the same.
fn is_same_division_step_index(a: &Index, b: &Index) -> bool
    ensures { IsTrue result → a.now ≡ b.now }
{
    a == b
}

// Whether a formula is this read.
fn is_division_step_read(formula: &Formula, read: &DivisionStepRead<'_>) -> bool
    ensures { IsTrue result → formula_view formula.now ≡ read_formula read.now }
{
    match formula {
        Formula::Read(stage, row, col) => {
            *stage == read.stage
                && is_same_division_step_index(row, read.row)
                && is_same_division_step_index(col, read.col)
        }
        _ => false,
    }
}

// The number of which a literal is two to the power, if it is such a power.
fn find_division_step_bits(literal: u32) -> Option<u32>
    ensures few { IfSome result (λ bits. bits < 32) }
    ensures power { IfSome result (λ bits. literal ≡ 2 ^ bits) }
{
    if literal == 0 {
        return None;
    }
    let bits = literal.ilog2();
    if literal == 1 << bits {
        Some(bits)
    } else {
        None
    }
}

// The number of which a number of the text is two to the power, if it is such a power.
fn match_division_step_power(formula: &Formula) -> Option<u32>
    ensures some { IfSome result (λ bits. formula_view formula.now ≡ number (pos (2 ^ bits))) }
    ensures few { IfSome result (λ bits. bits < 32) }
{
    match formula {
        Formula::Number(number) if *number > 0 => find_division_step_bits(*number as u32),
        _ => None,
    }
}

// Whether a formula is two to this power.
fn is_division_step_power(formula: &Formula, bits: u32) -> bool
    ensures { IsTrue result → formula_view formula.now ≡ number (pos (2 ^ bits)) }
{
    match match_division_step_power(formula) {
        Some(own) => own == bits,
        None => false,
    }
}

// A read, and the exponent of the power of two by which it is multiplied, if it is.
fn match_division_step_divisor(formula: &Formula) -> Option<(DivisionStepRead<'_>, Option<u32>)>
    ensures some { IfSome result (λ it. formula_view formula.now ≡ shifted_formula it.1 (read_formula it.0)) }
    ensures right { IfSome result (λ it. IsAdjacentRead it.0) }
    ensures few { IfSome result (λ it. ForSome it.1 (λ bits. bits < 32)) }
{
    match formula {
        Formula::Binary(BinaryOp::Mul, factor, of) => {
            let bits = match_division_step_power(factor)?;
            Some((match_division_step_read(of)?, Some(bits)))
        }
        _ => Some((match_division_step_read(formula)?, None)),
    }
}

// The lesser of a read and a number.
fn match_division_step_cap(formula: &Formula) -> Option<(DivisionStepRead<'_>, i32)>
    ensures some { IfSome result
        (λ it. formula_view formula.now ≡ binary Min (read_formula it.0) (number it.1)) }
    ensures right { IfSome result (λ it. IsAdjacentRead it.0) }
{
    let Formula::Binary(BinaryOp::Min, of, most) = formula else {
        return None;
    };
    match &**most {
        Formula::Number(most) => Some((match_division_step_read(of)?, *most)),
        _ => None,
    }
}

// What a step begins with.
fn match_division_step_rest(formula: &Formula) -> Option<DivisionStepRest<'_>>
    ensures some { IfSome result (λ it. formula_view formula.now ≡ rest_formula it) }
    ensures right { IfSome result IsRightRest }
{
    let Formula::Binary(BinaryOp::Mul, factor, capped) = formula else {
        return Some(DivisionStepRest::Read(match_division_step_read(formula)?));
    };
    match &**factor {
        Formula::Number(factor) => {
            let (read, most) = match_division_step_cap(capped)?;
            Some(DivisionStepRest::Capped {
                factor: *factor,
                read,
                most,
            })
        }
        _ => None,
    }
}

// Whether a formula is this read, at most a number.
fn is_division_step_cap(formula: &Formula, read: &DivisionStepRead<'_>, most: i32) -> bool
    ensures { IsTrue result → formula_view formula.now ≡ binary Min (read_formula read.now) (number most) }
{
    let Formula::Binary(BinaryOp::Min, of, other) = formula else {
        return false;
    };
    match &**other {
        Formula::Number(other) => *other == most && is_division_step_read(of, read),
        _ => false,
    }
}

// Whether a formula is a multiple of this read, at most a number.
fn is_capped_division_step_rest(
    formula: &Formula,
    factor: i32,
    read: &DivisionStepRead<'_>,
    most: i32,
) -> bool
    ensures { IsTrue result
        → formula_view formula.now ≡ rest_formula (Capped factor read.now most) }
{
    let Formula::Binary(BinaryOp::Mul, other, capped) = formula else {
        return false;
    };
    match &**other {
        Formula::Number(other) => *other == factor && is_division_step_cap(capped, read, most),
        _ => false,
    }
}

// Whether a formula is this beginning of a step.
fn is_division_step_rest(formula: &Formula, rest: &DivisionStepRest<'_>) -> bool
    ensures { IsTrue result → formula_view formula.now ≡ rest_formula rest.now }
{
    match rest {
        DivisionStepRest::Read(read) => is_division_step_read(formula, read),
        DivisionStepRest::Capped { factor, read, most } => {
            is_capped_division_step_rest(formula, *factor, read, *most)
        }
    }
}

// Whether a formula is this read, times two to this power, if there is one.
fn is_division_step_divisor(
    formula: &Formula,
    read: &DivisionStepRead<'_>,
    shift: Option<u32>,
) -> bool
    ensures { IsTrue result → formula_view formula.now ≡ shifted_formula shift (read_formula read.now) }
{
    match (formula, shift) {
        (Formula::Binary(BinaryOp::Mul, factor, of), Some(shift)) => {
            is_division_step_power(factor, shift) && is_division_step_read(of, read)
        }
        (_, None) => is_division_step_read(formula, read),
        _ => false,
    }
}

// The lower bits of what a step begins with, and how many they are.
fn match_division_step_remainder(formula: &Formula) -> Option<(DivisionStepRest<'_>, u32)>
    ensures some { IfSome result (λ it. formula_view formula.now ≡ literal Rem (rest_formula it.0) (2 ^ it.1)) }
    ensures right { IfSome result (λ it. IsRightRest it.0) }
    ensures few { IfSome result (λ it. it.1 < 32) }
{
    let Formula::Literal(LiteralOp::Rem, of, modulus) = formula else {
        return None;
    };
    Some((
        match_division_step_rest(of)?,
        find_division_step_bits(*modulus)?,
    ))
}

// The number that is added to a difference, and the operands of that.
fn match_division_step_difference(formula: &Formula) -> Option<(&Formula, &Formula, i32)>
    ensures { IfSome result (λ it. formula_view formula.now
        ≡ binary Add (binary Sub (formula_view it.0.now) (formula_view it.1.now)) (number it.2)) }
{
    let Formula::Binary(BinaryOp::Add, difference, last) = formula else {
        return None;
    };
    match (&**difference, &**last) {
        (Formula::Binary(BinaryOp::Sub, from, subtracted), Formula::Number(digit)) => {
            Some((from, subtracted, *digit))
        }
        _ => None,
    }
}

// A formula that is a step of a division.
fn match_division_step(formula: &Formula) -> Option<DivisionStep<'_>>
    ensures some { IfSome result (λ it. formula_view formula.now ≡ step_formula it) }
    ensures right { IfSome result IsRightStep }
{
    let Formula::Select(left, Relation::AtMost, right, first, second) = formula else {
        return None;
    };
    let (divisor, shift) = match_division_step_divisor(left)?;
    let (rest, bits) = match_division_step_remainder(right)?;
    let (from, subtracted, digit) = match_division_step_difference(first)?;
    if is_division_step_rest(from, &rest)
        && is_division_step_divisor(subtracted, &divisor, shift)
        && is_division_step_rest(second, &rest)
    {
        Some(DivisionStep {
            rest,
            divisor,
            shift,
            bits,
            digit,
        })
    } else {
        None
    }
}

/// The step of a division that a function is everywhere, if it is one.
pub fn find_division_step(function: &Function) -> Option<DivisionStep<'_>>
    ensures cases { IfSome result (λ it. map case_view function.now.cases.items ≡ []) }
    ensures some { IfSome result (λ it. option_map formula_view function.now.otherwise
        ≡ Some (step_formula it)) }
    ensures right { IfSome result IsRightStep }
{
    match (function.cases(), function.otherwise()) {
        ([], Some(formula)) => match_division_step(formula),
        _ => None,
    }
}
