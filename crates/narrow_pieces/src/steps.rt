#![tactic(auto)]
//! Operators with numbers as steps of affine maps.

ghost use Rattle.std.specs.Prelude.{◌≡◌, ℤ, IfSome, FitsSigned};
ghost use Rattle.std.specs.Int.{w16};
ghost use Rattle.job.specs.Values.{Valuation, formula_value};
ghost use Rattle.job.specs.Views.{formula_view};
ghost use Rattle.operators.specs.Values.{binary_value, literal_value};
ghost use Rattle.narrow_kernels.specs.NarrowAffine.{affine_value, FitsAffine};
ghost use Rattle.narrow_pieces.specs.inside.Steps.{step_value, IsStepOf};

use job::Formula;
use narrow_kernels::NarrowAffineMap;
use operators::{BinaryOp, LiteralOp};

/// An operator with a number, as a step of an affine map.
#[derive(Clone, Copy, Debug)]
pub(crate) enum NarrowPieceStep {
    Add(i16),
    Multiply(i16),
    /// The division by a power of two, rounded down.
    Shift(u32),
}

// The step that an operator is whose right operand is a number.
fn find_narrow_piece_step_with_right_number(op: BinaryOp, number: i16) -> Option<NarrowPieceStep>
    ensures { IfSome result (λ s. (x : ℤ) → FitsSigned w16 x
        → step_value s x ≡ binary_value op x number) }
{
    match op {
        BinaryOp::Add => Some(NarrowPieceStep::Add(number)),
        BinaryOp::Sub => Some(NarrowPieceStep::Add(number.checked_neg()?)),
        BinaryOp::Mul => Some(NarrowPieceStep::Multiply(number)),
        _ => None,
    }
}

// The step that an operator is whose left operand is a number.
fn find_narrow_piece_step_with_left_number(op: BinaryOp, number: i16) -> Option<NarrowPieceStep>
    ensures { IfSome result (λ s. (x : ℤ) → FitsSigned w16 x
        → step_value s x ≡ binary_value op number x) }
{
    match op {
        BinaryOp::Add => Some(NarrowPieceStep::Add(number)),
        BinaryOp::Mul => Some(NarrowPieceStep::Multiply(number)),
        _ => None,
    }
}

// The step that an operator with a literal is.
fn find_narrow_piece_step_with_literal(op: LiteralOp, literal: u32) -> Option<NarrowPieceStep>
    ensures { IfSome result (λ s. (x : ℤ) → step_value s x ≡ literal_value op x literal) }
{
    match op {
        LiteralOp::Shr if literal < 16 => Some(NarrowPieceStep::Shift(literal)),
        LiteralOp::Div if 0 < literal => {
            let bits = literal.ilog2();
            if bits < 16 && literal == 1 << bits {
                Some(NarrowPieceStep::Shift(bits))
            } else {
                None
            }
        }
        _ => None,
    }
}

// A number of the text that fits in 16 bits.
#[tactic(auto, using(std::proofs::lemmas::Int::ints))]
fn find_narrow_piece_number(formula: &Formula) -> Option<i16>
    ensures { IfSome result (λ it. (env : Valuation) (r c : ℤ)
        → formula_value env (formula_view formula.now) r c ≡ it) }
{
    match formula {
        Formula::Number(number) if -32768 <= *number && *number <= 32767 => Some(*number as i16),
        _ => None,
    }
}

/// The last operator of a formula as a step, and the formula that the step takes the values of.
pub(crate) fn match_narrow_piece_step(formula: &Formula) -> Option<(NarrowPieceStep, &Formula)>
    ensures { IfSome result (λ p. IsStepOf p.0 (formula_view p.1.now) (formula_view formula.now)) }
{
    match formula {
        Formula::Binary(op, left, right) => match find_narrow_piece_number(right) {
            Some(number) => Some((
                find_narrow_piece_step_with_right_number(*op, number)?,
                &**left,
            )),
            None => {
                let number = find_narrow_piece_number(left)?;
                let step = find_narrow_piece_step_with_left_number(*op, number)?;
                Some((step, &**right))
            }
        },
        Formula::Literal(op, of, literal) => Some((
            find_narrow_piece_step_with_literal(*op, *literal)?,
            &**of,
        )),
        _ => None,
    }
}

/// What a map makes of the results of a step, as a map of the number that the step takes.
pub(crate) fn prepend_narrow_piece_step(
    map: NarrowAffineMap,
    step: NarrowPieceStep,
) -> Option<NarrowAffineMap>
    ensures value { IfSome result (λ it. (x : ℤ)
        → affine_value it.factor it.addend it.bits it.offset x
        ≡ affine_value map.factor map.addend map.bits map.offset (step_value step x)) }
    ensures fits { IfSome result (λ it. (x : ℤ) → FitsSigned w16 x
        → FitsAffine map.factor map.addend map.bits map.offset (step_value step x)
        → FitsAffine it.factor it.addend it.bits it.offset x) }
{
    match step {
        NarrowPieceStep::Add(number) => map.prepend_narrow_addition(number),
        NarrowPieceStep::Multiply(number) => map.prepend_narrow_multiplication(number),
        NarrowPieceStep::Shift(bits) => map.prepend_narrow_right_shift(bits),
    }
}
