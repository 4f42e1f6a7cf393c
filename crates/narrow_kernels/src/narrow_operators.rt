#![tactic(auto)]
//! The operators of formulas on rows of numbers of 16 bits.

ghost use Rattle.std.specs.Prelude.{◌≡◌, ◌<◌, ◌-ℤ◌, length, pos, unsigned_abs, FitsSigned};
ghost use Rattle.std.specs.Int.{w16};
ghost use Rattle.domains.specs.Arithmetic.{wrapped, floor_div};
ghost use Rattle.operators.specs.Values.{unary_value, binary_value, ternary_value, literal_value};
ghost use Rattle.operators.specs.Limits.{IsLiteral};
ghost use Rattle.narrow_kernels.specs.NarrowOperands.{narrow_operand_at, ServesNarrow, IsGivenNarrow};
ghost use Rattle.row_loops.specs.Rows.{EachPlace, at};

use crate::narrow_maps::{
    NarrowAbsoluteValue, NarrowClamping, NarrowLeftShift, NarrowNegation, NarrowNumberMap,
    NarrowRemainder, NarrowThen, SameNarrowNumber,
};
use crate::narrow_operand::NarrowOperand;
use crate::narrow_operand::NarrowOperand::{Line, Number, Written};
use crate::narrow_pairs::{
    NarrowDifference, NarrowGreatest, NarrowLeast, NarrowPairMap, NarrowProduct, NarrowSum,
};
use crate::narrow_quotients::{NarrowReciprocal, find_narrow_right_shift};
use crate::narrow_trees::{
    NarrowJoined, NarrowLine, NarrowMapped, NarrowNumber, NarrowTree, NarrowWritten,
    write_narrow_tree,
};
use operators::{BinaryOp, LiteralOp, TernaryOp, UnaryOp};

/// Writes what a change makes of an operand.
pub(crate) fn map_narrow_operand<C: NarrowNumberMap>(out: &mut [i16], of: NarrowOperand, make: C)
    requires of { ServesNarrow (length out.old) of }
    requires fits { EachPlace (length out.old)
        (λ k. C.fits make (narrow_operand_at of out.old k)) }
    ensures { EachPlace (length out.old)
        (λ k. at out.new k ≡ C.value make (narrow_operand_at of.entry out.old k)) }
{
    match of {
        Line(line) => write_narrow_tree(out, NarrowMapped(make, NarrowLine(line))),
        Number(number) => write_narrow_tree(out, NarrowMapped(make, NarrowNumber(number))),
        Written => write_narrow_tree(out, NarrowMapped(make, NarrowWritten)),
    }
}

// Writes what is made of the numbers of a tree and of an operand.
fn combine_narrow_tree_and_operand<A: NarrowTree, P: NarrowPairMap>(
    out: &mut [i16],
    left: A,
    right: NarrowOperand,
    make: P,
)
    requires left { EachPlace (length out.old) (λ k. A.has left (at out.old k) k) }
    requires right { ServesNarrow (length out.old) right }
    requires fits { EachPlace (length out.old) (λ k. P.fits make (at out.old k) k
        (A.value left (at out.old k) k) (narrow_operand_at right out.old k)) }
    ensures { EachPlace (length out.old) (λ k. at out.new k ≡ P.value make (at out.old k) k
        (A.value left (at out.old k) k) (narrow_operand_at right.entry out.old k)) }
{
    match right {
        Line(line) => write_narrow_tree(out, NarrowJoined(make, left, NarrowLine(line))),
        Number(number) => write_narrow_tree(out, NarrowJoined(make, left, NarrowNumber(number))),
        Written => write_narrow_tree(out, NarrowJoined(make, left, NarrowWritten)),
    }
}

/// Writes what is made of two operands.
pub(crate) fn combine_narrow_operands<P: NarrowPairMap>(
    out: &mut [i16],
    left: NarrowOperand,
    right: NarrowOperand,
    make: P,
)
    requires left { ServesNarrow (length out.old) left }
    requires right { ServesNarrow (length out.old) right }
    requires fits { EachPlace (length out.old) (λ k. P.fits make (at out.old k) k
        (narrow_operand_at left out.old k) (narrow_operand_at right out.old k)) }
    ensures { EachPlace (length out.old) (λ k. at out.new k ≡ P.value make (at out.old k) k
        (narrow_operand_at left.entry out.old k) (narrow_operand_at right.entry out.old k)) }
{
    match left {
        Line(line) => combine_narrow_tree_and_operand(out, NarrowLine(line), right, make),
        Number(number) => combine_narrow_tree_and_operand(out, NarrowNumber(number), right, make),
        Written => combine_narrow_tree_and_operand(out, NarrowWritten, right, make),
    }
}

/// Writes the results of an operator on two operands, which fit in 16 bits.
pub fn write_narrow_binary_results(
    op: BinaryOp,
    out: &mut [i16],
    left: NarrowOperand,
    right: NarrowOperand,
)
    requires left { ServesNarrow (length out.old) left }
    requires right { ServesNarrow (length out.old) right }
    requires fits { EachPlace (length out.old) (λ k. FitsSigned w16 (binary_value op
        (narrow_operand_at left out.old k) (narrow_operand_at right out.old k))) }
    ensures { EachPlace (length out.old) (λ k. at out.new k ≡ binary_value op
        (narrow_operand_at left.entry out.old k) (narrow_operand_at right.entry out.old k)) }
{
    match op {
        BinaryOp::Add => combine_narrow_operands(out, left, right, NarrowSum),
        BinaryOp::Sub => combine_narrow_operands(out, left, right, NarrowDifference),
        BinaryOp::Mul => combine_narrow_operands(out, left, right, NarrowProduct),
        BinaryOp::Min => combine_narrow_operands(out, left, right, NarrowLeast),
        BinaryOp::Max => combine_narrow_operands(out, left, right, NarrowGreatest),
    }
}

/// Writes the results of an operator on one operand, which fit in 16 bits.
pub fn write_narrow_unary_results(op: UnaryOp, out: &mut [i16], of: NarrowOperand)
    requires of { ServesNarrow (length out.old) of }
    requires fits { EachPlace (length out.old)
        (λ k. FitsSigned w16 (unary_value op (narrow_operand_at of out.old k))) }
    ensures { EachPlace (length out.old)
        (λ k. at out.new k ≡ unary_value op (narrow_operand_at of.entry out.old k)) }
{
    match op {
        UnaryOp::Neg => map_narrow_operand(out, of, NarrowNegation),
        UnaryOp::Abs => map_narrow_operand(out, of, NarrowAbsoluteValue),
    }
}

/// Writes the absolute values of the differences of two lines, which fit in 16 bits as the differences do.
pub fn write_narrow_absolute_differences(out: &mut [i16], left: &[i16], right: &[i16])
    requires left { length left.now ≡ length out.old }
    requires right { length right.now ≡ length out.old }
    requires fits { EachPlace (length out.old)
        (λ k. FitsSigned w16 (wrapped (at left.now k -ℤ at right.now k)) × FitsSigned w16
        (wrapped (pos (unsigned_abs (wrapped (at left.now k -ℤ at right.now k)))))) }
    ensures { EachPlace (length out.old) (λ k. at out.new k
        ≡ wrapped (pos (unsigned_abs (wrapped (at left.now k -ℤ at right.now k))))) }
{
    let difference = NarrowJoined(NarrowDifference, NarrowLine(left), NarrowLine(right));
    write_narrow_tree(out, NarrowMapped(NarrowAbsoluteValue, difference));
}

/// Writes the results of an operator on three operands.
pub fn write_narrow_ternary_results(
    op: TernaryOp,
    out: &mut [i16],
    first: NarrowOperand,
    second: NarrowOperand,
    third: NarrowOperand,
)
    requires first { ServesNarrow (length out.old) first }
    requires second { ServesNarrow (length out.old) second }
    requires third { ServesNarrow (length out.old) third × IsGivenNarrow third }
    ensures { EachPlace (length out.old) (λ k. at out.new k ≡ ternary_value op
        (narrow_operand_at first.entry out.old k) (narrow_operand_at second.entry out.old k)
        (narrow_operand_at third.entry out.old k)) }
{
    match op {
        TernaryOp::Clamp => {
            if let (NarrowOperand::Number(low), NarrowOperand::Number(high)) = (second, third) {
                return map_narrow_operand(out, first, NarrowClamping { low, high });
            }
            combine_narrow_operands(out, first, second, NarrowGreatest);
            combine_narrow_operands(out, NarrowOperand::Written, third, NarrowLeast);
        }
    }
}

/// Writes the quotients of what a change makes of an operand by a divisor, rounded down.
pub(crate) fn write_narrow_quotients<C: NarrowNumberMap>(
    out: &mut [i16],
    of: NarrowOperand,
    make: C,
    divisor: u32,
)
    requires of { ServesNarrow (length out.old) of }
    requires divisor { 0 < divisor }
    requires fits { EachPlace (length out.old)
        (λ k. C.fits make (narrow_operand_at of out.old k)) }
    ensures { EachPlace (length out.old) (λ k. at out.new k
        ≡ floor_div (C.value make (narrow_operand_at of.entry out.old k)) (pos divisor)) }
{
    match find_narrow_right_shift(divisor) {
        Some(shift) => map_narrow_operand(out, of, NarrowThen(make, shift)),
        None => map_narrow_operand(out, of, NarrowThen(make, NarrowReciprocal::new(divisor))),
    }
}

/// Writes the results of an operator whose right operand is a literal, which fit in 16 bits.
pub fn write_narrow_literal_op_results(
    op: LiteralOp,
    out: &mut [i16],
    left: NarrowOperand,
    number: u32,
)
    requires left { ServesNarrow (length out.old) left }
    requires number { IsLiteral op number }
    requires fits { EachPlace (length out.old)
        (λ k. FitsSigned w16 (literal_value op (narrow_operand_at left out.old k) number)) }
    ensures { EachPlace (length out.old)
        (λ k. at out.new k ≡ literal_value op (narrow_operand_at left.entry out.old k) number) }
{
    match op {
        LiteralOp::Div => write_narrow_quotients(out, left, SameNarrowNumber, number),
        LiteralOp::Rem => map_narrow_operand(out, left, NarrowRemainder { divisor: number }),
        LiteralOp::Shl => map_narrow_operand(out, left, NarrowLeftShift { bits: number }),
        LiteralOp::Shr => write_narrow_quotients(out, left, SameNarrowNumber, 1 << number),
    }
}
