#![tactic(auto)]
//! The operators of formulas on rows of numbers.

ghost use Rattle.std.specs.Prelude.{◌≡◌, ◌<ℤ◌, ◌*ℤ◌, length, pos, if◌then◌else◌};
ghost use Rattle.domains.specs.Arithmetic.{wrapped, floor_div, floor_rem};
ghost use Rattle.operators.specs.Values.{unary_value, binary_value, ternary_value, literal_value, is_related};
ghost use Rattle.operators.specs.Limits.{IsDivisor, IsLiteral};
ghost use Rattle.row_kernels.specs.Finishes.{epilogue_value};
ghost use Rattle.row_kernels.specs.Operands.{operand_at, Serves, IsGiven};
ghost use Rattle.row_loops.specs.Rows.{EachPlace, at};

use crate::changes::{
    AbsoluteValue, DivisionRemainder, LastBits, LeftShift, Negation, RightShift, ShiftCount,
};
use crate::finish::Epilogue;
use crate::finishes::{combine_operands_with_epilogue, write_operand_with_epilogue};
use crate::operand::Operand;
use crate::operand_rows::{
    combine_operands_to_row, keep_numbers_where_operands_related, map_operand_to_row,
    write_operand_to_row,
};
use crate::reciprocal::Reciprocal;
use operators::{BinaryOp, LiteralOp, Relation, TernaryOp, UnaryOp};
use row_loops::{
    AtMost, Difference, Equal, Greatest, Least, NumberMap, Product, ScaledRightOperand, Sum,
    SwappedOperands,
};

/// Writes the results of an operator, with an epilogue. (For the lesser and the greater number the epilogue is a second pass,
/// so that fewer loops are compiled.)
pub fn write_binary_results_to_row(
    op: BinaryOp,
    out: &mut [i32],
    left: Operand,
    right: Operand,
    finish: Epilogue,
)
    requires left { Serves (length out.old) left }
    requires right { Serves (length out.old) right }
    ensures { EachPlace (length out.old) (λ k. at out.new k ≡ epilogue_value finish
        (binary_value op (operand_at left.entry out.old k) (operand_at right.entry out.old k))) }
{
    match op {
        BinaryOp::Add => return combine_operands_with_epilogue(out, left, right, Sum, finish),
        BinaryOp::Sub => return combine_operands_with_epilogue(
            out, left, right, Difference, finish,
        ),
        BinaryOp::Mul => return combine_operands_with_epilogue(out, left, right, Product, finish),
        BinaryOp::Min => combine_operands_to_row(out, left, right, Least),
        BinaryOp::Max => combine_operands_to_row(out, left, right, Greatest),
    }
    write_operand_with_epilogue(out, Operand::Written, finish);
}

/// Writes the results of an operator whose right operand is multiplied by a factor, with an epilogue.
pub fn combine_with_scaled_operand(
    op: BinaryOp,
    out: &mut [i32],
    left: Operand,
    factor: i32,
    right: Operand,
    finish: Epilogue,
)
    requires left { Serves (length out.old) left }
    requires right { Serves (length out.old) right }
    ensures { EachPlace (length out.old) (λ k. at out.new k ≡ epilogue_value finish
        (binary_value op (operand_at left.entry out.old k)
        (wrapped (factor *ℤ operand_at right.entry out.old k)))) }
{
    match op {
        BinaryOp::Add => return combine_operands_with_epilogue(
            out,
            left,
            right,
            ScaledRightOperand(Sum, factor),
            finish,
        ),
        BinaryOp::Sub => return combine_operands_with_epilogue(
            out,
            left,
            right,
            ScaledRightOperand(Difference, factor),
            finish,
        ),
        BinaryOp::Mul => combine_operands_to_row(
            out,
            left,
            right,
            ScaledRightOperand(Product, factor),
        ),
        BinaryOp::Min => combine_operands_to_row(
            out,
            left,
            right,
            ScaledRightOperand(Least, factor),
        ),
        BinaryOp::Max => combine_operands_to_row(
            out,
            left,
            right,
            ScaledRightOperand(Greatest, factor),
        ),
    }
    write_operand_with_epilogue(out, Operand::Written, finish);
}

/// Writes the quotients by a literal, rounded down.
pub fn write_quotients_by_literal_to_row(out: &mut [i32], of: Operand, number: u32)
    requires of { Serves (length out.old) of }
    requires number { IsDivisor number }
    ensures { EachPlace (length out.old)
        (λ k. at out.new k ≡ floor_div (operand_at of.entry out.old k) (pos number)) }
{
    if number == 1 {
        return write_operand_to_row(out, of);
    }
    let bits = number.ilog2();
    if number == 1 << bits {
        map_operand_to_row(out, of, RightShift(ShiftCount { bits }));
    } else {
        map_operand_to_row(out, of, Reciprocal::new(number));
    }
}

/// Writes the remainders of the division by a literal, rounded down.
fn write_remainders_by_literal_to_row(out: &mut [i32], of: Operand, number: u32)
    requires of { Serves (length out.old) of }
    requires number { IsDivisor number }
    ensures { EachPlace (length out.old)
        (λ k. at out.new k ≡ floor_rem (operand_at of.entry out.old k) (pos number)) }
{
    let bits = number.ilog2();
    if number == 1 << bits {
        map_operand_to_row(
            out,
            of,
            LastBits {
                count: ShiftCount { bits },
            },
        );
    } else {
        map_operand_to_row(out, of, DivisionRemainder(Reciprocal::new(number)));
    }
}

/// Writes the results of an operator whose right operand is a literal.
pub fn write_literal_op_results_to_row(op: LiteralOp, out: &mut [i32], left: Operand, number: u32)
    requires left { Serves (length out.old) left }
    requires number { IsLiteral op number }
    ensures { EachPlace (length out.old)
        (λ k. at out.new k ≡ literal_value op (operand_at left.entry out.old k) number) }
{
    match op {
        LiteralOp::Div => write_quotients_by_literal_to_row(out, left, number),
        LiteralOp::Rem => write_remainders_by_literal_to_row(out, left, number),
        LiteralOp::Shl => map_operand_to_row(out, left, LeftShift(ShiftCount { bits: number })),
        LiteralOp::Shr => map_operand_to_row(out, left, RightShift(ShiftCount { bits: number })),
    }
}

/// The number that an operator gives.
pub fn apply_unary_to_number(op: UnaryOp, number: i32) -> i32
    ensures { result ≡ unary_value op number }
{
    match op {
        UnaryOp::Neg => Negation.apply_to_number(number),
        UnaryOp::Abs => AbsoluteValue.apply_to_number(number),
    }
}

/// Writes the results of an operator.
pub fn write_unary_results_to_row(op: UnaryOp, out: &mut [i32], of: Operand)
    requires { Serves (length out.old) of }
    ensures { EachPlace (length out.old)
        (λ k. at out.new k ≡ unary_value op (operand_at of.entry out.old k)) }
{
    match op {
        UnaryOp::Neg => map_operand_to_row(out, of, Negation),
        UnaryOp::Abs => map_operand_to_row(out, of, AbsoluteValue),
    }
}

/// Writes the results of an operator. (If the second and the third operand are numbers, an epilogue may do its work.)
pub fn write_ternary_results_to_row(
    op: TernaryOp,
    out: &mut [i32],
    first: Operand,
    second: Operand,
    third: Operand,
)
    requires first { Serves (length out.old) first }
    requires second { Serves (length out.old) second }
    requires third { Serves (length out.old) third × IsGiven third }
    ensures { EachPlace (length out.old) (λ k. at out.new k
        ≡ ternary_value op (operand_at first.entry out.old k) (operand_at second.entry out.old k)
        (operand_at third.entry out.old k)) }
{
    match op {
        TernaryOp::Clamp => {
            combine_operands_to_row(out, first, second, Greatest);
            combine_operands_to_row(out, Operand::Written, third, Least);
        }
    }
}

/// Keeps a number where the left operand is in the relation to the right one, and takes the other operand elsewhere.
pub fn keep_row_where_operand_relation_holds(
    out: &mut [i32],
    left: Operand,
    relation: Relation,
    right: Operand,
    other: Operand,
)
    requires left { Serves (length out.old) left × IsGiven left }
    requires right { Serves (length out.old) right × IsGiven right }
    requires other { Serves (length out.old) other × IsGiven other }
    ensures { EachPlace (length out.old) (λ k. at out.new k
        ≡ (if is_related relation (operand_at left.entry out.old k)
        (operand_at right.entry out.old k) then at out.old k
        else operand_at other.entry out.old k)) }
{
    match relation {
        Relation::AtMost => keep_numbers_where_operands_related(out, left, right, other, AtMost),
        Relation::AtLeast => keep_numbers_where_operands_related(
            out,
            left,
            right,
            other,
            SwappedOperands(AtMost),
        ),
        Relation::Equals => keep_numbers_where_operands_related(out, left, right, other, Equal),
    }
}
