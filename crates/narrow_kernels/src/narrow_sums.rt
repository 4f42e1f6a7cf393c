#![tactic(auto)]
//! Operators on the sums of an operand and a number, in one pass where the sum is divided or shifted to the right.

ghost use Rattle.std.specs.Prelude.{◌≡◌, ◌+ℤ◌, ℤ, length, FitsSigned};
ghost use Rattle.std.specs.Int.{w16};
ghost use Rattle.operators.specs.Values.{literal_value};
ghost use Rattle.operators.specs.Limits.{IsLiteral};
ghost use Rattle.narrow_kernels.specs.NarrowOperands.{narrow_operand_at, ServesNarrow};
ghost use Rattle.row_loops.specs.Rows.{EachPlace, at};

use crate::narrow_maps::NarrowNumberMap;
use crate::narrow_operand::NarrowOperand;
use crate::narrow_operators::{
    map_narrow_operand, write_narrow_literal_op_results, write_narrow_quotients,
};
use operators::LiteralOp;

/// The sum of the number and another one.
#[derive(Clone, Copy)]
struct NarrowIncrement(i16);

impl NarrowNumberMap for NarrowIncrement {
    ghost value = { λ s a. a +ℤ s.0 };

    ghost fits = { λ s a. FitsSigned w16 (a +ℤ s.0) };

    #[inline]
    fn apply_to_narrow_number(&self, number: i16) -> i16 {
        number + self.0
    }
}

/// Writes the results of an operator on the sums of an operand and a number; its right operand is a literal. The sums and the results
/// fit in 16 bits.
pub fn write_narrow_literal_op_results_of_sums(
    op: LiteralOp,
    out: &mut [i16],
    of: NarrowOperand,
    number: i16,
    literal: u32,
)
    requires of { ServesNarrow (length out.old) of }
    requires literal { IsLiteral op literal }
    requires sum { EachPlace (length out.old)
        (λ k. FitsSigned w16 (narrow_operand_at of out.old k +ℤ number)) }
    requires fits { EachPlace (length out.old) (λ k. FitsSigned w16
        (literal_value op (narrow_operand_at of out.old k +ℤ number) literal)) }
    ensures { EachPlace (length out.old) (λ k. at out.new k
        ≡ literal_value op (narrow_operand_at of.entry out.old k +ℤ number) literal) }
{
    match op {
        LiteralOp::Div => write_narrow_quotients(out, of, NarrowIncrement(number), literal),
        LiteralOp::Shr => write_narrow_quotients(out, of, NarrowIncrement(number), 1 << literal),
        _ => {
            map_narrow_operand(out, of, NarrowIncrement(number));
            write_narrow_literal_op_results(op, out, NarrowOperand::Written, literal);
        }
    }
}
