#![tactic(auto)]
//! Rows to which an epilogue is applied in the pass that makes them, and the epilogues that do the work of operators.

ghost use Rattle.std.specs.Prelude.{◌≡◌, ◌<◌, ◌^◌, ◌+ℤ◌, ℤ, pos, length, IfSome};
ghost use Rattle.domains.specs.Arithmetic.{wrapped, floor_div};
ghost use Rattle.operators.specs.Values.{unary_value, ternary_value, literal_value};
ghost use Rattle.operators.specs.Limits.{IsLiteral};
ghost use Rattle.row_kernels.specs.Finishes.{epilogue_value, shifted};
ghost use Rattle.row_kernels.specs.Operands.{operand_at, Serves};
ghost use Rattle.row_loops.specs.Rows.{EachPlace, at};

use crate::changes::{
    AbsoluteValue, ChainedMaps, Clamping, PairWithEpilogue, ShiftCount, ShiftEpilogue,
};
use crate::finish::Epilogue;
use crate::operand::Operand;
use crate::operand_rows::{combine_operands_to_row, map_operand_to_row, write_operand_to_row};
use operators::{LiteralOp, TernaryOp, UnaryOp};
use row_loops::PairMap;

/// Writes what an epilogue makes of an operand.
pub fn write_operand_with_epilogue(out: &mut [i32], of: Operand, finish: Epilogue)
    requires { Serves (length out.old) of }
    ensures { EachPlace (length out.old)
        (λ k. at out.new k ≡ epilogue_value finish (operand_at of.entry out.old k)) }
{
    match finish {
        Epilogue::Nothing => write_operand_to_row(out, of),
        Epilogue::Absolute => map_operand_to_row(out, of, AbsoluteValue),
        Epilogue::Shift(shift) => map_operand_to_row(out, of, shift),
        Epilogue::Clamping(cut) => map_operand_to_row(out, of, cut),
        Epilogue::ShiftAndClamping(shift, cut) => map_operand_to_row(
            out,
            of,
            ChainedMaps(shift, cut),
        ),
    }
}

/// Writes what a pair makes of two operands, and applies an epilogue in the same pass.
pub(crate) fn combine_operands_with_epilogue<P: PairMap<Made = i32>>(
    out: &mut [i32],
    left: Operand,
    right: Operand,
    make: P,
    finish: Epilogue,
)
    requires left { Serves (length out.old) left }
    requires right { Serves (length out.old) right }
    ensures { EachPlace (length out.old) (λ k. at out.new k
        ≡ epilogue_value finish (P.value make (operand_at left.entry out.old k)
        (operand_at right.entry out.old k))) }
{
    match finish {
        Epilogue::Nothing => combine_operands_to_row(out, left, right, make),
        Epilogue::Absolute => combine_operands_to_row(
            out,
            left,
            right,
            PairWithEpilogue(make, AbsoluteValue),
        ),
        Epilogue::Shift(shift) => combine_operands_to_row(
            out,
            left,
            right,
            PairWithEpilogue(make, shift),
        ),
        Epilogue::Clamping(cut) => combine_operands_to_row(
            out,
            left,
            right,
            PairWithEpilogue(make, cut),
        ),
        Epilogue::ShiftAndClamping(shift, cut) => {
            combine_operands_to_row(
                out,
                left,
                right,
                PairWithEpilogue(make, ChainedMaps(shift, cut)),
            )
        }
    }
}

impl Epilogue {
    /// The epilogue that first does the work of an operator on one number, if there is one.
    pub fn prepend_unary(self, op: UnaryOp) -> Option<Epilogue>
        ensures { IfSome result (λ finish. (v : ℤ) → epilogue_value finish v
            ≡ epilogue_value self (unary_value op v)) }
    {
        match (self, op) {
            (Epilogue::Nothing, UnaryOp::Abs) => Some(Epilogue::Absolute),
            _ => None,
        }
    }

    /// The epilogue that first does the work of an operator on three numbers, if there is one. The second and the third number
    /// are the same all along the row.
    pub fn prepend_ternary(self, op: TernaryOp, second: i32, third: i32) -> Option<Epilogue>
        ensures { IfSome result (λ finish. (v : ℤ) → epilogue_value finish v
            ≡ epilogue_value self (ternary_value op v second third)) }
    {
        match (self, op) {
            (Epilogue::Nothing, TernaryOp::Clamp) => Some(Epilogue::Clamping(Clamping {
                low: second,
                high: third,
            })),
            _ => None,
        }
    }

    /// The epilogue that shifts to the right first.
    fn prepend_shift(self, bits: u32) -> Option<Epilogue>
        requires { bits < 32 }
        ensures { IfSome result (λ finish. (v : ℤ) → epilogue_value finish v
            ≡ epilogue_value self (floor_div v (pos (2 ^ bits)))) }
    {
        let shift = ShiftEpilogue {
            add: 0,
            count: ShiftCount { bits },
        };
        match self {
            Epilogue::Nothing => Some(Epilogue::Shift(shift)),
            Epilogue::Clamping(cut) => Some(Epilogue::ShiftAndClamping(shift, cut)),
            _ => None,
        }
    }

    /// The epilogue that first does the work of an operator with a literal as its right operand, if there is one.
    pub fn prepend_literal_op(self, op: LiteralOp, number: u32) -> Option<Epilogue>
        requires { IsLiteral op number }
        ensures { IfSome result (λ finish. (v : ℤ) → epilogue_value finish v
            ≡ epilogue_value self (literal_value op v number)) }
    {
        match op {
            LiteralOp::Shr => self.prepend_shift(number),
            LiteralOp::Div => {
                let bits = number.ilog2();
                if number != 1 << bits {
                    return None;
                }
                self.prepend_shift(bits)
            }
            _ => None,
        }
    }

    /// The epilogue that adds a number first, if there is one.
    pub fn prepend_addition(self, number: i32) -> Option<Epilogue>
        ensures { IfSome result (λ finish. (v : ℤ) → epilogue_value finish v
            ≡ epilogue_value self (wrapped (v +ℤ number))) }
    {
        match self {
            Epilogue::Nothing if number != 0 => Some(Epilogue::Shift(ShiftEpilogue {
                add: number,
                count: ShiftCount { bits: 0 },
            })),
            Epilogue::Shift(shift) => Some(Epilogue::Shift(shift.prepend_addition(number)?)),
            Epilogue::ShiftAndClamping(shift, cut) => {
                Some(Epilogue::ShiftAndClamping(shift.prepend_addition(number)?, cut))
            }
            _ => None,
        }
    }
}

impl ShiftEpilogue {
    // The shift with a number added first, if it adds nothing yet.
    fn prepend_addition(self, number: i32) -> Option<ShiftEpilogue>
        ensures { IfSome result (λ shift. (v : ℤ) → shifted shift v
            ≡ shifted self (wrapped (v +ℤ number))) }
    {
        if number == 0 || self.add != 0 {
            return None;
        }
        Some(ShiftEpilogue {
            add: number,
            count: self.count,
        })
    }
}
