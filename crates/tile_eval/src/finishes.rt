#![tactic(auto)]
//! Operators that are left to the pass that computes their left operand.

ghost use Rattle.std.specs.Prelude.{◌≡◌, ℤ, IfSome};
ghost use Rattle.job.specs.Values.{Valuation, binary_value, ternary_value, formula_value};
ghost use Rattle.job.specs.Views.{formula_view};
ghost use Rattle.row_kernels.specs.Finishes.{epilogue_value};

use crate::rows::find_constant_along_row;
use job::Formula;
use operators::{BinaryOp, TernaryOp};
use row_kernels::{Epilogue, RowSpan};

/// The epilogue that first applies an operator with its right operand, if there is one.
pub(crate) fn fuse_earlier_operator_into_epilogue(
    finish: Epilogue,
    op: BinaryOp,
    right: &Formula,
) -> Option<Epilogue>
    ensures { IfSome result (λ earlier. (env : Valuation) (v r c : ℤ) → epilogue_value earlier v
        ≡ epilogue_value finish (binary_value op v (formula_value env (formula_view right.now) r c))) }
{
    match (op, right) {
        (BinaryOp::Add, Formula::Number(number)) => finish.prepend_addition(*number),
        _ => None,
    }
}

/// The epilogue that does the work of an operator whose second and third operand are numbers along the row, if there is one.
pub(crate) fn turn_ternary_into_epilogue(
    op: TernaryOp,
    second: &Formula,
    third: &Formula,
    points: &RowSpan,
) -> Option<Epilogue>
    ensures { IfSome result (λ finish. (env : Valuation) (v c : ℤ) → epilogue_value finish v
        ≡ ternary_value op v (formula_value env (formula_view second.now) points.now.row c)
        (formula_value env (formula_view third.now) points.now.row c)) }
{
    let second = find_constant_along_row(second, points)?;
    Epilogue::Nothing.prepend_ternary(op, second, find_constant_along_row(third, points)?)
}
