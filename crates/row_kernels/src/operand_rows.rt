#![tactic(auto)]
//! Rows that are computed from operands.

ghost use Rattle.std.specs.Prelude.{◌≡◌, length, if◌then◌else◌};
ghost use Rattle.row_kernels.specs.Operands.{operand_at, Serves, IsGiven};
ghost use Rattle.row_loops.specs.Rows.{EachPlace, at};

use crate::changes::{FixedLeftOperand, SameOperands};
use crate::operand::Operand;
use crate::values::RowNumbers;
use row_loops::{
    NumberMap, PairMap, SwappedOperands, choose_number, combine_row_in_place, fill_row,
    map_row_in_place, write_combination_of_two_rows, write_mapped_row,
};

/// Writes the numbers of an operand.
pub(crate) fn write_operand_to_row(out: &mut [i32], of: Operand)
    requires { Serves (length out.old) of }
    ensures { EachPlace (length out.old) (λ k. at out.new k ≡ operand_at of.entry out.old k) }
{
    match of {
        Operand::Line(line) => out.copy_from_slice(line),
        Operand::Number(number) => fill_row(out, number),
        Operand::Written => {}
    }
}

/// Writes what a change makes of an operand.
pub(crate) fn map_operand_to_row<C: NumberMap>(out: &mut [i32], of: Operand, make: C)
    requires { Serves (length out.old) of }
    ensures { EachPlace (length out.old)
        (λ k. at out.new k ≡ C.value make (operand_at of.entry out.old k)) }
{
    match of {
        Operand::Line(line) => write_mapped_row(out, line, make),
        Operand::Number(number) => fill_row(out, make.apply_to_number(number)),
        Operand::Written => map_row_in_place(out, make),
    }
}

/// Writes what a pair makes of two operands.
pub(crate) fn combine_operands_to_row<P: PairMap<Made = i32>>(
    out: &mut [i32],
    left: Operand,
    right: Operand,
    make: P,
)
    requires left { Serves (length out.old) left }
    requires right { Serves (length out.old) right }
    ensures { EachPlace (length out.old) (λ k. at out.new k
        ≡ P.value make (operand_at left.entry out.old k) (operand_at right.entry out.old k)) }
{
    match (left, right) {
        (Operand::Line(left), Operand::Line(right)) => write_combination_of_two_rows(
            out, left, right, make,
        ),
        (Operand::Line(left), Operand::Written) => combine_row_in_place(
            out,
            left,
            SwappedOperands(make),
        ),
        (Operand::Written, Operand::Line(right)) => combine_row_in_place(out, right, make),
        (Operand::Written, Operand::Written) => map_row_in_place(out, SameOperands(make)),
        (Operand::Number(left), right) => map_operand_to_row(
            out,
            right,
            FixedLeftOperand(left, make),
        ),
        (left, Operand::Number(right)) => map_operand_to_row(
            out,
            left,
            FixedLeftOperand(right, SwappedOperands(make)),
        ),
    }
}

// Keeps its own number where that of a line is related to one, and takes the other number elsewhere.
fn keep_numbers_where_rows_related<R: PairMap<Made = bool>, V: RowNumbers, W: RowNumbers>(
    out: &mut [i32],
    other: W,
    left: &[i32],
    right: V,
    relate: R,
)
    requires left { length left.now ≡ length out.old }
    requires right { EachPlace (length out.old) (V.has right) }
    requires other { EachPlace (length out.old) (W.has other) }
    ensures { EachPlace (length out.old) (λ k. at out.new k
        ≡ (if R.value relate (at left.now k) (V.number right k) then at out.old k
        else W.number other k)) }
{
    for k in 0..out.len() {
        let (mine, its) = (out[k], other.read_number_at_place(k));
        out[k] = choose_number(
            relate.apply_to_pair(left[k], right.read_number_at_place(k)),
            mine,
            its,
        );
    }
}

// Keeps a number where that of a line is related to another one, and takes the operand elsewhere.
fn take_operand_where_rows_unrelated<R: PairMap<Made = bool>, V: RowNumbers>(
    out: &mut [i32],
    left: &[i32],
    right: V,
    other: Operand,
    relate: R,
)
    requires left { length left.now ≡ length out.old }
    requires right { EachPlace (length out.old) (V.has right) }
    requires other { Serves (length out.old) other × IsGiven other }
    ensures { EachPlace (length out.old) (λ k. at out.new k
        ≡ (if R.value relate (at left.now k) (V.number right k) then at out.old k
        else operand_at other.entry out.old k)) }
{
    match other {
        Operand::Line(other) => keep_numbers_where_rows_related(out, other, left, right, relate),
        Operand::Number(other) => keep_numbers_where_rows_related(out, other, left, right, relate),
        Operand::Written => {}
    }
}

/// Keeps a number where two operands are related, and takes that of another operand elsewhere.
pub(crate) fn keep_numbers_where_operands_related<R: PairMap<Made = bool>>(
    out: &mut [i32],
    left: Operand,
    right: Operand,
    other: Operand,
    relate: R,
)
    requires serve { Serves (length out.old) left × Serves (length out.old) right
        × Serves (length out.old) other }
    requires given { IsGiven left × IsGiven right × IsGiven other }
    ensures { EachPlace (length out.old) (λ k. at out.new k
        ≡ (if R.value relate (operand_at left.entry out.old k) (operand_at right.entry out.old k)
        then at out.old k else operand_at other.entry out.old k)) }
{
    match (left, right) {
        (Operand::Line(left), Operand::Line(right)) => take_operand_where_rows_unrelated(
            out, left, right, other, relate,
        ),
        (Operand::Line(left), Operand::Number(right)) => take_operand_where_rows_unrelated(
            out, left, right, other, relate,
        ),
        (Operand::Number(left), Operand::Line(right)) => {
            take_operand_where_rows_unrelated(out, right, left, other, SwappedOperands(relate))
        }
        (Operand::Number(left), Operand::Number(right)) => {
            if !relate.apply_to_pair(left, right) {
                write_operand_to_row(out, other);
            }
        }
        _ => {}
    }
}
