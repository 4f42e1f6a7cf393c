#![tactic(auto)]
//! Formulas along rows of points.

ghost use Rattle.std.specs.Prelude.{◌≡◌, ◌≤◌, ◌-◌, ℕ, ◌+◌, ◌+ℤ◌, ◌≤ℤ◌, ℤ, pos, length, List, IfSome};
ghost use Rattle.job.specs.Values.{Valuation, binary_value, formula_value};
ghost use Rattle.job.specs.WellFormed.{IsFormula};
ghost use Rattle.job.specs.Views.{formula_view};
ghost use Rattle.row_kernels.specs.Finishes.{epilogue_value};
ghost use Rattle.row_kernels.specs.Operands.{operand_at, Serves, IsGiven};
ghost use Rattle.row_loops.specs.Rows.{EachPlace, at};
ghost use Rattle.tile_eval.specs.Reading.{ReadsWithin, HasRoom};
ghost use Rattle.tile_eval.specs.inside.Operators.{IsBinary};

use crate::finishes::{fuse_earlier_operator_into_epilogue, turn_ternary_into_epilogue};
use crate::source::RowSource;
use crate::source_row::SourceRow;
use job::{Axis, Formula};
use operators::BinaryOp;
use row_kernels::{
    Epilogue, Operand, RowSpan, apply_unary_to_number, combine_with_scaled_operand,
    keep_row_where_operand_relation_holds, write_binary_results_to_row,
    write_literal_op_results_to_row, write_operand_with_epilogue, write_table_lookups_to_row,
    write_ternary_results_to_row, write_unary_results_to_row,
};
use row_loops::{fill_row, fill_row_counting_up};

/// The number that a formula is all along a row of points, if it is found to be constant there.
pub fn find_constant_along_row(formula: &Formula, points: &RowSpan) -> Option<i32>
    ensures { IfSome result (λ number. (env : Valuation) (c : ℤ)
        → formula_value env (formula_view formula.now) points.now.row c ≡ number) }
{
    match formula {
        Formula::Number(number) => Some(*number),
        Formula::Coordinate(Axis::Row) => Some(points.row),
        Formula::Unary(op, a) => Some(apply_unary_to_number(
            *op,
            find_constant_along_row(a, points)?,
        )),
        Formula::Lookup(table, a) => Some(table.look_up_entry_at_clamped_index(
            find_constant_along_row(a, points)?,
        )),
        _ => None,
    }
}

/// The values of a formula along a row of points: borrowed from the source, if it is a read whose samples are adjacent, else
/// computed into `own`.
#[cycle(evaluate_formula)]
pub fn borrow_or_evaluate_row<'a, S: RowSource>(
    source: &'a S,
    points: &RowSpan,
    formula: &Formula,
    own: &'a mut [i32],
    temps: &mut [i32],
) -> &'a [i32]
    requires fits { length own.old ≡ points.now.len }
    requires formula { IsFormula (formula_view formula.now) }
    requires reads { ReadsWithin (S.has source.now) (formula_view formula.now) points.now.row
        points.now.col (length own.old) }
    requires room { HasRoom (formula_view formula.now) (length own.old) (length temps.old) }
    ensures count { length result.now ≡ length own.old }
    ensures values { EachPlace (length own.old) (λ k. at result.now k
        ≡ formula_value (S.samples source.now) (formula_view formula.now) points.now.row
        (points.now.col +ℤ pos k)) }
{
    let row = SourceRow {
        source,
        points: *points,
    };
    match row.borrow_samples_of_read_formula(formula) {
        Some(line) => line,
        None => {
            row.evaluate_formula(formula, own, temps);
            own
        }
    }
}

// A formula as an operand along a row of points: a number, samples borrowed from the source, or values computed into `own`.
#[cycle(evaluate_formula)]
fn borrow_or_evaluate_operand_along_row<'a, S: RowSource>(
    source: &'a S,
    points: &RowSpan,
    formula: &Formula,
    own: &'a mut [i32],
    temps: &mut [i32],
) -> Operand<'a>
    requires fits { length own.old ≡ points.now.len }
    requires formula { IsFormula (formula_view formula.now) }
    requires reads { ReadsWithin (S.has source.now) (formula_view formula.now) points.now.row
        points.now.col (length own.old) }
    requires room { HasRoom (formula_view formula.now) (length own.old) (length temps.old) }
    ensures serves { Serves (length own.old) result }
    ensures given { IsGiven result }
    ensures values { (out : List ℤ) → EachPlace (length own.old) (λ k. operand_at result out k
        ≡ formula_value (S.samples source.now) (formula_view formula.now) points.now.row
        (points.now.col +ℤ pos k)) }
{
    match find_constant_along_row(formula, points) {
        Some(number) => Operand::Number(number),
        None => Operand::Line(borrow_or_evaluate_row(source, points, formula, own, temps)),
    }
}

// A formula as the right operand, which is computed into the row itself unless the left one is there.
#[cycle(evaluate_formula)]
fn borrow_or_evaluate_right_operand<'a, S: RowSource>(
    source: &'a S,
    points: &RowSpan,
    left: Operand,
    formula: &Formula,
    out: &mut [i32],
    temps: &'a mut [i32],
) -> Operand<'a>
    requires fits { length out.old ≡ points.now.len }
    requires formula { IsFormula (formula_view formula.now) }
    requires reads { ReadsWithin (S.has source.now) (formula_view formula.now) points.now.row
        points.now.col (length out.old) }
    requires own { length out.old ≤ length temps.old }
    requires room { HasRoom (formula_view formula.now) (length out.old)
        (length temps.old - length out.old) }
    ensures left { (k : ℕ) → operand_at left.entry out.new k ≡ operand_at left.entry out.old k }
    ensures serves { Serves (length out.old) result }
    ensures values { EachPlace (length out.old) (λ k. operand_at result out.new k
        ≡ formula_value (S.samples source.now) (formula_view formula.now) points.now.row
        (points.now.col +ℤ pos k)) }
{
    let (own, rest) = temps.split_at_mut(out.len());
    match left {
        Operand::Written => borrow_or_evaluate_operand_along_row(
            source, points, formula, own, rest,
        ),
        _ => {
            let row = SourceRow {
                source,
                points: *points,
            };
            row.borrow_operand_or_write_it_into_row(formula, out, rest)
        }
    }
}

impl<'a, S: RowSource> SourceRow<'a, S> {
    // A formula as an operand, if nothing is to be computed: a number, or samples borrowed from the source.
    fn borrow_available_operand(&self, formula: &Formula) -> Option<Operand<'a>>
        requires { ReadsWithin (S.has self.now.source.now) (formula_view formula.now)
            self.now.points.row self.now.points.col self.now.points.len }
        ensures serves { IfSome result (Serves self.now.points.len) }
        ensures given { IfSome result IsGiven }
        ensures values { IfSome result (λ it. (out : List ℤ)
            → EachPlace self.now.points.len (λ k. operand_at it out k
            ≡ formula_value (S.samples self.now.source.now) (formula_view formula.now)
            self.now.points.row (self.now.points.col +ℤ pos k))) }
    {
        match find_constant_along_row(formula, &self.points) {
            Some(number) => Some(Operand::Number(number)),
            None => Some(Operand::Line(self.borrow_samples_of_read_formula(formula)?)),
        }
    }

    /// A formula as an operand, which is computed into the row itself if it is not available.
    #[cycle(evaluate_formula)]
    pub(crate) fn borrow_operand_or_write_it_into_row(
        &self,
        formula: &Formula,
        out: &mut [i32],
        temps: &mut [i32],
    ) -> Operand<'a>
        requires fits { length out.old ≡ self.now.points.len }
        requires formula { IsFormula (formula_view formula.now) }
        requires reads { ReadsWithin (S.has self.now.source.now) (formula_view formula.now)
            self.now.points.row self.now.points.col (length out.old) }
        requires room { HasRoom (formula_view formula.now) (length out.old) (length temps.old) }
        ensures serves { Serves (length out.old) result }
        ensures values { EachPlace (length out.old) (λ k. operand_at result out.new k
            ≡ formula_value (S.samples self.now.source.now) (formula_view formula.now)
            self.now.points.row (self.now.points.col +ℤ pos k)) }
    {
        match self.borrow_available_operand(formula) {
            Some(it) => it,
            None => {
                self.evaluate_formula(formula, out, temps);
                Operand::Written
            }
        }
    }

    // Joins an operand with the values of the right one, which may have a factor, and applies the epilogue.
    #[cycle(evaluate_formula)]
    fn combine_operand_with_right_formula(
        &self,
        op: BinaryOp,
        left: Operand,
        right: &Formula,
        finish: Epilogue,
        out: &mut [i32],
        temps: &mut [i32],
    )
        requires fits { length out.old ≡ self.now.points.len }
        requires left { Serves (length out.old) left }
        requires formula { IsFormula (formula_view right.now) }
        requires reads { ReadsWithin (S.has self.now.source.now) (formula_view right.now)
            self.now.points.row self.now.points.col (length out.old) }
        requires own { length out.old ≤ length temps.old }
        requires room { HasRoom (formula_view right.now) (length out.old)
            (length temps.old - length out.old) }
        ensures { EachPlace (length out.old) (λ k. at out.new k
            ≡ epilogue_value finish (binary_value op (operand_at left.entry out.old k)
            (formula_value (S.samples self.now.source.now) (formula_view right.now)
            self.now.points.row (self.now.points.col +ℤ pos k)))) }
    {
        if let Formula::Binary(BinaryOp::Mul, a, b) = right {
            if let Some(factor) = find_constant_along_row(a, &self.points) {
                let (_, temps) = temps.split_at_mut(out.len());
                let right = borrow_or_evaluate_right_operand(
                    self.source,
                    &self.points,
                    left,
                    b,
                    out,
                    temps,
                );
                return combine_with_scaled_operand(op, out, left, factor, right, finish);
            }
        }
        let right = borrow_or_evaluate_right_operand(
            self.source,
            &self.points,
            left,
            right,
            out,
            temps,
        );
        write_binary_results_to_row(op, out, left, right, finish);
    }

    // Applies an operator and its epilogue.
    #[cycle(evaluate_formula)]
    fn evaluate_binary_with_epilogue(
        &self,
        formula: &Formula,
        finish: Epilogue,
        out: &mut [i32],
        temps: &mut [i32],
    )
        requires fits { length out.old ≡ self.now.points.len }
        requires binary { IsBinary (formula_view formula.now) }
        requires formula { IsFormula (formula_view formula.now) }
        requires reads { ReadsWithin (S.has self.now.source.now) (formula_view formula.now)
            self.now.points.row self.now.points.col (length out.old) }
        requires room { HasRoom (formula_view formula.now) (length out.old) (length temps.old) }
        ensures { EachPlace (length out.old) (λ k. at out.new k
            ≡ epilogue_value finish (formula_value (S.samples self.now.source.now)
            (formula_view formula.now) self.now.points.row (self.now.points.col +ℤ pos k))) }
    {
        let Formula::Binary(op, a, b) = formula else {
            return;
        };
        let left = self.borrow_operand_or_write_it_into_row(a, out, temps);
        self.combine_operand_with_right_formula(*op, left, b, finish, out, temps);
    }

    // What an epilogue makes of the values of a formula, in the pass of its last operator if possible.
    #[cycle(evaluate_formula)]
    fn evaluate_formula_with_epilogue(
        &self,
        formula: &Formula,
        finish: Epilogue,
        out: &mut [i32],
        temps: &mut [i32],
    )
        requires fits { length out.old ≡ self.now.points.len }
        requires formula { IsFormula (formula_view formula.now) }
        requires reads { ReadsWithin (S.has self.now.source.now) (formula_view formula.now)
            self.now.points.row self.now.points.col (length out.old) }
        requires room { HasRoom (formula_view formula.now) (length out.old) (length temps.old) }
        ensures { EachPlace (length out.old) (λ k. at out.new k
            ≡ epilogue_value finish (formula_value (S.samples self.now.source.now)
            (formula_view formula.now) self.now.points.row (self.now.points.col +ℤ pos k))) }
    {
        match formula {
            Formula::Literal(op, a, number) => {
                if let Some(earlier) = finish.prepend_literal_op(*op, *number) {
                    return self.evaluate_formula_with_epilogue(a, earlier, out, temps);
                }
            }
            Formula::Binary(op, a, b) => {
                if let Some(earlier) = fuse_earlier_operator_into_epilogue(finish, *op, b) {
                    return self.evaluate_formula_with_epilogue(a, earlier, out, temps);
                }
                return self.evaluate_binary_with_epilogue(formula, finish, out, temps);
            }
            _ => {}
        }
        let of = self.borrow_operand_or_write_it_into_row(formula, out, temps);
        write_operand_with_epilogue(out, of, finish);
    }

    /// The values of a formula, whose reads take what the source has.
    #[cycle(evaluate_formula)]
    pub fn evaluate_formula(&self, formula: &Formula, out: &mut [i32], temps: &mut [i32])
        requires fits { length out.old ≡ self.now.points.len }
        requires formula { IsFormula (formula_view formula.now) }
        requires reads { ReadsWithin (S.has self.now.source.now) (formula_view formula.now)
            self.now.points.row self.now.points.col (length out.old) }
        requires room { HasRoom (formula_view formula.now) (length out.old) (length temps.old) }
        ensures { EachPlace (length out.old) (λ k. at out.new k
            ≡ formula_value (S.samples self.now.source.now) (formula_view formula.now)
            self.now.points.row (self.now.points.col +ℤ pos k)) }
    {
        match formula {
            Formula::Number(number) => fill_row(out, *number),
            Formula::Coordinate(Axis::Row) => fill_row(out, self.points.row),
            Formula::Coordinate(Axis::Column) => fill_row_counting_up(out, self.points.col),
            Formula::Read(stage, i, j) => self.write_samples_of_read_along_row(*stage, i, j, out),
            Formula::Unary(op, a) => {
                if let Some(finish) = Epilogue::Nothing.prepend_unary(*op) {
                    return self.evaluate_formula_with_epilogue(a, finish, out, temps);
                }
                let of = self.borrow_operand_or_write_it_into_row(a, out, temps);
                write_unary_results_to_row(*op, out, of);
            }
            Formula::Binary(op, a, b) => {
                if let Some(finish) = fuse_earlier_operator_into_epilogue(
                    Epilogue::Nothing,
                    *op,
                    b,
                ) {
                    return self.evaluate_formula_with_epilogue(a, finish, out, temps);
                }
                self.evaluate_binary_with_epilogue(formula, Epilogue::Nothing, out, temps)
            }
            Formula::Ternary(op, a, b, c) => {
                if let Some(finish) = turn_ternary_into_epilogue(*op, b, c, &self.points) {
                    return self.evaluate_formula_with_epilogue(a, finish, out, temps);
                }
                let first = self.borrow_operand_or_write_it_into_row(a, out, temps);
                let n = out.len();
                let (second, rest) = temps.split_at_mut(n);
                let (third, rest) = rest.split_at_mut(n);
                let second = borrow_or_evaluate_operand_along_row(
                    self.source,
                    &self.points,
                    b,
                    second,
                    rest,
                );
                let third = borrow_or_evaluate_operand_along_row(
                    self.source,
                    &self.points,
                    c,
                    third,
                    rest,
                );
                write_ternary_results_to_row(*op, out, first, second, third);
            }
            Formula::Literal(op, a, number) => {
                if let Some(finish) = Epilogue::Nothing.prepend_literal_op(*op, *number) {
                    return self.evaluate_formula_with_epilogue(a, finish, out, temps);
                }
                let left = self.borrow_operand_or_write_it_into_row(a, out, temps);
                write_literal_op_results_to_row(*op, out, left, *number);
            }
            Formula::Lookup(table, a) => {
                let of = self.borrow_operand_or_write_it_into_row(a, out, temps);
                write_table_lookups_to_row(out, of, table);
            }
            Formula::Select(a, relation, b, first, second) => {
                self.evaluate_formula(first, out, temps);
                let n = out.len();
                let (left, rest) = temps.split_at_mut(n);
                let (right, rest) = rest.split_at_mut(n);
                let (other, rest) = rest.split_at_mut(n);
                let left = borrow_or_evaluate_operand_along_row(
                    self.source,
                    &self.points,
                    a,
                    left,
                    rest,
                );
                let right = borrow_or_evaluate_operand_along_row(
                    self.source,
                    &self.points,
                    b,
                    right,
                    rest,
                );
                let other = borrow_or_evaluate_operand_along_row(
                    self.source,
                    &self.points,
                    second,
                    other,
                    rest,
                );
                keep_row_where_operand_relation_holds(out, left, *relation, right, other);
            }
            Formula::Stencil(stage, divisor, kernel) => {
                self.evaluate_stencil(*stage, *divisor, kernel, out, temps)
            }
        }
    }
}
