#![tactic(auto)]
//! Formulas at the columns of a phase.

ghost use Rattle.std.specs.Prelude.{◌≡◌, IfOk};
ghost use Rattle.job.specs.Views.{formula_view};
ghost use Rattle.column_phases.specs.Phases.{Steps, phase_formula};

use crate::phase::ColumnPhase;
use crate::phase_fault::PhaseFault;
use job::Formula;
use operators::Axis;
use std::alloc::Global;

impl ColumnPhase {
    #[cycle(make_column_phase_formula)]
    fn make_column_phase_formula_in_box(
        &self,
        alloc: Global,
        formula: &Formula,
    ) -> Result<Box<Formula>, PhaseFault>
        ensures made { IfOk result (λ made. formula_view made.value
            ≡ phase_formula self.now.period self.now.rest (formula_view formula.now)) }
        ensures steps { IfOk result (λ _. Steps self.now.period self.now.rest (formula_view formula.now)) }
    {
        let made = self.make_column_phase_formula(alloc, formula)?;
        Ok(Box::new(alloc, made)?)
    }

    /// The formula that has at the number of a column what this formula has at the column.
    #[cycle(make_column_phase_formula)]
    pub(crate) fn make_column_phase_formula(
        &self,
        alloc: Global,
        formula: &Formula,
    ) -> Result<Formula, PhaseFault>
        ensures made { IfOk result (λ made. formula_view made
            ≡ phase_formula self.now.period self.now.rest (formula_view formula.now)) }
        ensures steps { IfOk result (λ _. Steps self.now.period self.now.rest (formula_view formula.now)) }
    {
        match formula {
            Formula::Number(number) => Ok(Formula::Number(*number)),
            Formula::Coordinate(Axis::Row) => Ok(Formula::Coordinate(Axis::Row)),
            Formula::Coordinate(Axis::Column) => Err(PhaseFault::NoPhase),
            Formula::Read(stage, row, col) => {
                let col = self.make_column_phase_index(col)?;
                Ok(Formula::Read(*stage, *row, col))
            }
            Formula::Unary(op, of) => {
                let of = self.make_column_phase_formula_in_box(alloc, of)?;
                Ok(Formula::Unary(*op, of))
            }
            Formula::Binary(op, left, right) => {
                let left = self.make_column_phase_formula_in_box(alloc, left)?;
                let right = self.make_column_phase_formula_in_box(alloc, right)?;
                Ok(Formula::Binary(*op, left, right))
            }
            Formula::Ternary(op, first, second, third) => {
                let first = self.make_column_phase_formula_in_box(alloc, first)?;
                let second = self.make_column_phase_formula_in_box(alloc, second)?;
                let third = self.make_column_phase_formula_in_box(alloc, third)?;
                Ok(Formula::Ternary(*op, first, second, third))
            }
            Formula::Literal(op, of, number) => {
                let of = self.make_column_phase_formula_in_box(alloc, of)?;
                Ok(Formula::Literal(*op, of, *number))
            }
            Formula::Lookup(entries, index) => {
                let index = self.make_column_phase_formula_in_box(alloc, index)?;
                Ok(Formula::Lookup(entries.clone()?, index))
            }
            Formula::Select(left, relation, right, then, otherwise) => {
                let left = self.make_column_phase_formula_in_box(alloc, left)?;
                let right = self.make_column_phase_formula_in_box(alloc, right)?;
                let then = self.make_column_phase_formula_in_box(alloc, then)?;
                let otherwise = self.make_column_phase_formula_in_box(alloc, otherwise)?;
                Ok(Formula::Select(left, *relation, right, then, otherwise))
            }
            Formula::Stencil(_, _, _) => Err(PhaseFault::NoPhase),
        }
    }
}
