#![tactic(auto)]
//! The columns of a phase.

ghost use Rattle.std.specs.Prelude.{◌≡◌, ◌≤◌, ◌<◌, ◌-ℤ◌, ◌*ℤ◌, ◌≤ℤ◌, pos, negsuc, int_le, true, false, IfOk, IfSome, IfNone};
ghost use Rattle.std.specs.Ordering.{int_eq};
ghost use Rattle.domains.specs.Arithmetic.{floor_div, floor_rem};
ghost use Rattle.column_phases.specs.Phases.{first_from, last_to, phase_ends, phase_box, phase_index, HasSteps};

use crate::phase_fault::PhaseFault;
use domains::arithmetic::{floor_div, floor_rem};
use domains::{Area, Index, Span};

/// The columns that leave a rest by a period: number j of them is `period * j + rest`.
#[derive(Clone, Copy, Debug)]
pub(crate) struct ColumnPhase {
    pub(crate) period: u32,
    pub(crate) rest: u32,
    ghost least: { 2 ≤ period },
    ghost most: { period ≤ 4 },
    ghost below: { rest < period },
}

impl ColumnPhase {
    /// The period.
    #[tactic(auto, using(std::proofs::lemmas::Int::ints))]
    fn get_column_phase_period(&self) -> i32
        ensures period { result ≡ pos self.now.period }
        ensures least { pos 2 ≤ℤ result }
        ensures most { result ≤ℤ pos 4 }
    {
        self.period as i32
    }

    /// The rest.
    #[tactic(auto, using(std::proofs::lemmas::Int::ints))]
    fn get_column_phase_rest(&self) -> i32
        ensures rest { result ≡ pos self.now.rest }
        ensures least { pos 0 ≤ℤ result }
        ensures most { result ≤ℤ pos 3 }
    {
        self.rest as i32
    }

    /// The greatest number whose column is at most `bound`.
    #[tactic(auto, using(std::proofs::lemmas::Int::ints))]
    pub(crate) fn find_last_column_phase_number(&self, bound: i32) -> i32
        requires least { negsuc 1048575 ≤ℤ bound }
        requires most { bound ≤ℤ pos 1048580 }
        ensures { result ≡ last_to self.now.period self.now.rest bound }
    {
        floor_div(
            bound - self.get_column_phase_rest(),
            self.get_column_phase_period(),
        )
    }

    /// The least number whose column is at least `bound`.
    #[tactic(auto, using(std::proofs::lemmas::Int::ints))]
    pub(crate) fn find_first_column_phase_number(&self, bound: i32) -> i32
        requires least { negsuc 1048575 ≤ℤ bound }
        requires most { bound ≤ℤ pos 1048576 }
        ensures { result ≡ first_from self.now.period self.now.rest bound }
    {
        self.find_last_column_phase_number(bound + self.get_column_phase_period() - 1)
    }

    /// Whether a column is one of them.
    #[tactic(auto, using(std::proofs::lemmas::Int::ints))]
    pub(crate) fn has_column_phase_column(&self, col: i32) -> bool
        requires least { negsuc 1048575 ≤ℤ col }
        requires most { col ≤ℤ pos 1048576 }
        ensures { result ≡ int_eq (floor_rem (col -ℤ pos self.now.rest) (pos self.now.period)) (pos 0) }
    {
        floor_rem(
            col - self.get_column_phase_rest(),
            self.get_column_phase_period(),
        ) == 0
    }

    // The numbers of the columns that lie in a span.
    fn find_column_phase_span(&self, cols: &Span) -> Option<Span>
        ensures some { IfSome result (λ s. s ≡ phase_ends self.now.period self.now.rest cols.now) }
        ensures ordered { IfSome result (λ s. int_le s.lo s.hi ≡ true) }
        ensures none { IfNone result (int_le (phase_ends self.now.period self.now.rest cols.now).lo
            (phase_ends self.now.period self.now.rest cols.now).hi ≡ false) }
    {
        let first = self.find_first_column_phase_number(cols.lo());
        let last = self.find_last_column_phase_number(cols.hi());
        Span::new(first, last)
    }

    /// The numbers of the columns that lie in a box.
    pub(crate) fn find_column_phase_box(&self, area: &Option<Area>) -> Option<Area>
        ensures { result ≡ phase_box self.now.period self.now.rest area.now }
    {
        match area {
            Some(area) => match self.find_column_phase_span(&area.cols) {
                Some(cols) => Some(Area {
                    rows: area.rows,
                    cols,
                }),
                None => None,
            },
            None => None,
        }
    }

    // By how many columns an index goes on along the phase, if by a whole number.
    #[tactic(auto, using(std::proofs::lemmas::Int::ints))]
    fn find_column_phase_step(&self, col: &Index) -> Option<i32>
        ensures step { IfSome result (λ step. step
            ≡ floor_div (col.now.mul *ℤ pos self.now.period) col.now.div) }
        ensures whole { IfSome result (λ _. floor_rem (col.now.mul *ℤ pos self.now.period) col.now.div
            ≡ pos 0) }
    {
        let steps = col.mul() * self.get_column_phase_period();
        if floor_rem(steps, col.div()) != 0 {
            return None;
        }
        Some(floor_div(steps, col.div()))
    }

    /// The index that takes the number of a column to what this index takes the column to.
    pub(crate) fn make_column_phase_index(&self, col: &Index) -> Result<Index, PhaseFault>
        ensures index { IfOk result (λ it. it ≡ phase_index self.now.period self.now.rest col.now) }
        ensures steps { IfOk result (λ _. HasSteps self.now.period self.now.rest col.now) }
    {
        let Some(step) = self.find_column_phase_step(col) else {
            return Err(PhaseFault::NoPhase);
        };
        match Index::new(step, col.at(self.get_column_phase_rest()), 1) {
            Some(index) => Ok(index),
            None => Err(PhaseFault::NoPhase),
        }
    }
}
