#![tactic(auto)]
//! Functions at the columns of a phase.

ghost use Rattle.std.specs.Prelude.{◌≡◌, All, IfOk, map};
ghost use Rattle.std.specs.Option.{option_map, ForSome};
ghost use Rattle.job.specs.Views.{case_view, formula_view};
ghost use Rattle.column_phases.specs.Phases.{IsDecided, Steps, IsPhaseOf, phase_case, phase_cases, phase_formula};

use crate::phase::ColumnPhase;
use crate::phase_fault::PhaseFault;
use job::{Formula, Function, JobCase};
use std::alloc::Global;

impl ColumnPhase {
    // The case at the columns.
    fn make_column_phase_case(&self, alloc: Global, case: &JobCase) -> Result<JobCase, PhaseFault>
        requires { All (IsDecided self.now.period) (case_view case.now).tests }
        ensures made { IfOk result (λ made. case_view made
            ≡ phase_case self.now.period self.now.rest (case_view case.now)) }
        ensures steps { IfOk result (λ _. Steps self.now.period self.now.rest (case_view case.now).formula) }
    {
        let formula = self.make_column_phase_formula(alloc, case.formula())?;
        let tests = self.list_left_column_phase_tests(alloc, case.tests())?;
        let area = self.find_column_phase_box(case.area());
        Ok(JobCase::new(alloc, area, tests, formula)?)
    }

    // The cases at the columns, without those that hold at none of them.
    fn list_column_phase_cases(
        &self,
        alloc: Global,
        cases: &[JobCase],
    ) -> Result<Vec<JobCase>, PhaseFault>
        ensures made { IfOk result (λ made. map case_view made.items
            ≡ phase_cases self.now.period self.now.rest (map case_view cases.now)) }
        ensures decided { IfOk result (λ _. All (λ q. All (IsDecided self.now.period) q.tests)
            (map case_view cases.now)) }
        ensures steps { IfOk result (λ _. All (λ q. Steps self.now.period self.now.rest q.formula)
            (map case_view cases.now)) }
    {
        let mut made = Vec::with_capacity(alloc, cases.len())?;
        for case in cases {
            if !self.decides_column_phase_tests(case.tests()) {
                return Err(PhaseFault::NoPhase);
            }
            let phase = self.make_column_phase_case(alloc, case)?;
            if !self.fails_column_phase_tests(case.tests()) {
                made.push(phase)?;
            }
        }
        Ok(made)
    }

    // The formula outside the cases, if there is one.
    fn make_column_phase_otherwise(
        &self,
        alloc: Global,
        otherwise: &Option<Formula>,
    ) -> Result<Option<Formula>, PhaseFault>
        ensures made { IfOk result (λ made. option_map formula_view made
            ≡ option_map (phase_formula self.now.period self.now.rest)
            (option_map formula_view otherwise.now)) }
        ensures steps { IfOk result (λ _. ForSome (option_map formula_view otherwise.now)
            (Steps self.now.period self.now.rest)) }
    {
        match otherwise {
            Some(formula) => Ok(Some(self.make_column_phase_formula(alloc, formula)?)),
            None => Ok(None),
        }
    }

    /// The function that has at the number of a column what this function has at the column.
    pub(crate) fn make_column_phase_function(
        &self,
        alloc: Global,
        function: &Function,
    ) -> Result<Function, PhaseFault>
        ensures { IfOk result (λ made. IsPhaseOf self.now.period self.now.rest made
            (map case_view function.now.cases.items)
            (option_map formula_view function.now.otherwise)) }
    {
        let cases = self.list_column_phase_cases(alloc, function.cases())?;
        let otherwise = self.make_column_phase_otherwise(alloc, function.otherwise())?;
        Ok(Function::new(alloc, cases, otherwise)?)
    }
}
