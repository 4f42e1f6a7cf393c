#![tactic(auto)]
//! Tests at the columns of a phase.

ghost use Rattle.std.specs.Prelude.{◌≡◌, true, All, IfOk, filter_map, map};
ghost use Rattle.std.specs.Option.{option_map};
ghost use Rattle.operators.specs.Views.{test_view};
ghost use Rattle.column_phases.specs.Phases.{IsDecided, fails, fails_any, left};

use crate::phase::ColumnPhase;
use operators::{Axis, PointTest, Relation};
use std::alloc::{AllocError, Global};

impl ColumnPhase {
    // Whether a test is decided at all columns of the phase, or is left of their numbers.
    fn decides_column_phase_test(&self, test: &PointTest) -> bool
        ensures { result ≡ true → IsDecided self.now.period (test_view test.now) }
    {
        match test {
            PointTest::Remainder(Axis::Column, modulus, _) => {
                *modulus != 0 && self.period % *modulus == 0
            }
            PointTest::Compare(Axis::Column, _, bound) => {
                -1_048_576 <= *bound && *bound <= 1_048_576
            }
            _ => true,
        }
    }

    /// Whether all tests are.
    pub(crate) fn decides_column_phase_tests(&self, tests: &[PointTest]) -> bool
        ensures { result ≡ true → All (IsDecided self.now.period) (map test_view tests.now) }
    {
        match tests {
            [first, rest @ ..] => {
                self.decides_column_phase_test(first) && self.decides_column_phase_tests(rest)
            }
            [] => true,
        }
    }

    // Whether a test fails at each column.
    fn fails_column_phase_test(&self, test: &PointTest) -> bool
        requires { IsDecided self.now.period (test_view test.now) }
        ensures { result ≡ fails self.now.period self.now.rest (test_view test.now) }
    {
        match test {
            PointTest::Remainder(Axis::Column, modulus, rest) => self.rest % *modulus != *rest,
            PointTest::Compare(Axis::Column, Relation::Equals, bound) => {
                !self.has_column_phase_column(*bound as i32)
            }
            _ => false,
        }
    }

    /// Whether one of the tests does.
    pub(crate) fn fails_column_phase_tests(&self, tests: &[PointTest]) -> bool
        requires decided { All (IsDecided self.now.period) (map test_view tests.now) }
        ensures { result ≡ fails_any self.now.period self.now.rest (map test_view tests.now) }
    {
        match tests {
            [first, rest @ ..] => {
                self.fails_column_phase_test(first) || self.fails_column_phase_tests(rest)
            }
            [] => false,
        }
    }

    // What is left of a test.
    fn find_left_column_phase_test(&self, test: &PointTest) -> Option<PointTest>
        requires { IsDecided self.now.period (test_view test.now) }
        ensures { option_map test_view result
            ≡ left self.now.period self.now.rest (test_view test.now) }
    {
        let (relation, bound) = match test {
            PointTest::Compare(Axis::Column, relation, bound) => (*relation, *bound as i32),
            PointTest::Remainder(Axis::Column, _, _) => return None,
            _ => return Some(*test),
        };
        let number = match relation {
            Relation::AtLeast => self.find_first_column_phase_number(bound),
            Relation::AtMost | Relation::Equals => self.find_last_column_phase_number(bound),
        };
        Some(PointTest::Compare(Axis::Column, relation, i128::from(number)))
    }

    /// What is left of tests.
    pub(crate) fn list_left_column_phase_tests(
        &self,
        alloc: Global,
        tests: &[PointTest],
    ) -> Result<Vec<PointTest>, AllocError>
        requires { All (IsDecided self.now.period) (map test_view tests.now) }
        ensures { IfOk result (λ made. map test_view made.items
            ≡ filter_map (left self.now.period self.now.rest) (map test_view tests.now)) }
    {
        let mut made = Vec::new(alloc);
        for test in tests {
            if let Some(test) = self.find_left_column_phase_test(test) {
                made.push(test)?;
            }
        }
        Ok(made)
    }
}
