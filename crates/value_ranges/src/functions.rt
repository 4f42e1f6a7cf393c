#![tactic(auto)]
//! Ranges of functions.

ghost use Rattle.std.specs.Prelude.{map, All};
ghost use Rattle.std.specs.Option.{option_map};
ghost use Rattle.job.specs.Views.{case_view, formula_view};
ghost use Rattle.value_ranges.specs.inside.Found.{IsWider, IsFoundCase, IsFoundElsewhere, IsFoundFunction};

use crate::formulas::{FoundRange, find_value_range_of_formula, join_found_value_ranges};
use crate::value_range::ValueRange;
use job::{Formula, Function, JobCase};

// What is found of the formula where no case holds: 0, if there is none.
fn find_value_range_of_otherwise(otherwise: &Option<Formula>, ranges: &[ValueRange]) -> FoundRange
    ensures { IsFoundElsewhere ranges.now (option_map formula_view otherwise.now) result }
{
    match otherwise {
        Some(formula) => find_value_range_of_formula(formula, ranges),
        None => FoundRange {
            range: ValueRange { lo: 0, hi: 0 },
            narrow: true,
        },
    }
}

// What was found, made wide enough for one more case.
fn widen_value_range_by_case(found: FoundRange, case: &JobCase, ranges: &[ValueRange]) -> FoundRange
    ensures wider { IsWider found result }
    ensures case { IsFoundCase ranges.now (case_view case.now) result }
{
    let more = find_value_range_of_formula(case.formula(), ranges);
    join_found_value_ranges(found, more)
}

// The same of several cases.
fn widen_value_range_by_cases(
    found: FoundRange,
    cases: &[JobCase],
    ranges: &[ValueRange],
) -> FoundRange
    ensures wider { IsWider found result }
    ensures cases { All (λ p. IsFoundCase ranges.now (case_view p) result) cases.now }
{
    let mut all = found;
    for case in cases {
        all = widen_value_range_by_case(all, case, ranges);
    }
    all
}

// What is found of a function: it holds of each case, and of what holds elsewhere.
pub(crate) fn find_value_range_of_function(function: &Function, ranges: &[ValueRange]) -> FoundRange
    ensures { IsFoundFunction ranges.now (map case_view function.now.cases.items)
        (option_map formula_view function.now.otherwise) result }
{
    let found = find_value_range_of_otherwise(function.otherwise(), ranges);
    widen_value_range_by_cases(found, function.cases(), ranges)
}
