#![tactic(auto)]
//! Steps of a plan that the next ones repeat.

ghost use Rattle.std.specs.Prelude.{◌≡◌, ◌++◌, true, IfSome};
ghost use Rattle.row_plans.specs.Leads.{copies_of};

use crate::plan::PlanStep;

/// Steps of a plan that the next ones repeat: how many lie before them, and how many they are.
#[derive(Clone, Copy)]
pub(crate) struct RepeatedPlanSteps {
    pub(crate) before: usize,
    pub(crate) count: usize,
}

// Whether two lists have the same steps.
fn are_plan_steps_same(steps: &[PlanStep], others: &[PlanStep]) -> bool
    ensures { result ≡ true → steps.now ≡ others.now }
{
    if steps.len() != others.len() {
        return false;
    }
    for place in 0..steps.len() {
        if steps[place] != others[place] {
            return false;
        }
    }
    true
}

// The steps after the first ones, if these are those of the period.
fn skip_plan_steps_of_period<'a>(
    period: &[PlanStep],
    steps: &'a [PlanStep],
) -> Option<&'a [PlanStep]>
    ensures { IfSome result (λ after. steps.now ≡ period.now ++ after.now) }
{
    if period.is_empty() || steps.len() < period.len() {
        return None;
    }
    let (copy, after) = steps.split_at(period.len());
    if are_plan_steps_same(copy, period) {
        Some(after)
    } else {
        None
    }
}

/// How often the steps begin with a period, and the steps after that.
pub(crate) fn count_repeated_plan_steps<'a>(
    period: &[PlanStep],
    steps: &'a [PlanStep],
) -> (usize, &'a [PlanStep])
    ensures { steps.now ≡ copies_of result.0 period.now ++ result.1.now }
{
    let mut left = steps;
    for times in 0..steps.len() {
        match skip_plan_steps_of_period(period, left) {
            Some(after) => left = after,
            None => return (times, left),
        }
    }
    (steps.len(), left)
}
