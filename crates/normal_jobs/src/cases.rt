#![tactic(auto)]
//! Cases of functions whose formulas are joined and in normal form.

ghost use Rattle.std.specs.Prelude.{◌≡◌, IfOk, map};
ghost use Rattle.std.specs.List.{AllZip};
ghost use Rattle.std.specs.Option.{option_map};
ghost use Rattle.job.specs.Views.{case_view, formula_view};
ghost use Rattle.joined_formulas.specs.Joins.{Joins};
ghost use Rattle.normal_jobs.specs.StandIns.{StandsForCase, StandsForOther};

use job::{Formula, Function, JobCase};
use joined_formulas::{StageFormula, find_joined_part, make_joined_formula};
use std::alloc::{AllocError, Global};

// The formula of a function with cases in normal form. (It may be the read of a stage that has its values. A function without cases reads
// no such stage: this may be itself.)
fn make_normal_case_formula(
    alloc: Global,
    known: &[StageFormula],
    formula: &Formula,
) -> Result<Formula, AllocError>
    ensures { IfOk result (λ made. Joins known.now (formula_view formula.now) (formula_view made)) }
{
    match find_joined_part(known, formula) {
        Some(read) => Ok(read),
        None => make_joined_formula(alloc, known, formula),
    }
}

// The case with its formula in normal form.
fn make_normal_case(
    alloc: Global,
    known: &[StageFormula],
    case: &JobCase,
) -> Result<JobCase, AllocError>
    ensures { IfOk result (λ made. StandsForCase known.now (case_view case.now) (case_view made)) }
{
    let formula = make_normal_case_formula(alloc, known, case.formula())?;
    JobCase::new(alloc, *case.area(), case.tests().to_vec(alloc)?, formula)
}

// All cases of a function.
fn make_normal_cases(
    alloc: Global,
    known: &[StageFormula],
    cases: &[JobCase],
) -> Result<Vec<JobCase>, AllocError>
    ensures { IfOk result (λ made. AllZip (StandsForCase known.now) (map case_view cases.now)
        (map case_view made.items)) }
{
    let mut made = Vec::with_capacity(alloc, cases.len())?;
    for case in cases {
        made.push(make_normal_case(alloc, known, case)?)?;
    }
    Ok(made)
}

// The formula outside the cases, if there is one.
fn make_normal_otherwise(
    alloc: Global,
    known: &[StageFormula],
    otherwise: &Option<Formula>,
    has_cases: bool,
) -> Result<Option<Formula>, AllocError>
    ensures { IfOk result (λ made. StandsForOther known.now (option_map formula_view otherwise.now)
        (option_map formula_view made)) }
{
    match otherwise {
        Some(formula) if has_cases => { Ok(Some(make_normal_case_formula(alloc, known, formula)?)) }
        Some(formula) => Ok(Some(make_joined_formula(alloc, known, formula)?)),
        None => Ok(None),
    }
}

/// The function with its formulas joined and in normal form.
///
/// # Errors
///
/// Fails only where memory is refused.
pub(crate) fn make_normal_function(
    alloc: Global,
    known: &[StageFormula],
    function: &Function,
) -> Result<Function, AllocError>
    ensures cases { IfOk result (λ made. AllZip (StandsForCase known.now)
        (map case_view function.now.cases.items) (map case_view made.cases.items)) }
    ensures other { IfOk result (λ made. StandsForOther known.now
        (option_map formula_view function.now.otherwise)
        (option_map formula_view made.otherwise)) }
{
    let cases = make_normal_cases(alloc, known, function.cases())?;
    let has_cases = !function.cases().is_empty();
    let otherwise = make_normal_otherwise(alloc, known, function.otherwise(), has_cases)?;
    Function::new(alloc, cases, otherwise)
}
