#![tactic(auto)]
//! How much work a point of a stage is.

ghost use Rattle.std.specs.Prelude.{◌≡◌, ◌+◌, ◌-◌, ◌^◌, min, map};
ghost use Rattle.std.specs.List.{sum};
ghost use Rattle.std.specs.Option.{option_map};
ghost use Rattle.job.specs.Views.{formula_view, case_view, body_view, stage_view};
ghost use Rattle.tile_run.specs.PointWork.{work_in, work_of_case, work_of_other, work_of, factors};

use job::{Body, Formula, JobCase, KernelFactors, Stage};

/// How much work a point of a stage is: the reads, operators and kernel factors of its formulas, and one for writing it.
pub fn count_point_run_work(stage: &Stage) -> u64
    ensures { result ≡ min (work_of (stage_view stage.now).body + 1) (2 ^ 64 - 1) }
{
    count_body_run_work(stage.body()).saturating_add(1)
}

fn count_body_run_work(body: &Body) -> u64
    ensures { result ≡ min (work_of (body_view body.now)) (2 ^ 64 - 1) }
{
    match body {
        Body::Plane(_) => 0,
        Body::Function(given) => {
            count_cases_run_work(given.cases()).saturating_add(count_otherwise_run_work(
                given.otherwise(),
            ))
        }
        Body::Accumulator(given) => count_formula_run_work(given.value()).saturating_add(
            count_formula_run_work(given.bin()),
        ),
    }
}

fn count_otherwise_run_work(formula: &Option<Formula>) -> u64
    ensures { result ≡ min (work_of_other (option_map formula_view formula.now)) (2 ^ 64 - 1) }
{
    match formula {
        Some(formula) => count_formula_run_work(formula),
        None => 0,
    }
}

fn count_cases_run_work(cases: &[JobCase]) -> u64
    ensures { result ≡ min (sum (map work_of_case (map case_view cases.now))) (2 ^ 64 - 1) }
{
    let mut work = 0u64;
    for case in cases {
        work = work.saturating_add(count_formula_run_work(case.formula()));
    }
    work
}

fn count_formula_run_work(formula: &Formula) -> u64
    ensures { result ≡ min (work_in (formula_view formula.now)) (2 ^ 64 - 1) }
{
    match formula {
        Formula::Number(_) | Formula::Coordinate(_) => 0,
        Formula::Read(_, _, _) => 1,
        Formula::Unary(_, operand)
        | Formula::Lookup(_, operand)
        | Formula::Literal(_, operand, _) => count_formula_run_work(operand).saturating_add(1),
        Formula::Binary(_, left, right) => {
            count_formula_run_work(left)
                .saturating_add(count_formula_run_work(right))
                .saturating_add(1)
        }
        Formula::Ternary(_, first, second, third) => count_formula_run_work(first)
            .saturating_add(count_formula_run_work(second))
            .saturating_add(count_formula_run_work(third))
            .saturating_add(1),
        Formula::Select(left, _, right, then, otherwise) => count_formula_run_work(left)
            .saturating_add(count_formula_run_work(right))
            .saturating_add(count_formula_run_work(then))
            .saturating_add(count_formula_run_work(otherwise))
            .saturating_add(1),
        Formula::Stencil(_, _, kernel) => count_kernel_run_work(kernel.as_slice()),
    }
}

fn count_kernel_run_work(kernel: &[KernelFactors]) -> u64
    ensures { result ≡ min (factors kernel.now) (2 ^ 64 - 1) }
{
    let mut count = 0u64;
    for row in kernel {
        count = count.saturating_add(row.as_slice().len() as u64);
    }
    count
}
