#![tactic(auto)]
//! The capacity that the operands of formulas need.

ghost use Rattle.std.specs.Prelude.{◌+◌, ◌*◌, ℕ, max, map, All};
ghost use Rattle.std.specs.Option.{option_map, ForSome};
ghost use Rattle.job.specs.Views.{case_view, formula_view};
ghost use Rattle.tile_eval.specs.Counted.{IsLeast};
ghost use Rattle.tile_eval.specs.inside.Counted.{IsCounted};
ghost use Rattle.tile_eval.specs.Reading.{HasRoom, HasFunctionRoom};

use job::{Formula, Function, JobCase};

// The greater of two capacities.
fn find_greater_capacity(first: Option<usize>, second: Option<usize>) -> Option<usize>
    ensures { (a b : ℕ) → IsCounted first a → IsCounted second b → IsCounted result (max a b) }
{
    Some(first?.max(second?))
}

// The capacity for `rows` rows of `n` numbers and for what else is needed.
fn add_capacity_of_rows(rows: usize, n: usize, rest: Option<usize>) -> Option<usize>
    ensures { (a : ℕ) → IsCounted rest a → IsCounted result (n * rows + a) }
{
    n.checked_mul(rows)?.checked_add(rest?)
}

/// The least capacity for the operands of a formula at `n` points, if that many numbers can be counted.
pub fn compute_operand_capacity_of_formula(formula: &Formula, n: usize) -> Option<usize>
    ensures { IsLeast (HasRoom (formula_view formula.now) n) result }
{
    match formula {
        Formula::Number(_) | Formula::Coordinate(_) | Formula::Read(_, _, _) => Some(0),
        Formula::Unary(_, a) | Formula::Literal(_, a, _) | Formula::Lookup(_, a) => {
            compute_operand_capacity_of_formula(a, n)
        }
        Formula::Binary(_, a, b) => {
            let right = add_capacity_of_rows(1, n, compute_operand_capacity_of_formula(b, n));
            find_greater_capacity(compute_operand_capacity_of_formula(a, n), right)
        }
        Formula::Ternary(_, a, b, c) => {
            let rest = find_greater_capacity(
                compute_operand_capacity_of_formula(b, n),
                compute_operand_capacity_of_formula(c, n),
            );
            find_greater_capacity(
                compute_operand_capacity_of_formula(a, n),
                add_capacity_of_rows(2, n, rest),
            )
        }
        Formula::Select(a, _, b, first, second) => {
            let compared = find_greater_capacity(
                compute_operand_capacity_of_formula(a, n),
                compute_operand_capacity_of_formula(b, n),
            );
            let others = find_greater_capacity(
                compared,
                compute_operand_capacity_of_formula(second, n),
            );
            find_greater_capacity(
                compute_operand_capacity_of_formula(first, n),
                add_capacity_of_rows(3, n, others),
            )
        }
        Formula::Stencil(_, _, _) => n.checked_add(14),
    }
}

// The least capacity for the operands of each of some cases.
fn compute_operand_capacity_of_cases(cases: &[JobCase], n: usize) -> Option<usize>
    ensures { IsLeast (λ room. All (λ p. HasRoom (formula_view p.formula) n room) cases.now)
        result }
{
    let mut room = Some(0);
    for case in cases {
        room = find_greater_capacity(room, compute_operand_capacity_of_formula(case.formula(), n));
    }
    room
}

// The least capacity for the formula where no case holds.
fn compute_operand_capacity_of_otherwise(otherwise: &Option<Formula>, n: usize) -> Option<usize>
    ensures { IsLeast
        (λ room. ForSome (option_map formula_view otherwise.now) (λ f. HasRoom f n room)) result }
{
    match otherwise {
        Some(formula) => compute_operand_capacity_of_formula(formula, n),
        None => Some(0),
    }
}

/// The least capacity that a function needs at `n` points, if that many numbers can be counted. It is for one row beside the
/// operands of each case, and for those of the formula where no case holds.
pub fn compute_operand_capacity_of_function(function: &Function, n: usize) -> Option<usize>
    ensures { IsLeast (λ room. HasFunctionRoom n room (map case_view function.now.cases.items)
        (option_map formula_view function.now.otherwise)) result }
{
    let cases = add_capacity_of_rows(1, n, compute_operand_capacity_of_cases(function.cases(), n));
    find_greater_capacity(
        cases,
        compute_operand_capacity_of_otherwise(function.otherwise(), n),
    )
}
