#![tactic(auto)]
//! What is known of stages.

ghost use Rattle.std.specs.Prelude.{IfSome};
ghost use Rattle.job.specs.Views.{formula_view};
ghost use Rattle.joined_formulas.specs.inside.Found.{IsFound};

use job::Formula;

/// A stage, and a formula that has its value at each point of its domain.
#[derive(Debug, Drop)]
pub struct StageFormula {
    pub stage: usize,
    pub formula: Formula,
    /// Whether the stage has a value wherever all that the formula reads has one. Then it is read where the formula is, else the formula
    /// stands where it is read.
    pub whole: bool,
}

/// The formula of this stage, if one is known to stand for it where it is read.
pub(crate) fn find_stage_formula(known: &[StageFormula], stage: usize) -> Option<&Formula>
    ensures { IfSome result (λ formula. IsFound known.now stage (formula_view formula.now)) }
{
    for each in known {
        if each.stage == stage && !each.whole {
            return Some(&each.formula);
        }
    }
    None
}
