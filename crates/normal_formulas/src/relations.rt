#![tactic(auto)]
//! Comparisons, whose number stands on the right, and of which the lesser formula stands on the left.

ghost use Rattle.job.specs.Formula.{select};
ghost use Rattle.job.specs.Views.{formula_view};
ghost use Rattle.normal_formulas.specs.Rewrites.{Rewrites};
ghost use Rattle.std.specs.Prelude.{◌≡◌, ℤ};
ghost use Rattle.operators.specs.Values.{is_related};

use job::Formula;
use operators::Relation;

// The relation that holds of two numbers where a relation holds of them in the other order.
fn mirror_normal_relation(relation: Relation) -> Relation
    ensures { (a b : ℤ) → is_related result b a ≡ is_related relation a b }
{
    match relation {
        Relation::AtMost => Relation::AtLeast,
        Relation::AtLeast => Relation::AtMost,
        Relation::Equals => Relation::Equals,
    }
}

// Whether a comparison is spelled the other way round: a number stands on the right, and of two formulas the first is at most the second.
fn is_normal_relation_mirrored(left: &Formula, relation: Relation, right: &Formula) -> bool {
    match (left, relation, right) {
        (Formula::Number(_), _, _) => true,
        (_, _, Formula::Number(_)) => false,
        (_, Relation::AtLeast, _) => true,
        (_, Relation::AtMost | Relation::Equals, _) => false,
    }
}

/// One of two formulas, by a relation of two others.
pub(crate) fn choose_normal_formula(
    left: Box<Formula>,
    relation: Relation,
    right: Box<Formula>,
    then: Box<Formula>,
    otherwise: Box<Formula>,
) -> Formula
    ensures { Rewrites (select (formula_view left.value) relation (formula_view right.value)
        (formula_view then.value) (formula_view otherwise.value)) (formula_view result) }
{
    if is_normal_relation_mirrored(&left, relation, &right) {
        let mirrored = mirror_normal_relation(relation);
        Formula::Select(right, mirrored, left, then, otherwise)
    } else {
        Formula::Select(left, relation, right, then, otherwise)
    }
}
