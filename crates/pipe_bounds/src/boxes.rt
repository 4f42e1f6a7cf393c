#![tactic(auto)]
//! The box of a case: the points of the domain at which its tests of bounds hold.

ghost use Rattle.std.specs.Prelude.{◌≡◌, ◌≤ℤ◌, IfOk};
ghost use Rattle.pipe_tree.specs.Tree.{branches};
ghost use Rattle.pipe_bounds.specs.Boxes.{Meets, BoundHolds};
ghost use Rattle.pipe_bounds.specs.StageBounds.{IsBox, AreBoxes};
ghost use Rattle.domains.specs.Cuts.{IsCut, IsCutArea};
ghost use Rattle.pipe_bounds.specs.Settings.{affine_value};

use crate::affine::affine_value;
use crate::params::Params;
use domains::{Area, Span};
use operators::Relation;
use pipe_checks::is_same_name;
use pipe_tokens::Name;
use pipe_tree::{Case, Test};
use std::alloc::{AllocError, Global};

fn clamp_case_box_span_to_at_most(span: &Span, bound: i128) -> Option<Span>
    ensures { IsCut (λ v. v ≤ℤ bound) span.now result }
{
    if i128::from(span.hi()) <= bound {
        return Some(*span);
    }
    if bound < i128::from(span.lo()) {
        return None;
    }
    Span::new(span.lo(), bound as i32)
}

fn clamp_case_box_span_to_at_least(span: &Span, bound: i128) -> Option<Span>
    ensures { IsCut (λ v. bound ≤ℤ v) span.now result }
{
    if bound <= i128::from(span.lo()) {
        return Some(*span);
    }
    if i128::from(span.hi()) < bound {
        return None;
    }
    Span::new(bound as i32, span.hi())
}

fn clamp_case_box_span_by_relation(span: &Span, relation: Relation, bound: i128) -> Option<Span>
    ensures { IsCut (λ v. Meets relation v bound) span.now result }
{
    match relation {
        Relation::AtMost => clamp_case_box_span_to_at_most(span, bound),
        Relation::AtLeast => clamp_case_box_span_to_at_least(span, bound),
        Relation::Equals => clamp_case_box_span_to_at_least(
            &clamp_case_box_span_to_at_most(span, bound)?,
            bound,
        ),
    }
}

fn clamp_case_box_by_test(params: &Params, row: &Name, area: &Area, test: &Test) -> Option<Area>
    ensures { IsCutArea (BoundHolds params.now row.now test.now) area.now result }
{
    match test {
        Test::Compare(name, relation, bound) => {
            let bound = affine_value(params, bound);
            if is_same_name(name, row) {
                let rows = clamp_case_box_span_by_relation(&area.rows, *relation, bound)?;
                Some(Area {
                    rows,
                    cols: area.cols,
                })
            } else {
                let cols = clamp_case_box_span_by_relation(&area.cols, *relation, bound)?;
                Some(Area {
                    rows: area.rows,
                    cols,
                })
            }
        }
        Test::Remainder(_, _, _) => Some(*area),
    }
}

// The points of a domain at which all tests of bounds of a case hold. The variable of the rows is `row`; any other name is the
// variable of the columns. Tests of a remainder exclude no points.
fn case_box(params: &Params, row: &Name, domain: &Area, tests: &[Test]) -> Option<Area>
    ensures { IsBox params.now row.now domain.now tests.now result }
{
    let mut left = *domain;
    for test in tests {
        left = clamp_case_box_by_test(params, row, &left, test)?;
    }
    let _ = left.points();
    Some(left)
}

/// The boxes of the cases of a function, in the order of the text.
pub(crate) fn case_boxes(
    alloc: Global,
    params: &Params,
    row: &Name,
    domain: &Area,
    cases: &[Case],
) -> Result<Vec<Option<Area>>, AllocError>
    ensures { IfOk result
        (λ v. AreBoxes params.now row.now domain.now (branches cases.now) v.items) }
{
    let mut boxes = Vec::new(alloc);
    for case in cases {
        boxes.push(case_box(params, row, domain, case.condition.tests()))?;
    }
    Ok(boxes)
}
