#![tactic(auto)]
//! How often parts occur in the formulas of a job. No clause speaks of it.

use crate::part_forms::{
    PartForm, find_part_form_of_binary, find_part_form_of_leaf, find_part_form_of_literal,
    find_part_form_of_relation, find_part_form_of_table, find_part_form_of_ternary,
    find_part_form_of_unary,
};
use crate::part_uses::find_used_part_stages;
use domains::{Area, Span};
use job::{Body, Formula, Job, JobCase, Stage};
use operators::{BinaryOp, PointTest};
use std::alloc::{AllocError, Global};

// The fewest passes of a row that a part takes, and that are saved where it is a stage.
const LEAST_COST: usize = 2;

const LEAST_SAVED: usize = 3;

/// The forms of all parts, each before those of its own parts, and the codes of those that may become stages.
#[derive(Drop)]
pub(crate) struct PartForms {
    forms: Vec<PartForm>,
    codes: Vec<u64>,
    // The code of each stage that is one formula; 0 of others.
    wholes: Vec<u64>,
    // Which stages are wanted in the end.
    used: Vec<bool>,
}

// Whether a span has at least half of the numbers of another one.
fn is_most_of_part_span(span: &Span, of: &Span) -> bool {
    span.len() >= of.len() / 2
}

/// Whether an area has at least half of the rows and of the columns of another one.
pub(crate) fn is_most_of_part_area(area: &Area, of: &Area) -> bool {
    is_most_of_part_span(&area.rows, &of.rows) && is_most_of_part_span(&area.cols, &of.cols)
}

// Whether a case holds at most points of a domain.
fn is_case_of_part_forms(domain: &Area, case: &JobCase) -> bool {
    let Some(area) = case.area() else {
        return false;
    };
    for test in case.tests() {
        if let PointTest::Remainder(_, _, _) = test {
            return false;
        }
    }
    is_most_of_part_area(area, domain)
}

// Whether a case of a function holds at most points of its domain.
fn has_case_of_part_forms(domain: &Area, cases: &[JobCase]) -> bool {
    for case in cases {
        if is_case_of_part_forms(domain, case) {
            return true;
        }
    }
    false
}

/// The formula of this number of a function, if it holds at most points. That outside the cases comes behind theirs.
pub(crate) fn find_formula_of_part_forms(stage: &Stage, number: usize) -> Option<&Formula> {
    let Body::Function(function) = stage.body() else {
        return None;
    };
    match function.cases().get(number) {
        Some(case) if is_case_of_part_forms(stage.domain(), case) => Some(case.formula()),
        Some(_) => None,
        None if has_case_of_part_forms(stage.domain(), function.cases()) => None,
        None => function.otherwise().as_ref(),
    }
}

// How many formulas a stage has at most.
fn count_formulas_of_part_forms(stage: &Stage) -> usize {
    match stage.body() {
        Body::Function(function) => function.cases().len().saturating_add(1),
        Body::Plane(_) | Body::Accumulator(_) => 0,
    }
}

// Whether a formula is a sum.
fn is_sum_of_parts(formula: &Formula) -> bool {
    matches!(
        formula,
        Formula::Binary(BinaryOp::Add | BinaryOp::Sub, _, _)
    )
}

// Whether a formula and its operand are sums, so that the operand is no part.
fn are_parts_of_sum(formula: &Formula, operand: &Formula) -> bool {
    is_sum_of_parts(formula) && is_sum_of_parts(operand)
}

impl PartForms {
    /// The forms of the parts of all functions.
    ///
    /// # Errors
    ///
    /// Fails only where memory is refused.
    pub(crate) fn from_job(alloc: Global, job: &Job) -> Result<PartForms, AllocError> {
        let mut found = PartForms {
            forms: Vec::new(alloc),
            codes: Vec::new(alloc),
            wholes: Vec::new(alloc),
            used: find_used_part_stages(alloc, job)?,
        };
        for (number, stage) in job.stages().iter().enumerate() {
            let code = found.push_part_forms_of_stage(number, stage)?;
            found.wholes.push(code)?;
        }
        found.codes.sort_unstable();
        Ok(found)
    }

    // Adds the forms of the parts of a function. The code of its last formula, if that holds at all points; else 0.
    fn push_part_forms_of_stage(
        &mut self,
        number: usize,
        stage: &Stage,
    ) -> Result<u64, AllocError> {
        let mut code = 0;
        for place in 0..self.count_part_formulas(number, stage) {
            if let Some(formula) = find_formula_of_part_forms(stage, place) {
                let form = self.push_part_form(formula, false)?;
                code = if place == 0 { form.code } else { 0 };
            }
        }
        Ok(code)
    }

    /// How many formulas a stage has, whose parts are counted.
    pub(crate) fn count_part_formulas(&self, number: usize, stage: &Stage) -> usize {
        if self.used.get(number) == Some(&true) {
            count_formulas_of_part_forms(stage)
        } else {
            0
        }
    }

    // Adds the forms of a formula and of its parts.
    #[cycle(push_part_form)]
    fn push_part_form(&mut self, formula: &Formula, may_be: bool) -> Result<PartForm, AllocError> {
        let place = self.forms.len();
        self.forms.push(PartForm::new(0, 0))?;
        let mut form = self.push_part_forms_of_operands(formula)?;
        form.is_candidate = may_be
            && form.is_near
            && form.place.is_some()
            && form.cost >= LEAST_COST;
        if let Some(own) = self.forms.get_mut(place) {
            *own = form;
        }
        if form.is_candidate {
            self.codes.push(form.code)?;
        }
        Ok(form)
    }

    // Adds the forms of all parts of a formula, and returns its own.
    #[cycle(push_part_form)]
    fn push_part_forms_of_operands(&mut self, formula: &Formula) -> Result<PartForm, AllocError> {
        match formula {
            Formula::Number(_)
            | Formula::Coordinate(_)
            | Formula::Read(_, _, _)
            | Formula::Stencil(_, _, _) => Ok(find_part_form_of_leaf(formula)),
            Formula::Unary(op, of) => {
                let of = self.push_part_form(of, true)?;
                Ok(find_part_form_of_unary(*op).with_operand(of))
            }
            Formula::Binary(op, left, right) => {
                let left = self.push_part_form(left, !are_parts_of_sum(formula, left))?;
                let right = self.push_part_form(right, !are_parts_of_sum(formula, right))?;
                Ok(
                    find_part_form_of_binary(*op)
                        .with_operand(left)
                        .with_operand(right),
                )
            }
            Formula::Ternary(op, first, second, third) => {
                let first = self.push_part_form(first, true)?;
                let second = self.push_part_form(second, true)?;
                let third = self.push_part_form(third, true)?;
                let form = find_part_form_of_ternary(*op).with_operand(first);
                Ok(form.with_operand(second).with_operand(third))
            }
            Formula::Literal(op, of, number) => {
                let of = self.push_part_form(of, true)?;
                Ok(find_part_form_of_literal(*op, *number).with_operand(of))
            }
            Formula::Lookup(entries, index) => {
                let index = self.push_part_form(index, true)?;
                Ok(find_part_form_of_table(entries).with_operand(index))
            }
            Formula::Select(left, relation, right, then, otherwise) => {
                let left = self.push_part_form(left, true)?;
                let right = self.push_part_form(right, true)?;
                let then = self.push_part_form(then, true)?;
                let otherwise = self.push_part_form(otherwise, true)?;
                let form = find_part_form_of_relation(*relation).with_operand(left);
                Ok(
                    form.with_operand(right)
                        .with_operand(then)
                        .with_operand(otherwise),
                )
            }
        }
    }

    /// The form at a place.
    pub(crate) fn part_form(&self, place: usize) -> Option<PartForm> {
        self.forms.get(place).copied()
    }

    // How many parts have a code.
    fn count_part_code(&self, code: u64) -> usize {
        let codes = self.codes.as_slice();
        let from = codes.partition_point(|other| *other < code);
        let to = codes.partition_point(|other| *other <= code);
        to.saturating_sub(from)
    }

    /// Whether a part of a formula may be the formula of the stage of a number.
    pub(crate) fn is_whole_part(&self, number: usize) -> bool {
        match self.wholes.get(number) {
            Some(code) => self.count_part_code(*code) > 0,
            None => false,
        }
    }

    /// Whether a part occurs so often, and takes so long, that it becomes a stage.
    pub(crate) fn is_repeated_part(&self, form: PartForm) -> bool {
        let more = self.count_part_code(form.code).saturating_sub(1);
        more.saturating_mul(form.cost) >= LEAST_SAVED
    }
}
