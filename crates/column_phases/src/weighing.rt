#![tactic(auto)]
//! Whether phases pay.

use crate::finding::ColumnPhases;
use domains::{Area, Index};
use job::{Formula, Function, JobCase, Read};
use operators::{Axis, LiteralOp, PointTest};

// What is weighed, in passes of an operator over a row of all columns: to gather the numbers of a read at a stride of three or four or by
// a quotient, or by halves, to copy the numbers of a case to its columns, and to weave the rows of phases.
const GATHER: usize = 9;

const HALVES: usize = 3;

const COPY: usize = 5;

const WEAVE: usize = 3;

// The fewest rows and columns of a case that is weighed. (Those of borders have fewer.)
const LEAST_SIDE: u32 = 5;

/// How much work it is to gather the samples of reads that do not take adjacent ones. Only those that halve have a loop of vector code.
pub(crate) fn weigh_column_phase_reads(function: &Function) -> usize {
    let mut work = 0usize;
    for read in function.reads() {
        if let Read::Point(_, _, col) = read {
            if col.div() > 2 {
                work = work.saturating_add(3);
            } else if col.div() != 1 || col.mul() != 1 {
                work = work.saturating_add(1);
            }
        }
    }
    work
}

// How much work it is to gather the numbers of a read.
fn weigh_column_phase_index(col: &Index) -> usize {
    match (col.mul(), col.div()) {
        (1, 1) => 0,
        (1, 2) => HALVES,
        _ => GATHER,
    }
}

// How much work an operator with a number of the text is.
fn weigh_column_phase_literal(op: LiteralOp) -> usize {
    match op {
        LiteralOp::Div | LiteralOp::Rem => 3,
        LiteralOp::Shl | LiteralOp::Shr => 1,
    }
}

// How much work a formula is.
fn weigh_column_phase_formula(formula: &Formula) -> usize {
    match formula {
        Formula::Number(_) | Formula::Coordinate(_) | Formula::Stencil(_, _, _) => 0,
        Formula::Read(_, _, col) => weigh_column_phase_index(col),
        Formula::Unary(_, of) => weigh_column_phase_formula(of).saturating_add(1),
        Formula::Literal(op, of, _) => {
            weigh_column_phase_formula(of).saturating_add(weigh_column_phase_literal(*op))
        }
        Formula::Lookup(_, index) => weigh_column_phase_formula(index).saturating_add(GATHER),
        Formula::Binary(_, left, right) => {
            let left = weigh_column_phase_formula(left);
            left.saturating_add(weigh_column_phase_formula(right))
                .saturating_add(1)
        }
        Formula::Ternary(_, first, second, third) => {
            let first = weigh_column_phase_formula(first);
            let second = weigh_column_phase_formula(second);
            let third = weigh_column_phase_formula(third);
            first
                .saturating_add(second)
                .saturating_add(third)
                .saturating_add(2)
        }
        Formula::Select(left, _, right, then, otherwise) => {
            let left = weigh_column_phase_formula(left);
            let right = weigh_column_phase_formula(right);
            let then = weigh_column_phase_formula(then);
            let otherwise = weigh_column_phase_formula(otherwise);
            let tested = left.saturating_add(right);
            tested
                .saturating_add(then)
                .saturating_add(otherwise)
                .saturating_add(3)
        }
    }
}

// Whether a case holds at some rows and columns of a box that is no border.
fn is_column_phase_case(case: &JobCase) -> bool {
    match case.area() {
        Some(Area { rows, cols }) => rows.len() >= LEAST_SIDE && cols.len() >= LEAST_SIDE,
        None => false,
    }
}

// Whether a test is of a column's remainder.
fn is_column_phase_remainder(test: &PointTest) -> bool {
    matches!(test, PointTest::Remainder(Axis::Column, _, _))
}

// How much work it is to copy the numbers of a case to the columns where it holds.
fn weigh_column_phase_copy(case: &JobCase) -> usize {
    if case.tests().iter().any(is_column_phase_remainder) {
        COPY
    } else {
        0
    }
}

// Whether a case holds in all of its box, so that nothing else is computed there.
fn is_whole_column_phase_case(case: &JobCase) -> bool {
    is_column_phase_case(case)
        && !case
            .tests()
            .iter()
            .any(|test| matches!(test, PointTest::Remainder(_, _, _)))
}

// How much work a function is at a row.
fn weigh_column_phase_function(function: &Function) -> usize {
    let mut work = 0usize;
    for case in function.cases() {
        if is_column_phase_case(case) {
            let own = weigh_column_phase_formula(case.formula());
            work = work
                .saturating_add(own)
                .saturating_add(weigh_column_phase_copy(case));
        }
    }
    match function.otherwise() {
        Some(formula) if !function.cases().iter().any(is_whole_column_phase_case) => {
            work.saturating_add(weigh_column_phase_formula(formula))
        }
        _ => work,
    }
}

/// Whether cases of a function hold at the columns of a rest.
pub(crate) fn alternates_by_column_phase_tests(function: &Function) -> bool {
    function
        .cases()
        .iter()
        .any(|case| weigh_column_phase_copy(case) > 0)
}

// Whether the phases gather less than the function, by more than what it takes to weave their rows: two reads. They compute no more.
fn do_column_phases_gather_less(function: &Function, phases: &ColumnPhases) -> bool {
    let period = phases.functions.len();
    let mut work = period.saturating_mul(2);
    for phase in &phases.functions {
        work = work.saturating_add(weigh_column_phase_reads(phase));
    }
    work < weigh_column_phase_reads(function).saturating_mul(period)
}

// Whether what the phases compute at their own columns, and gather for it, is less than what the function computes at all columns and copies
// to those of each case. (By a period of two each copy is a pass of vector code.)
fn do_column_phases_copy_less(function: &Function, phases: &ColumnPhases) -> bool {
    let period = phases.functions.len();
    if period == 2 || !alternates_by_column_phase_tests(function) {
        return false;
    }
    let mut work = period.saturating_mul(WEAVE);
    for phase in &phases.functions {
        work = work.saturating_add(weigh_column_phase_function(phase));
    }
    work < weigh_column_phase_function(function).saturating_mul(period)
}

/// Whether phases are faster than the function.
pub(crate) fn do_column_phases_pay(function: &Function, phases: &ColumnPhases) -> bool {
    do_column_phases_gather_less(function, phases) || do_column_phases_copy_less(function, phases)
}
