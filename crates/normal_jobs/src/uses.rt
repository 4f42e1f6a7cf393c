#![tactic(auto)]
//! How stages are read, as choices want it. No clause speaks of it: each stage may be joined or not.

use domains::Index;
use job::{Body, Formula, Job, Read, StageKind};
use operators::{BinaryOp, LiteralOp, TernaryOp};
use std::alloc::{AllocError, Global};

/// How a stage is read.
#[derive(Clone, Copy)]
pub(crate) struct NormalUse {
    // At how many places of functions, and of accumulators.
    functions: usize,
    accumulators: usize,
    // Whether it is an output, or is read elsewhere than at the point itself.
    is_wanted: bool,
    // One of the stages that read it.
    reader: usize,
}

// The most parts of a formula that accumulators compute for themselves.
const MOST_PARTS: usize = 16;

// The most parts of a formula that another one finishes.
const MOST_FINISHED: usize = 256;

// Whether a read is one at the point itself.
fn is_normal_use_in_place(read: &Read) -> bool {
    match read {
        Read::Point(_, row, column) => has_no_normal_step(row) && has_no_normal_step(column),
        Read::Window(_, _) => false,
    }
}

// Whether an index is the number itself.
fn has_no_normal_step(index: &Index) -> bool {
    index.mul() == 1 && index.add() == 0 && index.div() == 1
}

// Counts what a stage reads.
fn count_normal_uses_of_reader(uses: &mut Vec<NormalUse>, job: &Job, reader: usize) {
    let Some(stage) = job.stage(reader) else {
        return;
    };
    let is_accumulator = stage.kind() == StageKind::Accumulator;
    for read in stage.reads() {
        if let Some(found) = uses.get_mut(read.stage()) {
            found.count_normal_use(read, reader, is_accumulator);
        }
    }
}

// Marks the outputs.
fn mark_normal_outputs(uses: &mut Vec<NormalUse>, job: &Job) {
    for output in job.outputs() {
        if let Some(found) = uses.get_mut(*output) {
            found.is_wanted = true;
        }
    }
}

/// How each stage is read.
///
/// # Errors
///
/// Fails only where memory is refused.
pub(crate) fn count_normal_uses(alloc: Global, job: &Job) -> Result<Vec<NormalUse>, AllocError> {
    let mut uses = Vec::with_capacity(alloc, job.stages().len())?;
    for _ in 0..job.stages().len() {
        uses.push(NormalUse {
            functions: 0,
            accumulators: 0,
            is_wanted: false,
            reader: 0,
        })?;
    }
    for reader in 0..job.stages().len() {
        count_normal_uses_of_reader(&mut uses, job, reader);
    }
    mark_normal_outputs(&mut uses, job);
    Ok(uses)
}

impl NormalUse {
    // Counts a read.
    fn count_normal_use(&mut self, read: &Read, reader: usize, is_accumulator: bool) {
        self.reader = reader;
        if is_accumulator {
            self.accumulators = self.accumulators.saturating_add(1);
        } else {
            self.functions = self.functions.saturating_add(1);
        }
        if !is_normal_use_in_place(read) {
            self.is_wanted = true;
        }
    }

    /// Whether a stage of this formula is joined with what reads it: accumulators alone, which compute a light formula as they
    /// go, or one function, which does no more with it than to finish it, as by a quotient.
    pub(crate) fn is_normal_join(&self, job: &Job, stage: usize, formula: &Formula) -> bool {
        if self.is_wanted {
            return false;
        }
        match (self.functions, self.accumulators) {
            (0, _) => is_light_formula(formula),
            (1, 0) => {
                is_short_formula(formula) && is_normal_finish_of_stage(job, self.reader, stage)
            }
            _ => false,
        }
    }
}

/// Whether a formula has few parts, for each of which an operation on rows is enough.
pub(crate) fn is_light_formula(formula: &Formula) -> bool {
    find_rest_of_light_formula(formula, MOST_PARTS, true).is_some()
}

// Whether a formula may stand in another one: so deep formulas grow no deeper.
fn is_short_formula(formula: &Formula) -> bool {
    find_rest_of_light_formula(formula, MOST_FINISHED, false).is_some()
}

// Whether a quotient is a shift.
fn is_light_divisor(divisor: u32) -> bool {
    let bits = divisor.trailing_zeros();
    bits < 31 && 1 << bits == divisor
}

// Whether an operation with a number of the text takes one pass of a row.
fn is_light_literal(op: LiteralOp, number: u32) -> bool {
    match op {
        LiteralOp::Shl | LiteralOp::Shr => true,
        LiteralOp::Div => is_light_divisor(number),
        LiteralOp::Rem => false,
    }
}

// How many more parts a formula may have, if it has at most so many; and if, where that is asked, they are light.
fn find_rest_of_light_formula(formula: &Formula, most: usize, is_light: bool) -> Option<usize> {
    let rest = most.checked_sub(1)?;
    match formula {
        Formula::Number(_) | Formula::Coordinate(_) | Formula::Read(_, _, _) => Some(rest),
        Formula::Unary(_, of) => find_rest_of_light_formula(of, rest, is_light),
        Formula::Literal(op, of, number) if !is_light || is_light_literal(*op, *number) => {
            find_rest_of_light_formula(of, rest, is_light)
        }
        Formula::Binary(_, left, right) => {
            let rest = find_rest_of_light_formula(left, rest, is_light)?;
            find_rest_of_light_formula(right, rest, is_light)
        }
        Formula::Ternary(_, first, second, third) => {
            let rest = find_rest_of_light_formula(first, rest, is_light)?;
            let rest = find_rest_of_light_formula(second, rest, is_light)?;
            find_rest_of_light_formula(third, rest, is_light)
        }
        Formula::Select(left, _, right, then, otherwise) if !is_light => {
            let rest = find_rest_of_light_formula(left, rest, is_light)?;
            let rest = find_rest_of_light_formula(right, rest, is_light)?;
            let rest = find_rest_of_light_formula(then, rest, is_light)?;
            find_rest_of_light_formula(otherwise, rest, is_light)
        }
        Formula::Lookup(_, index) if !is_light => {
            find_rest_of_light_formula(index, rest, is_light)
        }
        Formula::Stencil(_, _, _) if !is_light => Some(rest),
        _ => None,
    }
}

// Whether a formula of the reader finishes the stage.
fn is_normal_finish_of_stage(job: &Job, reader: usize, stage: usize) -> bool {
    let Some(reader) = job.stage(reader) else {
        return false;
    };
    let Body::Function(function) = reader.body() else {
        return false;
    };
    if let Some(formula) = function.otherwise() {
        if is_normal_finish(formula, stage) {
            return true;
        }
    }
    for case in function.cases() {
        if is_normal_finish(case.formula(), stage) {
            return true;
        }
    }
    false
}

// Whether a formula makes no more of a stage than a lesser number.
fn is_normal_finish(formula: &Formula, stage: usize) -> bool {
    match formula {
        Formula::Read(of, _, _) => *of == stage,
        Formula::Literal(LiteralOp::Div | LiteralOp::Shr, of, _) => is_normal_finish(of, stage),
        Formula::Ternary(TernaryOp::Clamp, of, low, high) => match (&**low, &**high) {
            (Formula::Number(_), Formula::Number(_)) => is_normal_finish(of, stage),
            _ => false,
        },
        Formula::Binary(BinaryOp::Min | BinaryOp::Max, left, right) => match (&**left, &**right) {
            (Formula::Number(_), of) | (of, Formula::Number(_)) => is_normal_finish(of, stage),
            _ => false,
        },
        _ => false,
    }
}
