#![tactic(auto)]
//! What formulas read, in the order of the text.

ghost use Rattle.std.specs.Prelude.{◌≡◌, ◌++◌, [], ◌∷◌, OnOk, IfOk, map};
ghost use Rattle.std.specs.List.{flat_map};
ghost use Rattle.std.specs.Option.{option_map};
ghost use Rattle.job.specs.Views.{formula_view, stage_view};
ghost use Rattle.job.specs.Reads.{reads_in, reads_of, stage_read, other_formula};
ghost use Rattle.job.specs.ReadViews.{read_view};

use crate::formula::Formula;
use crate::stage::{Body, JobCase, Stage};
use domains::Index;
use operators::{Kernel, copy_kernel};
use std::alloc::{AllocError, Global};

/// A read of a stage, which is named by its number.
#[derive(Debug, Drop)]
pub enum Read {
    /// At one point, by the indices of its row and of its column.
    Point(usize, Index, Index),
    /// At the points under a kernel whose middle lies over the point itself.
    Window(usize, Kernel),
}

impl Read {
    /// The stage that is read.
    pub fn stage(&self) -> usize
        ensures { result ≡ stage_read (read_view self.now) }
    {
        match self {
            Read::Point(stage, _, _) | Read::Window(stage, _) => *stage,
        }
    }
}

// Appends the reads of a formula to those that were found.
fn push_formula_reads(found: &mut Vec<Read>, formula: &Formula) -> Result<(), AllocError>
    ensures { OnOk result (map read_view found.new.items
        ≡ map read_view found.old.items ++ reads_in (formula_view formula.now)) }
{
    match formula {
        Formula::Number(_) | Formula::Coordinate(_) => Ok(()),
        Formula::Read(stage, row, column) => {
            found.push(Read::Point(*stage, *row, *column))?;
            Ok(())
        }
        Formula::Unary(_, operand)
        | Formula::Literal(_, operand, _)
        | Formula::Lookup(_, operand) => push_formula_reads(found, operand),
        Formula::Binary(_, left, right) => {
            push_formula_reads(found, left)?;
            push_formula_reads(found, right)
        }
        Formula::Ternary(_, first, second, third) => {
            push_formula_reads(found, first)?;
            push_formula_reads(found, second)?;
            push_formula_reads(found, third)
        }
        Formula::Select(left, _, right, then, otherwise) => {
            push_formula_reads(found, left)?;
            push_formula_reads(found, right)?;
            push_formula_reads(found, then)?;
            push_formula_reads(found, otherwise)
        }
        Formula::Stencil(stage, _, kernel) => {
            found.push(Read::Window(*stage, copy_kernel(kernel)?))?;
            Ok(())
        }
    }
}

fn push_job_case_reads(found: &mut Vec<Read>, cases: &[JobCase]) -> Result<(), AllocError>
    ensures { OnOk result (map read_view found.new.items
        ≡ map read_view found.old.items
        ++ flat_map reads_in (map (λ p. formula_view p.formula) cases.now)) }
{
    for case in cases {
        push_formula_reads(found, case.formula())?;
    }
    Ok(())
}

fn push_otherwise_formula_reads(
    found: &mut Vec<Read>,
    other: &Option<Formula>,
) -> Result<(), AllocError>
    ensures { OnOk result (map read_view found.new.items
        ≡ map read_view found.old.items
        ++ flat_map reads_in (other_formula (option_map formula_view other.now))) }
{
    match other {
        Some(formula) => push_formula_reads(found, formula),
        None => Ok(()),
    }
}

/// What a formula reads, in the order of the text.
pub(crate) fn collect_formula_reads(
    alloc: Global,
    formula: &Formula,
) -> Result<Vec<Read>, AllocError>
    ensures { IfOk result (λ v. map read_view v.items ≡ reads_in (formula_view formula.now)) }
{
    let mut found = Vec::new(alloc);
    push_formula_reads(&mut found, formula)?;
    Ok(found)
}

/// What a formula reads, if there is one.
pub(crate) fn collect_otherwise_formula_reads(
    alloc: Global,
    otherwise: &Option<Formula>,
) -> Result<Vec<Read>, AllocError>
    ensures { IfOk result (λ v. map read_view v.items
        ≡ flat_map reads_in (other_formula (option_map formula_view otherwise.now))) }
{
    let mut found = Vec::new(alloc);
    push_otherwise_formula_reads(&mut found, otherwise)?;
    Ok(found)
}

/// What cases read, and then what the formula outside the cases reads.
pub(crate) fn list_reads_of_function_formulas(
    alloc: Global,
    cases: &[JobCase],
    otherwise: &Option<Formula>,
) -> Result<Vec<Read>, AllocError>
    ensures { IfOk result (λ v. map read_view v.items
        ≡ flat_map reads_in (map (λ p. formula_view p.formula) cases.now
        ++ other_formula (option_map formula_view otherwise.now))) }
{
    let mut found = Vec::new(alloc);
    push_job_case_reads(&mut found, cases)?;
    push_otherwise_formula_reads(&mut found, otherwise)?;
    Ok(found)
}

/// What two formulas read, first the one and then the other.
pub(crate) fn collect_reads_of_two_formulas(
    alloc: Global,
    first: &Formula,
    second: &Formula,
) -> Result<Vec<Read>, AllocError>
    ensures { IfOk result (λ v. map read_view v.items
        ≡ flat_map reads_in (formula_view first.now ∷ formula_view second.now ∷ [])) }
{
    let mut found = Vec::new(alloc);
    push_formula_reads(&mut found, first)?;
    push_formula_reads(&mut found, second)?;
    Ok(found)
}

impl Stage {
    /// What the stage reads, in the order of the text; of an accumulator first for the value and then for the bin.
    pub fn reads(&self) -> &[Read]
        ensures { map read_view result.now ≡ reads_of (stage_view self.now).body }
    {
        match self.body() {
            Body::Plane(_) => &[],
            Body::Function(function) => function.reads(),
            Body::Accumulator(accumulator) => accumulator.reads(),
        }
    }
}
