#![tactic(auto)]
//! The phases of a function.

ghost use Rattle.std.specs.Prelude.{◌≡◌, ◌≤◌, ◌<◌, length, map, slice_get, Some, IfOk, IfSome};
ghost use Rattle.std.specs.Option.{option_map};
ghost use Rattle.job.specs.Views.{case_view, formula_view};
ghost use Rattle.column_phases.specs.Phases.{ArePhasesOf};
ghost use Rattle.column_phases.specs.Programs.{AreProgramsOf};
ghost use Rattle.narrow_eval.specs.NarrowPrograms.{IsProgramOf};

use crate::phase::ColumnPhase;
use crate::phase_fault::PhaseFault;
use crate::weighing::{
    alternates_by_column_phase_tests, do_column_phases_pay, weigh_column_phase_reads,
};
use job::Function;
use narrow_eval::{NarrowFunction, choose_narrow_function};
use std::alloc::{AllocError, Global};

/// The phases of a function by a period: what it is at the columns of each rest, with programs for rows of 16 bits.
#[derive(Drop)]
pub struct ColumnPhases {
    pub(crate) functions: Vec<Function>,
    pub(crate) programs: Vec<NarrowFunction>,
    ghost least: { 2 ≤ length functions.items },
    ghost most: { length functions.items ≤ 4 },
    ghost count: { length programs.items ≡ length functions.items },
    ghost programmed: { AreProgramsOf programs.items functions.items },
}

impl ColumnPhases {
    /// How many phases there are: the period.
    pub(crate) fn count_column_phases(&self) -> usize
        ensures count { result ≡ length self.now.functions.items }
        ensures least { 2 ≤ result }
        ensures most { result ≤ 4 }
    {
        self.functions.len()
    }

    /// The phase of a rest, and its program.
    #[inline]
    pub(crate) fn borrow_column_phase(&self, rest: usize) -> (&Function, &NarrowFunction)
        requires { rest < length self.now.functions.items }
        ensures phase { slice_get self.now.functions.items rest ≡ Some result.0.now }
        ensures program { IsProgramOf result.1.now (map case_view result.0.now.cases.items)
            (option_map formula_view result.0.now.otherwise) }
    {
        (&self.functions[rest], &self.programs[rest])
    }
}

// A program for each phase.
fn list_column_phase_programs(
    alloc: Global,
    functions: &[Function],
) -> Result<Vec<NarrowFunction>, AllocError>
    ensures count { IfOk result (λ made. length made.items ≡ length functions.now) }
    ensures programs { IfOk result (λ made. AreProgramsOf made.items functions.now) }
{
    let mut made = Vec::with_capacity(alloc, functions.len())?;
    for function in functions {
        made.push(choose_narrow_function(alloc, function)?)?;
    }
    Ok(made)
}

// The phases by a period.
fn list_column_phases(
    alloc: Global,
    function: &Function,
    period: u32,
) -> Result<ColumnPhases, PhaseFault>
    requires least { 2 ≤ period }
    requires most { period ≤ 4 }
    ensures { IfOk result (λ phases. ArePhasesOf phases.functions.items
        (map case_view function.now.cases.items) (option_map formula_view function.now.otherwise)) }
{
    let mut functions = Vec::with_capacity(alloc, period as usize)?;
    for rest in 0..period {
        let phase = ColumnPhase { period, rest };
        functions.push(phase.make_column_phase_function(alloc, function)?)?;
    }
    let programs = list_column_phase_programs(alloc, &functions)?;
    Ok(ColumnPhases {
        functions,
        programs,
    })
}

/// The phases of a function by its least period, if it alternates along a row and they pay.
///
/// # Errors
///
/// Fails only where memory is refused.
pub fn find_column_phases(
    alloc: Global,
    function: &Function,
) -> Result<Option<ColumnPhases>, AllocError>
    ensures { IfOk result (λ found. IfSome found (λ phases. ArePhasesOf phases.functions.items
        (map case_view function.now.cases.items) (option_map formula_view function.now.otherwise))) }
{
    if weigh_column_phase_reads(function) == 0 && !alternates_by_column_phase_tests(function) {
        return Ok(None);
    }
    for period in 2..5 {
        match list_column_phases(alloc, function, period) {
            Ok(phases) => {
                let pays = do_column_phases_pay(function, &phases);
                return Ok(if pays { Some(phases) } else { None });
            }
            Err(PhaseFault::Memory) => return Err(AllocError),
            Err(PhaseFault::NoPhase) => {}
        }
    }
    Ok(None)
}
