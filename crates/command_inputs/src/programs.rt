//! Well-formed programs, and the faults of others.

ghost use Rattle.std.specs.Prelude.{◌≡◌, IfOk, IfErr};
ghost use Rattle.pipe_tree.specs.Tree.{declarations};
ghost use Rattle.pipe_tree.specs.Content.{content};
ghost use Rattle.pipe_checks.specs.Checking.{IsCheckedOf, IsFault};
ghost use Rattle.pipe_checks.specs.Names.{stages_of};
ghost use Rattle.command_inputs.specs.inside.Steps.{IsRefusal};
ghost use Rattle.command_inputs.specs.Faults.{name_at, names_of};

use command_faults::{CheckFaultLine, StageNames, StreamFault};
use pipe_checks::{CheckFault, Checked, Cycle, Symbol, check, declared_stages};
use pipe_tokens::Name;
use pipe_tree::{Item, Tree};
use std::alloc::{AllocError, Global};

/// The program of the tree, if it is well-formed; else its first fault.
pub fn check_input_program(alloc: Global, tree: Tree) -> Result<Checked, StreamFault>
    ensures ok { IfOk result (IsCheckedOf tree) }
    ensures fault { IfErr result (IsRefusal (content tree)) }
{
    match check(alloc, tree) {
        Ok(checked) => Ok(checked),
        Err((tree, fault)) => Err(convert_check_fault_to_input_fault(alloc, tree.items(), fault)),
    }
}

/// How the fault of a program is reported.
fn convert_check_fault_to_input_fault(
    alloc: Global,
    items: &[Item],
    fault: CheckFault,
) -> StreamFault
    requires { IsFault (declarations items.now) fault }
    ensures { IsRefusal (declarations items.now) result }
{
    match fault {
        CheckFault::Memory => StreamFault::Memory,
        CheckFault::Cycle(cycle) => match collect_input_fault_cycle_names(alloc, items, &cycle) {
            Ok(names) => StreamFault::Check(CheckFaultLine::Cycle(names)),
            Err(_) => StreamFault::Memory,
        },
        fault => StreamFault::Check(CheckFaultLine::Fault(fault)),
    }
}

/// The names of the stages along a cycle.
fn collect_input_fault_cycle_names(
    alloc: Global,
    items: &[Item],
    cycle: &Cycle,
) -> Result<StageNames, AllocError>
    ensures { IfOk result
        (λ names. names ≡ names_of (stages_of (declarations items.now)) cycle.now) }
{
    let stages = declared_stages(alloc, items)?;
    collect_input_fault_stage_names(alloc, &stages, cycle.stages())
}

fn collect_input_fault_stage_names(
    alloc: Global,
    stages: &[Symbol],
    numbers: &[usize],
) -> Result<StageNames, AllocError>
    ensures { IfOk result (λ names. names ≡ names_of stages.now numbers.now) }
{
    let mut names = Vec::new(alloc);
    for number in numbers {
        if let Some(name) = find_declared_name_for_input_fault(stages, *number) {
            names.push(name)?;
        }
    }
    Ok(StageNames { names })
}

/// The name of the stage, the parameter or the table of this number.
pub fn find_declared_name_for_input_fault(declared: &[Symbol], number: usize) -> Option<Name>
    ensures { result ≡ name_at declared.now number }
{
    Some(declared.get(number)?.name)
}
