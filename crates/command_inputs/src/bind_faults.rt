//! How faults of programs that do not fit their tables and their pictures are reported.

ghost use Rattle.std.specs.Prelude.{◌≡◌};
ghost use Rattle.pipe_checks.specs.Checking.{params_in, tables_in, stages_in};
ghost use Rattle.command_inputs.specs.Faults.{blamed};
ghost use Rattle.command_inputs.specs.inside.Steps.{TellsBind};

use crate::programs::find_declared_name_for_input_fault;
use binding::BindFault;
use command_faults::{BindFaultLine, StreamFault};
use pipe_bounds::BoundFault;
use pipe_checks::Checked;
use pipe_tokens::Name;

/// How the fault of a program that does not fit its tables or its picture is reported.
pub fn convert_bind_fault_to_input_fault(checked: &Checked, fault: BindFault) -> StreamFault
    ensures { TellsBind (params_in checked.now) (tables_in checked.now) (stages_in checked.now)
        fault result }
{
    match fault {
        BindFault::Memory => StreamFault::Memory,
        fault => StreamFault::Bind(BindFaultLine {
            fault,
            blamed: find_blamed_name_for_input_fault(checked, fault),
        }),
    }
}

/// The name of the parameter, the table or the stage that a fault blames.
fn find_blamed_name_for_input_fault(checked: &Checked, fault: BindFault) -> Option<Name>
    ensures { result ≡ blamed (params_in checked.now) (tables_in checked.now)
        (stages_in checked.now) fault }
{
    match fault {
        BindFault::Bounds(BoundFault::ParamUnset(param)) => find_declared_name_for_input_fault(
            checked.params(),
            param,
        ),
        BindFault::Bounds(BoundFault::EmptyTable(table) | BoundFault::TableTooWide(table))
        | BindFault::TableMismatch(table) => find_declared_name_for_input_fault(
            checked.tables(),
            table,
        ),
        BindFault::Bounds(
            BoundFault::EmptyDomain(stage)
            | BoundFault::DomainTooWide(stage)
            | BoundFault::OutOfBounds { stage, .. },
        )
        | BindFault::TooManyTiles(stage) => find_declared_name_for_input_fault(
            checked.stages(),
            stage,
        ),
        BindFault::Bounds(BoundFault::Memory)
        | BindFault::Planes
        | BindFault::ExtentMismatch
        | BindFault::OutputShapes
        | BindFault::Memory => None,
    }
}
