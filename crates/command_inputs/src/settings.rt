//! The values that are supplied for the parameters of a program.

ghost use Rattle.std.specs.Prelude.{◌≡◌, map, string_bytes, IfOk, IfErr, OnOk};
ghost use Rattle.pipe_checks.specs.Checking.{params_in};
ghost use Rattle.pipe_bounds.specs.Unset.{unset};
ghost use Rattle.command_inputs.specs.Giving.{AreGiven};
ghost use Rattle.command_inputs.specs.inside.Steps.{IsParamRefusal, TellsParam};

use command_faults::{ParamFaultLine, StreamFault};
use pipe_bounds::{ParamFault, Params};
use pipe_checks::Checked;
use std::alloc::Global;

/// The parameters with the supplied values.
pub fn make_supplied_params_of_input_program(
    alloc: Global,
    checked: &Checked,
    given: &[(String, i32)],
) -> Result<Params, StreamFault>
    ensures ok { IfOk result (AreGiven (map unset (params_in checked.now)) given.now) }
    ensures fault { IfErr result (IsParamRefusal (map unset (params_in checked.now)) given.now) }
{
    let mut params = Params::of(alloc, checked)?;
    set_params_of_input_program(alloc, &mut params, given)?;
    Ok(params)
}

/// Sets the parameters to their values in order, up to the first that is rejected.
fn set_params_of_input_program(
    alloc: Global,
    params: &mut Params,
    given: &[(String, i32)],
) -> Result<(), StreamFault>
    ensures ok { OnOk result (AreGiven params.old given.now params.new) }
    ensures fault { IfErr result (IsParamRefusal params.old given.now) }
{
    for (name, value) in given {
        if let Err(fault) = params.set(name.as_str(), *value) {
            return Err(convert_param_fault_to_input_fault(alloc, name, fault));
        }
    }
    Ok(())
}

fn convert_param_fault_to_input_fault(
    alloc: Global,
    name: &String,
    fault: ParamFault,
) -> StreamFault
    ensures { TellsParam fault (string_bytes name.now) result }
{
    match String::from_str(alloc, name.as_str()) {
        Ok(name) => StreamFault::Param(ParamFaultLine { fault, name }),
        Err(_) => StreamFault::Memory,
    }
}
