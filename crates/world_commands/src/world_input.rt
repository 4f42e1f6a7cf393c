//! From the bytes of an input to its job and its script.

ghost use Rattle.std.specs.Prelude.{IfOk, IfErr};
ghost use Rattle.command_inputs.specs.Faults.{HasShortTextInThree, IsMemoryOnlyIf};
ghost use Rattle.world_commands.specs.WorldFaults.{IsWorldFault};
ghost use Rattle.world_commands.specs.WorldInput.{IsReadWorld};

use catalog::Catalog;
use command_faults::StreamFault;
use command_inputs::{make_catalog_of_input_job, read_input_job_and_middle_section};
use command_line::Options;
use gossip_events::{Event, parse_script};
use std::alloc::Global;

/// The job of the program and the picture that the input spells, as a catalog that has it alone, and the events of the script
/// between them. A faulty line is reported only if the program and the picture have a job. The input is freed.
pub fn read_catalog_and_events_of_world_input(
    alloc: Global,
    options: &Options,
    given: &[(String, i32)],
    input: Vec<u8>,
) -> Result<(Catalog, Vec<Event>), StreamFault>
    ensures of_input { IfOk result
        (λ read. IsReadWorld input.items given.now options.now.sides read.0 read.1.items) }
    ensures fault { IfErr result (IsWorldFault input.items given.now options.now.sides) }
    ensures memory { IfErr result (IsMemoryOnlyIf (HasShortTextInThree input.items)) }
{
    let (job, script) = read_input_job_and_middle_section(
        alloc,
        options.sides,
        given,
        input.as_slice(),
    )?;
    let catalog = make_catalog_of_input_job(alloc, job)?;
    let events = parse_script(alloc, &catalog, script)?;
    Ok((catalog, events))
}
