//! The command `world` as it is run: from a reader to a writer.

ghost use Rattle.command_outcomes.specs.Outcomes.{CountsRead, CountsWritten, Writes};
ghost use Rattle.world_commands.specs.WorldFaults.{refusing_world};
ghost use Rattle.world_commands.specs.WorldSayings.{saying_of_world};

use crate::outcome::compute_node_reports_of_world_input;
use crate::outcome_lines::write_event_counts_and_world_node_lines;
use command_faults::StreamFault;
use command_line::{NodesArgument, Options};
use command_outcomes::read_command_input_bytes;
use streams::{Sink, Source};

/// Reads a program, a script and a picture, and processes the events of the script from so many nodes that hold nothing. It
/// writes how many events there were and how many of these were refused. For each node it writes the file of the retired
/// jobs and the facts that it then holds.
///
/// The input is the program's text, a line `%%`, the script, a line `%%` and the picture. `parameters` gives values of the
/// program's parameters. Each node has the schedule that the options request. All that allocates memory is done before the first
/// byte is written, and the digits are written through a buffer of fixed size.
pub fn world_stream<H: AllocGlobal, R: Source, W: Sink>(
    rt: &H,
    nodes: NodesArgument,
    options: &Options,
    parameters: &[(String, i32)],
    reader: &mut R,
    writer: &mut W,
) -> Result<(), StreamFault>
    // At `Ok` the writer took all lines, and if it failed, a part of them. Any other fault has written nothing, and is the first
    // fault of the input and the parameters.
    ensures written { Writes (saying_of_world nodes options.now parameters.now)
        (refusing_world parameters.now options.now.sides) (R.remaining reader.old)
        result (W.contents writer.old) (W.contents writer.new) }
    // A fault of the reader or the writer is reported if it failed, and only then.
    ensures read { CountsRead result (R.failures reader.old) (R.failures reader.new) }
    ensures write { CountsWritten result (W.failures writer.old) (W.failures writer.new) }
{
    let input = read_command_input_bytes(rt.alloc(), reader)?;
    let outcome = compute_node_reports_of_world_input(
        rt.alloc(),
        nodes,
        options,
        parameters,
        input,
    )?;
    Ok(write_event_counts_and_world_node_lines(&outcome, writer)?)
}
