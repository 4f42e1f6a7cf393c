//! The lines for texts that are no scripts.

ghost use Rattle.command_faults.specs.FaultLines.{at_line_text, script_head, script_text};
ghost use Rattle.command_faults.specs.Taking.{Takes};

use crate::texts::{write_fault_head, write_offset_or_zero_in_fault_line};
use fault_rows::Fault;
use gossip_events::ScriptFault;
use streams::{Sink, WriteFailed};

/// Writes what is wrong with a script.
pub fn write_script_fault_line<W: Sink>(
    writer: &mut W,
    fault: ScriptFault,
) -> Result<(), WriteFailed>
    ensures { Takes result (script_text fault) (W.contents writer.old) (W.contents writer.new)
        (W.failures writer.old) (W.failures writer.new) }
{
    write_script_fault_head(writer, fault)?;
    write_script_fault_line_number_if_any(writer, fault)
}

fn write_script_fault_head<W: Sink>(writer: &mut W, fault: ScriptFault) -> Result<(), WriteFailed>
    ensures { Takes result (script_head fault) (W.contents writer.old) (W.contents writer.new)
        (W.failures writer.old) (W.failures writer.new) }
{
    write_fault_head(writer, b"script", fault.number(), fault.name())
}

/// The number of the line that is at fault, if a single one is.
fn write_script_fault_line_number_if_any<W: Sink>(
    writer: &mut W,
    fault: ScriptFault,
) -> Result<(), WriteFailed>
    ensures { Takes result (at_line_text fault) (W.contents writer.old) (W.contents writer.new)
        (W.failures writer.old) (W.failures writer.new) }
{
    match fault {
        ScriptFault::BadLine { line } | ScriptFault::NoSuchJob { line } => {
            write_offset_or_zero_in_fault_line(writer, Some(line))
        }
        ScriptFault::TooManyEvents | ScriptFault::Memory => Ok(()),
    }
}
