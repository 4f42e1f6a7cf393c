//! The lines that report faults. Writing them takes no memory.

ghost use Rattle.std.specs.Prelude.{◌++◌, ◌∷◌, [], string_bytes};
ghost use Rattle.command_faults.specs.FaultLines.{farm_text, head_at, line_of, name_text, param_head, param_text, text_of};
ghost use Rattle.command_faults.specs.Taking.{Takes};

use crate::bind_lines::write_bind_fault_line;
use crate::check_lines::write_check_fault_line;
use crate::facts_lines::write_facts_fault_line;
use crate::faults::StreamFault;
use crate::lines::{FarmFaultLine, ParamFaultLine};
use crate::script_lines::write_script_fault_line;
use crate::texts::{
    write_fault_head, write_fault_words_and_count, write_offset_or_zero_in_fault_line,
    write_text_in_fault_line, write_texts_in_fault_line,
};
use fault_rows::Fault;
use pipe_bounds::ParamFault;
use streams::{Sink, WriteFailed};

/// Writes the line that reports the fault; a fault of the writer has none.
pub fn write_command_fault_line<W: Sink>(
    fault: &StreamFault,
    writer: &mut W,
) -> Result<(), WriteFailed>
    ensures { Takes result (line_of fault.now) (W.contents writer.old) (W.contents writer.new)
        (W.failures writer.old) (W.failures writer.new) }
{
    match fault {
        StreamFault::Write => Ok(()),
        fault => write_stream_fault_with_line_feed(fault, writer),
    }
}

/// The fault and a line feed.
fn write_stream_fault_with_line_feed<W: Sink>(
    fault: &StreamFault,
    writer: &mut W,
) -> Result<(), WriteFailed>
    ensures { Takes result (text_of fault.now ++ 10 ∷ [])
        (W.contents writer.old) (W.contents writer.new)
        (W.failures writer.old) (W.failures writer.new) }
{
    write_stream_fault_without_line_feed(fault, writer)?;
    write_text_in_fault_line(writer, b"\n")
}

fn write_stream_fault_without_line_feed<W: Sink>(
    fault: &StreamFault,
    writer: &mut W,
) -> Result<(), WriteFailed>
    ensures { Takes result (text_of fault.now) (W.contents writer.old) (W.contents writer.new)
        (W.failures writer.old) (W.failures writer.new) }
{
    match fault {
        StreamFault::Read => write_text_in_fault_line(writer, b"input failed"),
        StreamFault::TooLong => write_text_in_fault_line(writer, b"input: too long"),
        StreamFault::NoSeparator => write_text_in_fault_line(writer, b"input: no separator"),
        StreamFault::Program(fault) => {
            write_fault_head_and_offset(
                writer,
                b"program",
                fault.number(),
                fault.name(),
                fault.offset(),
            )
        }
        StreamFault::Tables(line) => write_fault_words_and_count(writer, b"tables: line ", *line),
        StreamFault::Picture(fault) => {
            write_fault_head_and_offset(
                writer,
                b"picture",
                fault.number(),
                fault.name(),
                fault.offset(),
            )
        }
        StreamFault::Check(line) => write_check_fault_line(writer, line),
        StreamFault::Param(line) => write_param_fault_line(writer, line),
        StreamFault::Bind(line) => write_bind_fault_line(writer, line),
        StreamFault::Facts(fault) => write_facts_fault_line(writer, *fault),
        StreamFault::Script(fault) => write_script_fault_line(writer, *fault),
        StreamFault::Farm(line) => write_farm_fault_line(writer, *line),
        StreamFault::Memory => write_text_in_fault_line(writer, b"memory"),
        StreamFault::Write => Ok(()),
    }
}

/// The same, and where the fault is.
fn write_fault_head_and_offset<W: Sink>(
    writer: &mut W,
    kind: &[u8],
    number: u8,
    name: &str,
    offset: Option<usize>,
) -> Result<(), WriteFailed>
    ensures { Takes result (head_at kind.now number name.now offset)
        (W.contents writer.old) (W.contents writer.new)
        (W.failures writer.old) (W.failures writer.new) }
{
    write_fault_head(writer, kind, number, name)?;
    write_offset_or_zero_in_fault_line(writer, offset)
}

fn write_farm_fault_line<W: Sink>(writer: &mut W, line: FarmFaultLine) -> Result<(), WriteFailed>
    ensures { Takes result (farm_text line) (W.contents writer.old) (W.contents writer.new)
        (W.failures writer.old) (W.failures writer.new) }
{
    match line {
        FarmFaultLine::SpawnFailed => write_text_in_fault_line(writer, b"farm: 1 SpawnFailed"),
        FarmFaultLine::Close => write_text_in_fault_line(writer, b"farm: 3 Close"),
    }
}

fn write_param_fault_line<W: Sink>(writer: &mut W, line: &ParamFaultLine) -> Result<(), WriteFailed>
    ensures { Takes result (param_text line.now) (W.contents writer.old) (W.contents writer.new)
        (W.failures writer.old) (W.failures writer.new) }
{
    write_param_fault_head(writer, line.fault)?;
    write_param_name_in_fault_line(writer, &line.name)
}

/// A name as it was supplied, after a blank.
fn write_param_name_in_fault_line<W: Sink>(writer: &mut W, name: &String) -> Result<(), WriteFailed>
    ensures { Takes result (name_text (string_bytes name.now))
        (W.contents writer.old) (W.contents writer.new)
        (W.failures writer.old) (W.failures writer.new) }
{
    write_texts_in_fault_line(writer, &[b" ", name.as_bytes()])
}

fn write_param_fault_head<W: Sink>(writer: &mut W, fault: ParamFault) -> Result<(), WriteFailed>
    ensures { Takes result (param_head fault) (W.contents writer.old) (W.contents writer.new)
        (W.failures writer.old) (W.failures writer.new) }
{
    write_fault_head(writer, b"parameter", fault.number(), fault.name())
}
