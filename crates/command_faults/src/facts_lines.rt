//! The lines for texts that are not of fact files.

ghost use Rattle.command_faults.specs.FaultLines.{bad_file_text, bad_hex_text, facts_text, file_fault_text};
ghost use Rattle.command_faults.specs.Taking.{Takes};

use crate::texts::{
    write_fault_words_and_count, write_offset_or_zero_in_fault_line, write_text_in_fault_line,
    write_texts_in_fault_line,
};
use fact_lines::FactLinesFault;
use fault_rows::Fault;
use streams::{Sink, WriteFailed};
use tile_fact::FactFault;

/// Writes what is wrong with a line of fact files.
pub fn write_facts_fault_line<W: Sink>(
    writer: &mut W,
    fault: FactLinesFault,
) -> Result<(), WriteFailed>
    ensures { Takes result (facts_text fault) (W.contents writer.old) (W.contents writer.new)
        (W.failures writer.old) (W.failures writer.new) }
{
    match fault {
        FactLinesFault::BadHex { line } => write_bad_hex_fault_line(writer, line),
        FactLinesFault::BadFile { line, fault } => write_bad_file_fault_line(writer, line, fault),
        FactLinesFault::Memory => write_text_in_fault_line(writer, b"memory"),
    }
}

fn write_bad_hex_fault_line<W: Sink>(writer: &mut W, line: usize) -> Result<(), WriteFailed>
    ensures { Takes result (bad_hex_text line) (W.contents writer.old) (W.contents writer.new)
        (W.failures writer.old) (W.failures writer.new) }
{
    write_fault_words_and_count(writer, b"facts: line ", line)?;
    write_text_in_fault_line(writer, b" bad hex")
}

/// The line's number, and the fault of the file that it is.
fn write_bad_file_fault_line<W: Sink>(
    writer: &mut W,
    line: usize,
    fault: FactFault,
) -> Result<(), WriteFailed>
    ensures { Takes result (bad_file_text line fault)
        (W.contents writer.old) (W.contents writer.new)
        (W.failures writer.old) (W.failures writer.new) }
{
    write_bad_file_fault_head(writer, line, fault)?;
    write_offset_or_zero_in_fault_line(writer, fault.offset())
}

fn write_bad_file_fault_head<W: Sink>(
    writer: &mut W,
    line: usize,
    fault: FactFault,
) -> Result<(), WriteFailed>
    ensures { Takes result (file_fault_text line fault)
        (W.contents writer.old) (W.contents writer.new)
        (W.failures writer.old) (W.failures writer.new) }
{
    write_fault_words_and_count(writer, b"facts: line ", line)?;
    write_fault_words_and_count(writer, b" ", usize::from(fault.number()))?;
    write_texts_in_fault_line(writer, &[b" ", fault.name().as_bytes()])
}
