//! The lines for ill-formed programs.

ghost use Rattle.std.specs.List.{flat_map};
ghost use Rattle.command_faults.specs.FaultLines.{check_head, check_text, cycle_text, fault_text, item_text, name_text};
ghost use Rattle.command_faults.specs.Taking.{Takes};

use crate::lines::CheckFaultLine;
use crate::texts::{write_fault_head, write_fault_words_and_count, write_name_in_fault_line};
use fault_rows::Fault;
use pipe_checks::CheckFault;
use pipe_tokens::Name;
use streams::{Sink, WriteFailed};

/// Writes what is wrong with the names, the numbers and the cycles of a program.
pub fn write_check_fault_line<W: Sink>(
    writer: &mut W,
    line: &CheckFaultLine,
) -> Result<(), WriteFailed>
    ensures { Takes result (check_text line.now) (W.contents writer.old) (W.contents writer.new)
        (W.failures writer.old) (W.failures writer.new) }
{
    match line {
        CheckFaultLine::Fault(fault) => write_check_fault_head_and_item_number(writer, fault),
        CheckFaultLine::Cycle(names) => write_cycle_fault_line(writer, names.names.as_slice()),
    }
}

fn write_check_fault_head_and_item_number<W: Sink>(
    writer: &mut W,
    fault: &CheckFault,
) -> Result<(), WriteFailed>
    ensures { Takes result (fault_text fault.now) (W.contents writer.old) (W.contents writer.new)
        (W.failures writer.old) (W.failures writer.new) }
{
    write_check_fault_head(writer, fault)?;
    write_item_number_in_check_fault_line(writer, fault)
}

fn write_check_fault_head<W: Sink>(writer: &mut W, fault: &CheckFault) -> Result<(), WriteFailed>
    ensures { Takes result (check_head fault.now) (W.contents writer.old) (W.contents writer.new)
        (W.failures writer.old) (W.failures writer.new) }
{
    write_fault_head(writer, b"check", fault.number(), fault.name())
}

/// The number of the item that a fault blames.
fn write_item_number_in_check_fault_line<W: Sink>(
    writer: &mut W,
    fault: &CheckFault,
) -> Result<(), WriteFailed>
    ensures { Takes result (item_text fault.now) (W.contents writer.old) (W.contents writer.new)
        (W.failures writer.old) (W.failures writer.new) }
{
    match fault {
        CheckFault::Unknown(item)
        | CheckFault::Twice(item)
        | CheckFault::Kind(item)
        | CheckFault::BadKernel(item)
        | CheckFault::BadLiteral(item) => write_fault_words_and_count(writer, b" item ", *item),
        CheckFault::NoResult | CheckFault::Cycle(_) | CheckFault::Memory => Ok(()),
    }
}

fn write_cycle_fault_line<W: Sink>(writer: &mut W, names: &[Name]) -> Result<(), WriteFailed>
    ensures { Takes result (cycle_text names.now) (W.contents writer.old) (W.contents writer.new)
        (W.failures writer.old) (W.failures writer.new) }
{
    write_fault_head(writer, b"check", 7, "Cycle")?;
    write_fault_cycle_names(writer, names)
}

fn write_fault_cycle_names<W: Sink>(writer: &mut W, names: &[Name]) -> Result<(), WriteFailed>
    ensures { Takes result (flat_map name_text names.now)
        (W.contents writer.old) (W.contents writer.new)
        (W.failures writer.old) (W.failures writer.new) }
{
    for name in names {
        write_name_in_fault_line(writer, name)?;
    }
    Ok(())
}
