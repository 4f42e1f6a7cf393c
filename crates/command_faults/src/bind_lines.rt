//! The lines for programs and pictures that make no job.

ghost use Rattle.std.specs.Prelude.{◌≡◌, ◌++◌};
ghost use Rattle.command_faults.specs.FaultLines.{axis_word, bind_head, bind_text, blamed_text, ends_text, place_text, read_text};
ghost use Rattle.command_faults.specs.Taking.{Takes};

use crate::lines::BindFaultLine;
use crate::texts::{
    write_fault_head, write_fault_words_and_count, write_fault_words_and_integer,
    write_name_in_fault_line, write_texts_in_fault_line,
};
use binding::BindFault;
use fault_rows::Fault;
use pipe_bounds::{Axis, BoundFault};
use pipe_tokens::Name;
use streams::{Sink, WriteFailed};

/// Writes why a program and a picture make no job.
pub fn write_bind_fault_line<W: Sink>(
    writer: &mut W,
    line: &BindFaultLine,
) -> Result<(), WriteFailed>
    ensures { Takes result (bind_text line.now) (W.contents writer.old) (W.contents writer.new)
        (W.failures writer.old) (W.failures writer.new) }
{
    write_bind_fault_head(writer, line.fault)?;
    write_fault_blamed_name_if_any(writer, &line.blamed)?;
    write_bounds_detail_of_fault_line_if_any(writer, line.fault)
}

fn write_bind_fault_head<W: Sink>(writer: &mut W, fault: BindFault) -> Result<(), WriteFailed>
    ensures { Takes result (bind_head fault) (W.contents writer.old) (W.contents writer.new)
        (W.failures writer.old) (W.failures writer.new) }
{
    match fault {
        BindFault::Bounds(fault) => write_fault_head(
            writer,
            b"bounds",
            fault.number(),
            fault.name(),
        ),
        _ => write_fault_head(writer, b"bind", fault.number(), fault.name()),
    }
}

/// The name that a fault blames, if it blames one.
fn write_fault_blamed_name_if_any<W: Sink>(
    writer: &mut W,
    blamed: &Option<Name>,
) -> Result<(), WriteFailed>
    ensures { Takes result (blamed_text blamed.now) (W.contents writer.old) (W.contents writer.new)
        (W.failures writer.old) (W.failures writer.new) }
{
    match blamed {
        Some(name) => write_name_in_fault_line(writer, name),
        None => Ok(()),
    }
}

/// Where a read leaves the domain of what it reads, and its least and greatest index.
fn write_bounds_detail_of_fault_line_if_any<W: Sink>(
    writer: &mut W,
    fault: BindFault,
) -> Result<(), WriteFailed>
    ensures { Takes result (read_text fault) (W.contents writer.old) (W.contents writer.new)
        (W.failures writer.old) (W.failures writer.new) }
{
    match fault {
        BindFault::Bounds(
            BoundFault::OutOfBounds {
                case,
                read,
                axis,
                least,
                greatest,
                ..
            },
        ) => { write_out_of_bounds_read_in_fault_line(writer, case, read, axis, least, greatest) }
        _ => Ok(()),
    }
}

fn write_out_of_bounds_read_in_fault_line<W: Sink>(
    writer: &mut W,
    case: usize,
    read: usize,
    axis: Axis,
    least: i32,
    greatest: i32,
) -> Result<(), WriteFailed>
    ensures { Takes result (place_text case read axis ++ ends_text least greatest)
        (W.contents writer.old) (W.contents writer.new)
        (W.failures writer.old) (W.failures writer.new) }
{
    write_case_read_and_axis_in_fault_line(writer, case, read, axis)?;
    write_index_range_in_fault_line(writer, least, greatest)
}

fn write_case_read_and_axis_in_fault_line<W: Sink>(
    writer: &mut W,
    case: usize,
    read: usize,
    axis: Axis,
) -> Result<(), WriteFailed>
    ensures { Takes result (place_text case read axis)
        (W.contents writer.old) (W.contents writer.new)
        (W.failures writer.old) (W.failures writer.new) }
{
    write_fault_words_and_count(writer, b" case ", case)?;
    write_fault_words_and_count(writer, b" read ", read)?;
    write_texts_in_fault_line(writer, &[b" ", choose_axis_word_in_fault_line(axis)])
}

fn choose_axis_word_in_fault_line(axis: Axis) -> &'static [u8]
    ensures { result.now ≡ axis_word axis }
{
    match axis {
        Axis::Rows => b"rows",
        Axis::Columns => b"columns",
    }
}

fn write_index_range_in_fault_line<W: Sink>(
    writer: &mut W,
    least: i32,
    greatest: i32,
) -> Result<(), WriteFailed>
    ensures { Takes result (ends_text least greatest)
        (W.contents writer.old) (W.contents writer.new)
        (W.failures writer.old) (W.failures writer.new) }
{
    write_fault_words_and_integer(writer, b" least ", least)?;
    write_fault_words_and_integer(writer, b" greatest ", greatest)
}
