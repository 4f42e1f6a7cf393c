//! What became of a world, as lines.

ghost use Rattle.std.specs.List.{flat_map};
ghost use Rattle.command_faults.specs.Taking.{Takes};
ghost use Rattle.world_commands.specs.WorldLines.{count_line, node_head};
ghost use Rattle.world_commands.specs.inside.Outcomes.{held_line, outcome_lines};
ghost use Rattle.write_buffer.specs.Passing.{Puts};

use crate::contents::WorldNodeReport;
use crate::outcome::WorldOutcome;
use fact_lines::put_fact_file_line;
use itoa::Buffer;
use streams::{Sink, WriteFailed};
use write_buffer::WriteBuffer;

/// Writes how many events there were and how many were refused, and a line for each node. It allocates no memory: the lines go
/// through a buffer of fixed size.
pub fn write_event_counts_and_world_node_lines<W: Sink>(
    outcome: &WorldOutcome,
    writer: &mut W,
) -> Result<(), WriteFailed>
    ensures { Takes result (outcome_lines outcome.now)
        (W.contents writer.old) (W.contents writer.new)
        (W.failures writer.old) (W.failures writer.new) }
{
    let mut buffer = WriteBuffer::new();
    put_world_outcome_event_counts(&mut buffer, writer, outcome.done, outcome.refused)?;
    put_world_node_lines(&mut buffer, writer, &outcome.nodes)?;
    buffer.flush(writer)
}

fn put_world_outcome_event_counts<W: Sink>(
    buffer: &mut WriteBuffer,
    writer: &mut W,
    done: usize,
    refused: usize,
) -> Result<(), WriteFailed>
    ensures { Puts result (count_line done refused) buffer.old buffer.new
        (W.contents writer.old) (W.contents writer.new)
        (W.failures writer.old) (W.failures writer.new) }
{
    let mut dones = Buffer::new();
    let mut refusals = Buffer::new();
    let done = dones.format(done).as_bytes();
    let refused = refusals.format(refused).as_bytes();
    buffer.put_slices(writer, &[b"done ", done, b" refused ", refused, b"\n"])
}

fn put_world_node_lines<W: Sink>(
    buffer: &mut WriteBuffer,
    writer: &mut W,
    nodes: &[WorldNodeReport],
) -> Result<(), WriteFailed>
    ensures { Puts result (flat_map held_line nodes.now) buffer.old buffer.new
        (W.contents writer.old) (W.contents writer.new)
        (W.failures writer.old) (W.failures writer.new) }
{
    for node in nodes {
        put_world_node_line(buffer, writer, node)?;
    }
    Ok(())
}

fn put_world_node_line<W: Sink>(
    buffer: &mut WriteBuffer,
    writer: &mut W,
    node: &WorldNodeReport,
) -> Result<(), WriteFailed>
    ensures { Puts result (held_line node.now) buffer.old buffer.new
        (W.contents writer.old) (W.contents writer.new)
        (W.failures writer.old) (W.failures writer.new) }
{
    put_world_node_line_head(buffer, writer, node.node)?;
    put_fact_file_line(buffer, writer, &node.retired, &node.facts, node.counts)
}

fn put_world_node_line_head<W: Sink>(
    buffer: &mut WriteBuffer,
    writer: &mut W,
    node: u8,
) -> Result<(), WriteFailed>
    ensures { Puts result (node_head node) buffer.old buffer.new
        (W.contents writer.old) (W.contents writer.new)
        (W.failures writer.old) (W.failures writer.new) }
{
    let mut digits = Buffer::new();
    buffer.put_slices(writer, &[b"node ", digits.format(node).as_bytes(), b" "])
}
