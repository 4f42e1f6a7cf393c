//! Fact files as they are merged: from a reader to a writer.

ghost use Rattle.std.specs.Prelude.{◌≡◌, IfOk, IfErr, length};
ghost use Rattle.fact_lines.specs.Texts.{IsJoin};
ghost use Rattle.fact_lines.specs.Written.{AreCounts};
ghost use Rattle.fact_commands.specs.FactFaults.{IsMergeFault};
ghost use Rattle.command_outcomes.specs.Outcomes.{CountsRead, CountsWritten, Writes};
ghost use Rattle.fact_commands.specs.FactFaults.{refusing_merge};
ghost use Rattle.fact_commands.specs.Merging.{saying_join};

use crate::fact_input::join_fact_files_of_merge_input;
use command_faults::StreamFault;
use command_outcomes::read_command_input_bytes;
use fact_lines::{
    FactFileContents, FactFileCounts, count_facts_and_jobs_for_fact_file_line,
    write_fact_file_line_to_sink,
};
use std::alloc::Global;
use streams::{Sink, Source};

/// Reads fact files, a line for each, and writes the file of their join. It has the retired jobs, and the facts of other jobs,
/// each once and rising, in lower-case hexadecimal digits and LF. Nothing is judged, and no program is needed. The digits go out
/// through a buffer of fixed size.
///
/// Where the files have more than 4,294,967,295 facts or retired jobs, which no file counts, memory is refused.
pub fn merge_stream<H: AllocGlobal, R: Source, W: Sink>(
    rt: &H,
    reader: &mut R,
    writer: &mut W,
) -> Result<(), StreamFault>
    // At `Ok` the writer took the whole line; if it failed, a part of it. At any other fault nothing is written, and the fault is
    // the first bad line.
    ensures written { Writes saying_join refusing_merge (R.remaining reader.old)
        result (W.contents writer.old) (W.contents writer.new) }
    // A fault of the reader or the writer is returned exactly if it failed.
    ensures read { CountsRead result (R.failures reader.old) (R.failures reader.new) }
    ensures write { CountsWritten result (W.failures writer.old) (W.failures writer.new) }
{
    let input = read_command_input_bytes(rt.alloc(), reader)?;
    let (contents, counts) = join_and_count_merge_input(rt.alloc(), input)?;
    Ok(write_fact_file_line_to_sink(&contents.retired, &contents.facts, counts, writer)?)
}

/// The join of the files, and its counts. The input is freed.
fn join_and_count_merge_input(
    alloc: Global,
    input: Vec<u8>,
) -> Result<(FactFileContents, FactFileCounts), StreamFault>
    ensures join { IfOk result
        (λ counted. IsJoin input.items counted.0.retired.items counted.0.facts.items) }
    ensures counts { IfOk result
        (λ counted. AreCounts counted.1 counted.0.retired.items counted.0.facts.items) }
    ensures fault { IfErr result (IsMergeFault input.items) }
{
    let contents = join_fact_files_of_merge_input(alloc, input)?;
    match count_facts_and_jobs_for_fact_file_line(&contents.retired, &contents.facts) {
        Some(counts) => Ok((contents, counts)),
        None => Err(StreamFault::Memory),
    }
}
