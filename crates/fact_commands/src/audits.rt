//! Fact files as they are audited: from a reader to a writer.

ghost use Rattle.command_outcomes.specs.Outcomes.{CountsRead, CountsWritten, Writes};
ghost use Rattle.fact_commands.specs.FactFaults.{refusing_audit};
ghost use Rattle.fact_commands.specs.FactSayings.{saying_of_audit};
ghost use Rattle.fact_commands.specs.Auditing.{SaysVerdicts};

use crate::audit::judge_facts_of_audit_input;
use crate::audit_lines::write_audit_lines;
use crate::finding::AuditFinding;
use command_faults::StreamFault;
use command_line::Options;
use command_outcomes::read_command_input_bytes;
use streams::{Sink, Source};

/// Reads a program, fact files and a picture. Writes a line for each fact of the files, rising: the verdict, its stage, its row
/// and its column. Facts of jobs that a file retires are left out, and each retired job has a line after the facts. The result is
/// whether a fact is false.
///
/// The input is the program's text, a line `%%`, the files, a line for each, a line `%%` and the picture. `parameters` gives
/// values of the program's parameters. All is judged before the first byte is written, and the lines go out through a buffer of
/// fixed size.
pub fn audit_stream<H: AllocGlobal, R: Source, W: Sink>(
    rt: &H,
    options: &Options,
    parameters: &[(String, i32)],
    reader: &mut R,
    writer: &mut W,
) -> Result<AuditFinding, StreamFault>
    // At `Ok` the writer took all lines, one of which is of a false fact exactly if the result says so. If the writer failed, it
    // took a part of such lines. At any other fault nothing is written, and the fault is the first of the input and the
    // parameters.
    ensures written { Writes (saying_of_audit SaysVerdicts parameters.now options.now.sides)
        (refusing_audit parameters.now options.now.sides) (R.remaining reader.old)
        result (W.contents writer.old) (W.contents writer.new) }
    // A fault of the reader or the writer is returned exactly if it failed.
    ensures read { CountsRead result (R.failures reader.old) (R.failures reader.new) }
    ensures write { CountsWritten result (W.failures writer.old) (W.failures writer.new) }
{
    let input = read_command_input_bytes(rt.alloc(), reader)?;
    let judged = judge_facts_of_audit_input(rt.alloc(), options, parameters, input)?;
    write_audit_lines(&judged.facts, &judged.verdicts, &judged.retired, writer)?;
    Ok(judged.found)
}
