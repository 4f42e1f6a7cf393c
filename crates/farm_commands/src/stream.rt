//! The command `run` as it is run: from a reader to a writer.

ghost use Rattle.std.specs.Prelude.{IfErr, IfOk};
ghost use Rattle.command_inputs.specs.Faults.{HasShortText, IsMemoryOnlyIf};
ghost use Rattle.command_outcomes.specs.Outcomes.{CountsRead, CountsWritten, Writes};
ghost use Rattle.farm_commands.specs.FarmRuns.{IsRunOnInput, saying_of_run};
ghost use Rattle.farm_commands.specs.RunFaults.{IsRunFault, refusing_run};
ghost use Rattle.command_outcomes.specs.Replies.{reply_bytes};

use crate::farm_run::{FarmResult, compute_farm_result_of_job};
use crate::result_run::FarmResultRun;
use command_faults::StreamFault;
use command_inputs::read_input_job;
use command_line::Options;
use command_outcomes::{read_command_input_bytes, write_job_reply};
use farm_setup::FarmSetup;
use std::sync::Wait;
use std::thread::Threads;
use streams::{Sink, Source};

/// Reads a program and a picture, runs the program on the picture by a farm of nodes, and writes the result. It is the picture of
/// the output, if there is one, and after it a line for each accumulator. It is what one thread computes, however many nodes
/// there are and whatever they lose, repeat and forget.
///
/// The input is the program's text, a line `%%` and the picture. `parameters` gives values of the program's parameters. All is
/// computed before the first byte is written. The run of the farm is returned.
pub fn run_stream<H: AllocGlobal + Threads + Wait + Sync, R: Source, W: Sink>(
    rt: &H,
    setup: &FarmSetup,
    options: &Options,
    parameters: &[(String, i32)],
    reader: &mut R,
    writer: &mut W,
) -> Result<FarmResultRun, StreamFault>
    // At `Ok` the writer took the bytes of the result, and the farm of this setup ran by the requested schedule; if the writer
    // failed, it took a part of them. At any other fault nothing is written. The fault is the first of the input and the
    // parameters, or the farm's own, which is reported only for an input that has a job.
    ensures written { Writes (saying_of_run setup.now options.now parameters.now)
        (refusing_run parameters.now options.now.sides) (R.remaining reader.old)
        result (W.contents writer.old) (W.contents writer.new) }
    // A fault of the reader or the writer is returned exactly if it failed.
    ensures read { CountsRead result (R.failures reader.old) (R.failures reader.new) }
    ensures write { CountsWritten result (W.failures writer.old) (W.failures writer.new) }
{
    let input = read_command_input_bytes(rt.alloc(), reader)?;
    let farmed = compute_farm_result_of_input(rt, setup, options, parameters, input)?;
    write_job_reply(&farmed.reply, writer)?;
    Ok(farmed.run)
}

/// Runs the farm of `run_stream` on what was read, and returns what it computed.
pub fn compute_farm_result_of_input<H: AllocGlobal + Threads + Wait + Sync>(
    rt: &H,
    setup: &FarmSetup,
    options: &Options,
    given: &[(String, i32)],
    input: Vec<u8>,
) -> Result<FarmResult, StreamFault>
    ensures run { IfOk result (λ farmed. IsRunOnInput setup.now options.now given.now input.items
        (reply_bytes farmed.reply) farmed.run) }
    ensures fault { IfErr result (IsRunFault input.items given.now options.now.sides) }
    ensures memory { IfErr result (IsMemoryOnlyIf (HasShortText input.items)) }
{
    let job = read_input_job(rt.alloc(), options.sides, given, input)?;
    compute_farm_result_of_job(rt, setup, options, job)
}
