//! The commands as they are run: from a reader to a writer.

ghost use Rattle.command_outcomes.specs.Outcomes.{CountsRead, CountsWritten, Writes, refusing_job, saying_of_job};
ghost use Rattle.commands.specs.Listing.{SaysCheck};
ghost use Rattle.commands.specs.Planning.{SaysPlan};
ghost use Rattle.commands.specs.inside.Questions.{saying_of};
ghost use Rattle.command_jobs.specs.Results.{SaysResult};

use crate::asked_job::make_job_of_eval_check_or_plan;
use crate::question::JobQuestion;
use crate::reply::compute_eval_check_or_plan_reply;
use command_faults::StreamFault;
use command_inputs::read_input_job;
use command_line::Options;
use command_outcomes::{read_command_input_bytes, write_job_reply};
use std::thread::Threads;
use streamed_results::prepare_streamed_result;
use streams::{Sink, Source};

/// Reads a program and a picture. Writes a line for the identity of the program, one for the identity of its input, and one for
/// each stage. The line of a stage has its number, kind and name, its rows and columns, and how many tiles it has.
///
/// The input is the program's text, a line `%%` and the picture. `parameters` gives values of the program's parameters.
pub fn check_stream<H: AllocGlobal + Threads + Sync, R: Source, W: Sink>(
    rt: &H,
    options: &Options,
    parameters: &[(String, i32)],
    reader: &mut R,
    writer: &mut W,
) -> Result<(), StreamFault>
    // At `Ok` the writer took all lines; if it failed, a part of them. At any other fault nothing is written, and the fault is
    // the first of the input and the parameters.
    ensures written { Writes (saying_of_job SaysCheck parameters.now options.now.sides)
        (refusing_job parameters.now options.now.sides) (R.remaining reader.old)
        result (W.contents writer.old) (W.contents writer.new) }
    // A fault of the reader or the writer is returned exactly if it failed.
    ensures read { CountsRead result (R.failures reader.old) (R.failures reader.new) }
    ensures write { CountsWritten result (W.failures writer.old) (W.failures writer.new) }
{
    run_eval_check_or_plan(rt, JobQuestion::Stages, options, parameters, reader, writer)
}

/// Reads a program and a picture, and writes the result of running the program on the picture. It is the picture of the output,
/// if there is one, and after it a line for each accumulator.
///
/// The input is the program's text, a line `%%` and the picture. `parameters` gives values of the program's parameters.
pub fn eval_stream<H: AllocGlobal + Threads + Sync, R: Source, W: Sink>(
    rt: &H,
    options: &Options,
    parameters: &[(String, i32)],
    reader: &mut R,
    writer: &mut W,
) -> Result<(), StreamFault>
    // At `Ok` the writer took the bytes of the result; if it failed, a part of them. At any other fault nothing is written, and
    // the fault is the first of the input and the parameters.
    ensures written { Writes (saying_of_job SaysResult parameters.now options.now.sides)
        (refusing_job parameters.now options.now.sides) (R.remaining reader.old)
        result (W.contents writer.old) (W.contents writer.new) }
    // A fault of the reader or the writer is returned exactly if it failed.
    ensures read { CountsRead result (R.failures reader.old) (R.failures reader.new) }
    ensures write { CountsWritten result (W.failures writer.old) (W.failures writer.new) }
{
    run_eval_check_or_plan(rt, JobQuestion::Answer, options, parameters, reader, writer)
}

/// Reads a program and a picture, and writes a line for each function and each accumulator. It says that it is inlined, or that
/// it is stored and how many points are computed for its tiles.
///
/// The input is the program's text, a line `%%` and the picture. `parameters` gives values of the program's parameters.
pub fn plan_stream<H: AllocGlobal + Threads + Sync, R: Source, W: Sink>(
    rt: &H,
    options: &Options,
    parameters: &[(String, i32)],
    reader: &mut R,
    writer: &mut W,
) -> Result<(), StreamFault>
    // At `Ok` the writer took all lines; if it failed, a part of them. At any other fault nothing is written, and the fault is
    // the first of the input and the parameters.
    ensures written { Writes (saying_of_job (SaysPlan options.now.stored options.now.percent)
        parameters.now options.now.sides) (refusing_job parameters.now options.now.sides)
        (R.remaining reader.old) result (W.contents writer.old) (W.contents writer.new) }
    // A fault of the reader or the writer is returned exactly if it failed.
    ensures read { CountsRead result (R.failures reader.old) (R.failures reader.new) }
    ensures write { CountsWritten result (W.failures writer.old) (W.failures writer.new) }
{
    run_eval_check_or_plan(rt, JobQuestion::Plan, options, parameters, reader, writer)
}

/// Reads the input, and writes the reply to a question about its job. All memory is taken before the first byte is written, and no
/// fault but the writer's comes after it.
fn run_eval_check_or_plan<H: AllocGlobal + Threads + Sync, R: Source, W: Sink>(
    rt: &H,
    question: JobQuestion,
    options: &Options,
    parameters: &[(String, i32)],
    reader: &mut R,
    writer: &mut W,
) -> Result<(), StreamFault>
    ensures written { Writes
        (saying_of_job (saying_of question options.now.stored options.now.percent)
        parameters.now options.now.sides) (refusing_job parameters.now options.now.sides)
        (R.remaining reader.old) result (W.contents writer.old) (W.contents writer.new) }
    ensures read { CountsRead result (R.failures reader.old) (R.failures reader.new) }
    ensures write { CountsWritten result (W.failures writer.old) (W.failures writer.new) }
{
    let input = read_command_input_bytes(rt.alloc(), reader)?;
    let job = read_input_job(rt.alloc(), options.sides, parameters, input)?;
    let asked = make_job_of_eval_check_or_plan(rt.alloc(), question, job)?;
    if let JobQuestion::Answer = question {
        if let Some(result) = prepare_streamed_result(rt, rt.alloc(), &asked)? {
            return Ok(result.write(writer)?);
        }
    }
    let reply = compute_eval_check_or_plan_reply(rt, question, options, asked)?;
    Ok(write_job_reply(&reply, writer)?)
}
