//! Commands, and how they end.

ghost use Rattle.std.specs.Prelude.{◌≡◌, ◌≢◌, ◌≤◌, ◌⊎◌};
ghost use Rattle.command_faults.specs.FaultLines.{line_of};
ghost use Rattle.command_outcomes.specs.Outcomes.{CountsRead, CountsWritten, Writes};
ghost use Rattle.command_faults.specs.Statuses.{status_of};
ghost use Rattle.command_faults.specs.Taking.{Puts};
ghost use Rattle.streams.specs.Streams.{one_more};
ghost use Rattle.commands.specs.Endings.{AskFor, AskForNothing, HasFarmFailed, HasSaid, HasSaidPart, HasTold};
ghost use Rattle.commands.specs.Endings.{NamesCommand, usage_line};
ghost use Rattle.commands.specs.Sayings.{refusing_by, saying_by};
ghost use Rattle.commands.specs.Successes.{saying_success_by};
ghost use Rattle.fact_commands.specs.declared.finding.AuditFinding.TheVariants.{AFalse, NoFalse};
ghost use Rattle.command_faults.specs.declared.faults.StreamFault.TheVariants.{Memory, Read};

use crate::success::{
    RunCommandSuccess, map_run_command_farm_to_success, map_run_command_finding_to_success,
    map_run_command_success_to_finding, map_run_command_success_to_no_false,
};
use crate::task_stream::{check_stream, eval_stream, plan_stream};
use command_faults::{StreamFault, write_command_fault_line};
use command_line::{CommandLineRefusal, CommandRequest, CommandTask, read_command_request};
use fact_commands::{AuditFinding, audit_stream, merge_stream};
use farm_commands::run_stream;
use std::sync::Wait;
use std::thread::Threads;
use streams::{Sink, Source, write_all_bytes};
use world_commands::world_stream;

/// The line of every command line that is refused.
const USAGE: &[u8] = b"usage: tilefarm COMMAND [OPTIONS] [NAME=VALUE]...\n";

/// Runs the command that the words name, and returns the exit status of the program. It is 0 done, 1 usage or parameters, 2
/// unreadable input, 3 refused program, 4 input, output or the farm failed, 5 memory, 6 a false fact was found. A fault is
/// reported in one line on the writer, without allocating memory. `words` is without the program's own name.
pub fn run_command<H: AllocGlobal + Threads + Wait + Sync, R: Source, W: Sink>(
    rt: &H,
    words: &[String],
    reader: &mut R,
    writer: &mut W,
) -> u8
    // The requested command was run with the options and the parameters of the words. The writer took all of its output, which
    // reports no fact as false.
    ensures done { result ≡ 0 → (W.failures writer.new ≡ W.failures writer.old)
        × AskFor words.now (λ request. HasSaid NoFalse request (R.remaining reader.old)
        (W.contents writer.old) (W.contents writer.new)) }
    // The same, and the output reports a fact as false.
    ensures found { result ≡ 6 → (W.failures writer.new ≡ W.failures writer.old)
        × AskFor words.now (λ request. HasSaid AFalse request (R.remaining reader.old)
        (W.contents writer.old) (W.contents writer.new)) }
    // The words request nothing, and nothing is read; or the first fault is one of the parameters that they give.
    ensures usage { result ≡ 1 →
        (AskForNothing words.now × (R.remaining reader.new ≡ R.remaining reader.old)
        × Puts usage_line (W.contents writer.old) (W.contents writer.new)
        (W.failures writer.old) (W.failures writer.new))
        ⊎ AskFor words.now (λ request. HasTold 1 request (R.remaining reader.old)
        (W.contents writer.old) (W.contents writer.new)
        (W.failures writer.old) (W.failures writer.new)) }
    ensures unreadable { result ≡ 2 →
        AskFor words.now (λ request. HasTold 2 request (R.remaining reader.old)
        (W.contents writer.old) (W.contents writer.new)
        (W.failures writer.old) (W.failures writer.new)) }
    ensures refused { result ≡ 3 →
        AskFor words.now (λ request. HasTold 3 request (R.remaining reader.old)
        (W.contents writer.old) (W.contents writer.new)
        (W.failures writer.old) (W.failures writer.new)) }
    // The reader failed, or the farm of the request gave no answer; both are reported. Or the writer failed, which is not
    // reported.
    ensures failed { result ≡ 4 →
        ((R.failures reader.new ≡ one_more (R.failures reader.old))
        × Puts (line_of Read) (W.contents writer.old) (W.contents writer.new)
        (W.failures writer.old) (W.failures writer.new))
        ⊎ ((W.failures writer.new ≡ one_more (W.failures writer.old))
        × AskFor words.now (λ request. HasSaidPart request (R.remaining reader.old)
        (W.contents writer.old) (W.contents writer.new)))
        ⊎ ((R.failures reader.new ≡ R.failures reader.old)
        × AskFor words.now (λ request. HasFarmFailed request (R.remaining reader.old)
        (W.contents writer.old) (W.contents writer.new)
        (W.failures writer.old) (W.failures writer.new))) }
    ensures memory { result ≡ 5 → NamesCommand words.now
        × Puts (line_of Memory) (W.contents writer.old) (W.contents writer.new)
        (W.failures writer.old) (W.failures writer.new) }
    ensures known { result ≤ 6 }
    ensures read { result ≢ 4 → R.failures reader.new ≡ R.failures reader.old }
{
    match read_command_request(rt.alloc(), words) {
        Ok(request) => run_command_request_to_exit_status(rt, &request, reader, writer),
        Err(CommandLineRefusal::Usage) => {
            print_usage_line_in_run_command(writer);
            1
        }
        Err(CommandLineRefusal::Memory) => {
            print_fault_line_in_run_command(&StreamFault::Memory, writer);
            5
        }
    }
}

/// Runs the requested command, and returns its status.
fn run_command_request_to_exit_status<H: AllocGlobal + Threads + Wait + Sync, R: Source, W: Sink>(
    rt: &H,
    request: &CommandRequest,
    reader: &mut R,
    writer: &mut W,
) -> u8
    ensures done { result ≡ 0 → (W.failures writer.new ≡ W.failures writer.old)
        × HasSaid NoFalse request.now (R.remaining reader.old) (W.contents writer.old)
        (W.contents writer.new) }
    ensures found { result ≡ 6 → (W.failures writer.new ≡ W.failures writer.old)
        × HasSaid AFalse request.now (R.remaining reader.old) (W.contents writer.old)
        (W.contents writer.new) }
    ensures usage { result ≡ 1 → HasTold 1 request.now (R.remaining reader.old)
        (W.contents writer.old) (W.contents writer.new) (W.failures writer.old)
        (W.failures writer.new) }
    ensures unreadable { result ≡ 2 → HasTold 2 request.now (R.remaining reader.old)
        (W.contents writer.old) (W.contents writer.new) (W.failures writer.old)
        (W.failures writer.new) }
    ensures refused { result ≡ 3 → HasTold 3 request.now (R.remaining reader.old)
        (W.contents writer.old) (W.contents writer.new) (W.failures writer.old)
        (W.failures writer.new) }
    ensures failed { result ≡ 4 →
        ((R.failures reader.new ≡ one_more (R.failures reader.old))
        × Puts (line_of Read) (W.contents writer.old) (W.contents writer.new)
        (W.failures writer.old) (W.failures writer.new))
        ⊎ ((W.failures writer.new ≡ one_more (W.failures writer.old))
        × HasSaidPart request.now (R.remaining reader.old)
        (W.contents writer.old) (W.contents writer.new))
        ⊎ ((R.failures reader.new ≡ R.failures reader.old)
        × HasFarmFailed request.now (R.remaining reader.old) (W.contents writer.old)
        (W.contents writer.new) (W.failures writer.old) (W.failures writer.new)) }
    ensures memory { result ≡ 5 →
        Puts (line_of Memory) (W.contents writer.old) (W.contents writer.new)
        (W.failures writer.old) (W.failures writer.new) }
    ensures known { result ≤ 6 }
    ensures read { result ≢ 4 → R.failures reader.new ≡ R.failures reader.old }
{
    match run_command_request_to_audit_finding(rt, request, reader, writer) {
        Ok(AuditFinding::NoFalse) => 0,
        Ok(AuditFinding::AFalse) => 6,
        Err(fault) => {
            print_fault_line_in_run_command(&fault, writer);
            fault.exit_status()
        }
    }
}

/// Runs the requested command, and returns what it found.
fn run_command_request_to_audit_finding<H: AllocGlobal + Threads + Wait + Sync, R: Source, W: Sink>(
    rt: &H,
    request: &CommandRequest,
    reader: &mut R,
    writer: &mut W,
) -> Result<AuditFinding, StreamFault>
    ensures written { Writes (saying_by request.now) (refusing_by request.now)
        (R.remaining reader.old) result (W.contents writer.old) (W.contents writer.new) }
    ensures read { CountsRead result (R.failures reader.old) (R.failures reader.new) }
    ensures write { CountsWritten result (W.failures writer.old) (W.failures writer.new) }
{
    map_run_command_success_to_finding(run_command_request_to_success(rt, request, reader, writer))
}

/// Runs the requested command. The success of `run` is the run of its farm, which has the requested setup.
fn run_command_request_to_success<H: AllocGlobal + Threads + Wait + Sync, R: Source, W: Sink>(
    rt: &H,
    request: &CommandRequest,
    reader: &mut R,
    writer: &mut W,
) -> Result<RunCommandSuccess, StreamFault>
    ensures written { Writes (saying_success_by request.now) (refusing_by request.now)
        (R.remaining reader.old) result (W.contents writer.old) (W.contents writer.new) }
    ensures read { CountsRead result (R.failures reader.old) (R.failures reader.new) }
    ensures write { CountsWritten result (W.failures writer.old) (W.failures writer.new) }
{
    match request {
        CommandRequest::Merge => map_run_command_success_to_no_false(merge_stream(
            rt, reader, writer,
        )),
        CommandRequest::Job(request) => {
            let options = &request.options;
            let parameters = request.parameters.as_slice();
            match request.task {
                CommandTask::Eval => map_run_command_success_to_no_false(eval_stream(
                    rt, options, parameters, reader, writer,
                )),
                CommandTask::Check => map_run_command_success_to_no_false(check_stream(
                    rt, options, parameters, reader, writer,
                )),
                CommandTask::Plan => map_run_command_success_to_no_false(plan_stream(
                    rt, options, parameters, reader, writer,
                )),
                CommandTask::Run(farm) => {
                    map_run_command_farm_to_success(run_stream(
                        rt, &farm, options, parameters, reader, writer,
                    ))
                }
                CommandTask::Audit => map_run_command_finding_to_success(audit_stream(
                    rt, options, parameters, reader, writer,
                )),
                CommandTask::World(nodes) => {
                    map_run_command_success_to_no_false(world_stream(
                        rt, nodes, options, parameters, reader, writer,
                    ))
                }
            }
        }
    }
}

/// Writes the fault's line, if the writer takes it.
fn print_fault_line_in_run_command<W: Sink>(fault: &StreamFault, writer: &mut W)
    ensures { Puts (line_of fault.now) (W.contents writer.old) (W.contents writer.new)
        (W.failures writer.old) (W.failures writer.new) }
{
    let _ = write_command_fault_line(fault, writer);
}

/// Writes the usage line, if the writer takes it.
fn print_usage_line_in_run_command<W: Sink>(writer: &mut W)
    ensures { Puts usage_line (W.contents writer.old) (W.contents writer.new)
        (W.failures writer.old) (W.failures writer.new) }
{
    let _ = write_all_bytes(writer, USAGE);
}
