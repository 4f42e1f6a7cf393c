//! From the bytes of an input to its job and its facts.

ghost use Rattle.std.specs.Prelude.{IfOk, IfErr};
ghost use Rattle.command_inputs.specs.Faults.{HasShortTextInThree, IsMemoryOnlyIf};
ghost use Rattle.fact_commands.specs.FactFaults.{IsAuditFault, IsMergeFault};
ghost use Rattle.fact_commands.specs.FactInput.{IsReadAudit};
ghost use Rattle.fact_lines.specs.Texts.{IsJoin};
ghost use Rattle.job.specs.Kept.{pipeline_in};
ghost use Rattle.job.specs.WellFormed.{IsJob, IsSmall};

use command_faults::StreamFault;
use command_inputs::read_input_job_and_middle_section;
use domains::TileSides;
use fact_lines::{FactFileContents, join_fact_file_lines};
use job::Job;
use std::alloc::Global;

/// The job of the program, its tables and the picture that the input spells, and what the fact files between them hold together.
/// A bad line is reported only if the program and the picture have a job.
pub fn read_job_and_facts_of_audit_input(
    alloc: Global,
    sides: TileSides,
    given: &[(String, i32)],
    input: Vec<u8>,
) -> Result<(Job, FactFileContents), StreamFault>
    ensures of_input { IfOk result (λ read. IsReadAudit input.items given.now sides read.0
        read.1.retired.items read.1.facts.items) }
    ensures job { IfOk result (λ read. IsJob (pipeline_in read.0)) }
    ensures small { IfOk result (λ read. IsSmall (pipeline_in read.0)) }
    ensures fault { IfErr result (IsAuditFault input.items given.now sides) }
    ensures memory { IfErr result (IsMemoryOnlyIf (HasShortTextInThree input.items)) }
{
    let (job, middle) = read_input_job_and_middle_section(alloc, sides, given, input.as_slice())?;
    let contents = join_fact_file_lines(alloc, middle)?;
    Ok((job, contents))
}

/// What the fact files of which the input consists hold together.
pub fn join_fact_files_of_merge_input(
    alloc: Global,
    input: Vec<u8>,
) -> Result<FactFileContents, StreamFault>
    ensures join { IfOk result
        (λ contents. IsJoin input.items contents.retired.items contents.facts.items) }
    ensures fault { IfErr result (IsMergeFault input.items) }
{
    Ok(join_fact_file_lines(alloc, input.as_slice())?)
}
