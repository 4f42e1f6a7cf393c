//! The verdicts on the facts of an input, and which jobs are retired.

ghost use Rattle.std.specs.Prelude.{◌≡◌, IfOk, IfErr, length};
ghost use Rattle.fact_commands.specs.FactFaults.{IsAuditFault};
ghost use Rattle.fact_commands.specs.FactSayings.{IsSaidOfAudit};
ghost use Rattle.fact_commands.specs.Auditing.{SaysVerdicts};
ghost use Rattle.fact_commands.specs.Verdicts.{audit_lines};

use crate::fact_input::read_job_and_facts_of_audit_input;
use crate::finding::{AuditFinding, make_finding_of_audit_verdicts};
use command_faults::StreamFault;
use command_inputs::make_catalog_of_input_job;
use command_line::Options;
use fact_audit::{Verdict, audit_facts};
use fact_lines::FactFileContents;
use identity::JobId;
use std::alloc::Global;
use tile_fact::Fact;

/// Facts, the verdict on each, in their order, whether one of them is false, and the retired jobs.
#[derive(Debug, Drop)]
pub struct AuditJudgment {
    pub facts: Vec<Fact>,
    pub verdicts: Vec<Verdict>,
    pub found: AuditFinding,
    pub retired: Vec<JobId>,
}

/// Judges the facts of an input by its job, except those of jobs that it retires. The input and the job are freed.
pub fn judge_facts_of_audit_input(
    alloc: Global,
    options: &Options,
    given: &[(String, i32)],
    input: Vec<u8>,
) -> Result<AuditJudgment, StreamFault>
    ensures said { IfOk result (λ judged. IsSaidOfAudit SaysVerdicts given.now options.now.sides
        judged.found input.items
        (audit_lines judged.facts.items judged.verdicts.items judged.retired.items)) }
    ensures count { IfOk result
        (λ judged. length judged.verdicts.items ≡ length judged.facts.items) }
    ensures fault { IfErr result (IsAuditFault input.items given.now options.now.sides) }
{
    let (job, contents) = read_job_and_facts_of_audit_input(alloc, options.sides, given, input)?;
    let FactFileContents { retired, facts } = contents;
    let catalog = make_catalog_of_input_job(alloc, job)?;
    let verdicts = audit_facts(alloc, &catalog, &facts)?;
    let found = make_finding_of_audit_verdicts(&verdicts);
    Ok(AuditJudgment {
        facts,
        verdicts,
        found,
        retired,
    })
}
