//! Verdicts on several facts, for which each stage is computed once.

ghost use Rattle.std.specs.Prelude.{◌≡◌, ◌↔◌, IfOk, IsTrue};
ghost use Rattle.catalog.specs.Entries.{entry_of, ids_in};
ghost use Rattle.fact_audit.specs.Verdicts.{AreVerdicts, IsVerdict};
ghost use Rattle.fact_audit.specs.inside.Ready.{AreNamed, AreReady, AreStagesFor, IsReady};

use crate::truth::judge_fact_by_stages;
use crate::verdict::Verdict;
use catalog::{Catalog, compute_catalog_job_ids};
use identity::{JobId, Key};
use job::Job;
use std::alloc::{AllocError, Global};
use tile_fact::Fact;
use whole_stages::ComputedWholeStages;

/// Judges facts by the jobs of a catalog: for each in order, the verdict of [`audit`](crate::audit). The stages of each job that
/// facts name, and what these read, are computed whole, each once. All are kept until the last verdict. For a fact of no job
/// nothing is computed.
///
/// # Errors
///
/// Fails only where memory is refused.
pub fn audit_facts(
    alloc: Global,
    catalog: &Catalog,
    facts: &[Fact],
) -> Result<Vec<Verdict>, AllocError>
    ensures { IfOk result (λ verdicts. AreVerdicts catalog.now facts.now verdicts.items) }
{
    let known = compute_audited_stages_by_job(alloc, catalog, facts)?;
    let mut verdicts = Vec::with_capacity(alloc, facts.len())?;
    for fact in facts {
        verdicts.push(judge_fact_among_jobs(alloc, catalog, &known, fact)?)?;
    }
    Ok(verdicts)
}

// The verdict on a fact, for which all is computed.
fn judge_fact_among_jobs(
    alloc: Global,
    catalog: &Catalog,
    known: &[ComputedWholeStages<'_>],
    fact: &Fact,
) -> Result<Verdict, AllocError>
    requires { IsReady catalog.now known.now fact.now }
    ensures { IfOk result (IsVerdict catalog.now fact.now) }
{
    match catalog.find(&JobId::from_key(fact.key())) {
        Some(index) => judge_fact_by_stages(alloc, &known[index], fact),
        None => Ok(Verdict::Foreign),
    }
}

// The stages of each job that facts name, in the order of the jobs.
fn compute_audited_stages_by_job<'a>(
    alloc: Global,
    catalog: &'a Catalog,
    facts: &[Fact],
) -> Result<Vec<ComputedWholeStages<'a>>, AllocError>
    ensures { IfOk result (λ known. AreReady catalog.now facts.now known.items) }
{
    let mut known = Vec::with_capacity(alloc, catalog.len())?;
    for index in 0..catalog.len() {
        let Some(job) = catalog.job(index) else {
            unreachable!();
        };
        known.push(compute_audited_stages_of_job(alloc, job, facts)?)?;
    }
    Ok(known)
}

// The stages of a job that facts name, and what these read.
fn compute_audited_stages_of_job<'a>(
    alloc: Global,
    job: &'a Job,
    facts: &[Fact],
) -> Result<ComputedWholeStages<'a>, AllocError>
    ensures { IfOk result (AreStagesFor facts.now (entry_of job.now)) }
{
    let stages = list_audited_stage_numbers(alloc, &compute_catalog_job_ids(job), facts)?;
    ComputedWholeStages::from_job(alloc, job, &stages)
}

// The stages that facts name of the job of these identities.
fn list_audited_stage_numbers(
    alloc: Global,
    ids: &JobId,
    facts: &[Fact],
) -> Result<Vec<usize>, AllocError>
    ensures { IfOk result (λ stages. AreNamed ids.now facts.now stages.items) }
{
    let mut stages = Vec::new(alloc);
    for fact in facts {
        let key = fact.key();
        if is_key_with_ids_of_audited_job(key, ids) {
            stages.push(usize::from(key.stage))?;
        }
    }
    Ok(stages)
}

// Whether the key names the job of these identities.
fn is_key_with_ids_of_audited_job(key: &Key, ids: &JobId) -> bool
    ensures { IsTrue result ↔ ids.now ≡ ids_in key.now }
{
    ids.program.as_bytes() == key.program.as_bytes() && ids.input.as_bytes() == key.input.as_bytes()
}
