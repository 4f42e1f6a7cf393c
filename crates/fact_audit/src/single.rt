//! Verdicts on facts by a catalog.

ghost use Rattle.std.specs.Prelude.{ℕ, IfOk, IfSome, IfNone};
ghost use Rattle.catalog.specs.Entries.{IsCatalog, StandsAt, entry_of, ids_in};
ghost use Rattle.fact_audit.specs.Verdicts.{HasEntry, IsVerdict};

use crate::shape::is_well_shaped_fact;
use crate::truth::judge_fact_by_stages;
use crate::verdict::Verdict;
use catalog::Catalog;
use identity::{JobId, Key};
use job::Job;
use std::alloc::{AllocError, Global};
use tile_fact::Fact;
use whole_stages::ComputedWholeStages;

/// Judges a fact by the jobs of a catalog. The stage that the fact names is computed whole, after what it reads.
///
/// # Errors
///
/// Fails only where memory is refused.
pub fn audit(alloc: Global, catalog: &Catalog, fact: &Fact) -> Result<Verdict, AllocError>
    ensures { IfOk result (IsVerdict catalog.now fact.now) }
{
    let Some(job) = borrow_job_of_fact_key(catalog, fact.key()) else {
        return Ok(Verdict::Foreign);
    };
    if !is_well_shaped_fact(job, fact) {
        return Ok(Verdict::Misshapen);
    }
    let stages = ComputedWholeStages::from_job(alloc, job, &[usize::from(fact.key().stage)])?;
    judge_fact_by_stages(alloc, &stages, fact)
}

/// The job whose identities the key names. Nothing is hashed, and no memory is allocated.
pub fn borrow_job_of_fact_key<'a>(catalog: &'a Catalog, key: &Key) -> Option<&'a Job>
    ensures some { IfSome result (λ job. HasEntry catalog.now key.now (entry_of job.now)) }
    ensures none { IfNone result ((i : ℕ) → ¬ (StandsAt catalog.now (ids_in key.now) i)) }
    ensures catalog { IsCatalog catalog.now }
{
    match catalog.find(&JobId::from_key(key)) {
        Some(index) => catalog.job(index),
        None => None,
    }
}
