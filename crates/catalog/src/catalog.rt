//! Jobs, distinguished by their identities.

ghost use Rattle.std.specs.Prelude.{◌≡◌, ◌++◌, ◌∷◌, [], ℕ, List, length, map, slice_get, IfOk, IfErr, IfSome, IfNone, OnOk, OnErr};
ghost use Rattle.std.specs.Option.{option_map};
ghost use Rattle.catalog.specs.Entries.{entry_of, AreJobs, IsCatalog, StandsAt};
ghost use Rattle.catalog.specs.Refusals.{IsAdmitted, IsRefusal};

use crate::fault::AdmitFault;
use crate::ids::{compute_catalog_job_ids, is_catalog_job_with_ids};
use identity::JobId;
use job::Job;
use std::alloc::Global;
use std::marker::Model;

/// The greatest number of jobs of a catalog.
pub const MOST_JOBS: usize = 16;

/// At most 16 jobs, in the order in which they were admitted. No two have equal identities. Each keeps the identity of its input,
/// so that [`find`](Catalog::find) hashes nothing.
#[derive(Debug, Drop)]
pub struct Catalog {
    jobs: Vec<Job>,
}

impl Model for Catalog {
    ghost use Rattle.std.specs.Prelude.{List, map};
    ghost use Rattle.std.specs.Coded.{codes};
    ghost use Rattle.catalog.specs.Codes.{formula_code};
    ghost use Rattle.catalog.specs.Entries.{Entry, entry_of, IsCatalog};

    ghost Value = { List Entry };

    ghost coded = { Prim.hlevel (codes, formula_code) };

    ghost view = { λ c. map entry_of c.jobs.items };

    ghost invariant = { λ c. IsCatalog (map entry_of c.jobs.items) };
}

impl Catalog {
    /// A catalog without jobs. No memory is allocated.
    pub fn new(alloc: Global) -> Catalog
        ensures { result ≡ [] }
    {
        Catalog {
            jobs: Vec::new(alloc),
        }
    }

    /// Adds a job, and returns its index. A refused job is handed back, as the same pipeline and text, and the catalog is
    /// unchanged. All samples of its picture are hashed, unless it keeps that identity. If a job has the same identities, the
    /// pictures are compared.
    ///
    /// # Errors
    ///
    /// The first of `Same`, `Clash`, `Full` and `Memory`. Memory is refused only for a new job, where the catalog is not full.
    pub fn admit(&mut self, job: Job) -> Result<usize, (Job, AdmitFault)>
        ensures taken { OnOk result (self.new ≡ self.old ++ entry_of job ∷ []) }
        ensures index { IfOk result (λ index. index ≡ length self.old) }
        ensures admitted { OnOk result (IsAdmitted self.old (entry_of job)) }
        ensures unchanged { OnErr result (self.new ≡ self.old) }
        ensures back { IfErr result (λ back. entry_of back.0 ≡ entry_of job) }
        ensures refused { IfErr result (λ back. IsRefusal self.old (entry_of job) back.1) }
    {
        let mut job = job;
        job.cache_input_id();
        if let Some(fault) = self.find_admit_fault(&job) {
            return Err((job, fault));
        }
        match self.append_job(job) {
            Ok(index) => Ok(index),
            Err(job) => Err((job, AdmitFault::Memory)),
        }
    }

    // Adds a job that is not refused, unless memory is.
    fn append_job(&mut self, job: Job) -> Result<usize, Job>
        requires { IsAdmitted self.old (entry_of job) }
        ensures taken { OnOk result (self.new ≡ self.old ++ entry_of job ∷ []) }
        ensures index { IfOk result (λ index. index ≡ length self.old) }
        ensures unchanged { OnErr result (self.new ≡ self.old) }
        ensures back { IfErr result (λ back. entry_of back ≡ entry_of job) }
    {
        let index = self.jobs().len();
        if let Err(failed) = self.jobs.push(job) {
            return Err(failed.value);
        }
        Ok(index)
    }

    // Why this job is refused, other than for memory.
    fn find_admit_fault(&self, job: &Job) -> Option<AdmitFault>
        ensures some { IfSome result (IsRefusal self.now (entry_of job.now)) }
        ensures none { IfNone result (IsAdmitted self.now (entry_of job.now)) }
    {
        if let Some(index) = self.find(&compute_catalog_job_ids(job)) {
            if self.jobs()[index].has_same_program_and_input(job) {
                return Some(AdmitFault::Same(index));
            }
            return Some(AdmitFault::Clash(index));
        }
        if self.jobs().len() == MOST_JOBS {
            return Some(AdmitFault::Full);
        }
        None
    }

    /// How many jobs there are.
    pub fn len(&self) -> usize
        ensures { result ≡ length self.now }
    {
        self.jobs().len()
    }

    /// The job of this index. No memory is allocated.
    pub fn job(&self, index: usize) -> Option<&Job>
        ensures job { option_map (λ job. entry_of job.now) result ≡ slice_get self.now index }
        ensures jobs { AreJobs self.now }
        ensures catalog { IsCatalog self.now }
    {
        self.jobs().get(index)
    }

    /// The index of the job of these identities. Nothing is hashed, and no memory is allocated.
    pub fn find(&self, ids: &JobId) -> Option<usize>
        ensures some { IfSome result (StandsAt self.now ids.now) }
        ensures none { IfNone result ((i : ℕ) → ¬ (StandsAt self.now ids.now i)) }
        ensures catalog { IsCatalog self.now }
    {
        let jobs = self.jobs();
        for index in 0..jobs.len() {
            if is_catalog_job_with_ids(ids, &jobs[index]) {
                return Some(index);
            }
        }
        None
    }

    // The jobs, in the order in which they were admitted.
    fn jobs(&self) -> &[Job]
        ensures jobs { map entry_of result.now ≡ self.now }
        ensures catalog { IsCatalog self.now }
    {
        &self.jobs
    }
}
