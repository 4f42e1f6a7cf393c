//! The catalog of one job.

ghost use Rattle.std.specs.Prelude.{◌≡◌, [], ◌∷◌, IfOk};
ghost use Rattle.catalog.specs.Entries.{entry_of};

use catalog::{AdmitFault, Catalog};
use job::Job;
use std::alloc::{AllocError, Global};

/// The catalog that has this job alone.
pub fn make_catalog_of_input_job(alloc: Global, job: Job) -> Result<Catalog, AllocError>
    ensures { IfOk result (λ catalog. catalog ≡ entry_of job ∷ []) }
{
    let mut catalog = Catalog::new(alloc);
    match catalog.admit(job) {
        Ok(_) => Ok(catalog),
        Err((_, AdmitFault::Memory)) => Err(AllocError),
        Err((_, AdmitFault::Same(_) | AdmitFault::Clash(_) | AdmitFault::Full)) => unreachable!(),
    }
}
