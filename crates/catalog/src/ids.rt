//! The two identities of a job.

ghost use Rattle.std.specs.Prelude.{◌≡◌, ◌↔◌, IsTrue};
ghost use Rattle.catalog.specs.Entries.{entry_of, ids_of};

use identity::JobId;
use job::Job;

/// The identities of a job. Where it does not keep that of its input (`Job::cache_input_id`), all samples of its picture are
/// hashed.
pub fn compute_catalog_job_ids(job: &Job) -> JobId
    ensures { result ≡ ids_of (entry_of job.now) }
{
    JobId {
        program: job.program_id(),
        input: job.input_id(),
    }
}

// Whether these are the identities of a job.
pub(crate) fn is_catalog_job_with_ids(ids: &JobId, job: &Job) -> bool
    ensures { IsTrue result ↔ ids_of (entry_of job.now) ≡ ids.now }
{
    let own = compute_catalog_job_ids(job);
    own.program.as_bytes() == ids.program.as_bytes() && own.input.as_bytes() == ids.input.as_bytes()
}
