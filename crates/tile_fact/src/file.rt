//! Fact files.

ghost use Rattle.std.specs.Prelude.{◌≡◌, ◌≤◌, List, length, Ok, IfOk, IfErr};
ghost use Rattle.std.specs.Option.{option_map};
ghost use Rattle.identity.specs.declared.job_ids.JobId.{JobId};
ghost use Rattle.tile_fact.specs.FactFile.{IsFactFile};
ghost use Rattle.tile_fact.specs.Faults.{IsFault};
ghost use Rattle.tile_fact.specs.Numbers.{fact_of, first_pairs};
ghost use Rattle.tile_fact.specs.Gives.{GivesInMemory, Checks, IsRead, IsReadAs};
ghost use Rattle.tile_fact.specs.Listing.{IsListing};
ghost use Rattle.tile_fact.specs.Order.{fact_cmp};
ghost use Rattle.tile_fact.specs.declared.fault.FactFault.TheVariants.{Memory};
ghost use Rattle.tile_fact.specs.Reading.{is_above, body_read, file_read};

use crate::fact::Fact;
use crate::fault::FactFault;
use crate::head::read_fact_file_up_to_records;
use crate::record::{FactRecord, read_fact_record};
use crate::retired::EncodedRetiredJobs;
use identity::JobId;
use sequences::Sequence;
use std::alloc::{AllocError, Global};
use std::cmp::Ordering;

/// Facts in order.
pub type Facts = Sequence<Fact>;

/// Identities of jobs in order.
pub type JobIds = Sequence<JobId>;

/// What a fact file holds: the identities of retired jobs and facts of other jobs. Both rise strictly.
#[derive(Debug, Drop)]
pub struct FactFile {
    pub retired: JobIds,
    pub facts: Facts,
}

/// The retired jobs and the facts whose file the bytes are, or the first fault of the bytes from the left. A fault is found
/// without allocating memory.
pub fn decode(alloc: Global, bytes: &[u8]) -> Result<FactFile, FactFault>
    // The bytes are the file of what is read.
    ensures found { IfOk result (λ file. IsFactFile bytes.now file.retired file.facts) }

    // The file of some jobs and facts is read as these alone, unless memory runs out.
    ensures only { (retired : List JobId) (facts : List Fact) → IsFactFile bytes.now retired facts
        → IsReadAs (λ file. (file.retired ≡ retired) × (file.facts ≡ facts)) result }

    // A fault is the first one of the bytes, at its place; memory is refused only for a fact file.
    ensures fault { IfErr result (IsFault bytes.now) }
{
    let (retired, facts) = read_retired_jobs_and_facts(alloc, bytes)?;
    Ok(FactFile {
        retired: JobIds::new(retired),
        facts: Facts::new(facts),
    })
}

// What is read from the left, or the fault.
#[tactic(auto, unfolding(crate::specs::Reading::file_read))]
fn read_retired_jobs_and_facts(
    alloc: Global,
    bytes: &[u8],
) -> Result<(Vec<JobId>, Vec<Fact>), FactFault>
    ensures { GivesInMemory (λ x. (x.0.items, x.1.items)) result (file_read bytes.now) }
{
    let total = bytes.len();
    let head = read_fact_file_up_to_records(bytes)?;
    check_fact_records(total, &head.retired, head.count, head.records)?;
    let retired = head.retired.decode_jobs(alloc)?;
    let facts = decode_facts_of_checked_records(
        alloc,
        total,
        &head.retired,
        head.count,
        head.records,
    )?;
    Ok((retired, facts))
}

// Finds the first fault of the records, if there is one.
fn check_fact_records(
    total: usize,
    retired: &EncodedRetiredJobs<'_>,
    count: u32,
    bytes: &[u8],
) -> Result<(), FactFault>
    requires within { length bytes.now ≤ total }
    requires listing { IsListing retired.now.count retired.now.bytes.now }
    ensures { Checks result (body_read total (first_pairs retired.now.count retired.now.bytes.now)
        count bytes.now) }
{
    let mut last: Option<FactRecord> = None;
    let mut rest = bytes;
    for _ in 0..count {
        // No proof is found for a `?` on a key beside a reference.
        let (record, behind) = match read_fact_record(total, rest) {
            Ok(read) => read,
            Err(fault) => return Err(fault),
        };
        if !is_above_last_fact_record(&last, &record) {
            return Err(FactFault::NotRising(total - rest.len()));
        }
        if retired.has_job(&JobId::from_key(&record.label.key)) {
            return Err(FactFault::RetiredFact(total - rest.len()));
        }
        last = Some(record);
        rest = behind;
    }
    if !rest.is_empty() {
        return Err(FactFault::TrailingBytes(total - rest.len()));
    }
    Ok(())
}

// Whether a record is above the last one before it, if there is one.
fn is_above_last_fact_record(last: &Option<FactRecord<'_>>, next: &FactRecord<'_>) -> bool
    ensures { result
        ≡ is_above fact_cmp (option_map (λ r. fact_of r.label.key r.label.kind r.numbers.now) last.now)
        (fact_of next.now.label.key next.now.label.kind next.now.numbers.now) }
{
    match last {
        None => true,
        Some(last) => last.compare(next) == Ordering::Less,
    }
}

// The facts of records in which there is no fault.
fn decode_facts_of_checked_records(
    alloc: Global,
    total: usize,
    retired: &EncodedRetiredJobs<'_>,
    count: u32,
    bytes: &[u8],
) -> Result<Vec<Fact>, FactFault>
    requires within { length bytes.now ≤ total }
    requires faultless { IsRead (body_read total (first_pairs retired.now.count retired.now.bytes.now)
        count bytes.now) }
    ensures facts { IfOk result (λ facts.
        body_read total (first_pairs retired.now.count retired.now.bytes.now) count bytes.now ≡ Ok facts.items) }
    ensures memory { IfErr result (λ e. e ≡ Memory) }
{
    let mut facts = Vec::with_capacity(alloc, count as usize)?;
    let mut rest = bytes;
    for _ in 0..count {
        // No proof is found for a `?` on a key beside a reference.
        let (record, behind) = match read_fact_record(total, rest) {
            Ok(read) => read,
            Err(fault) => return Err(fault),
        };
        let fact = record.to_fact(alloc)?;
        facts.push(fact).map_err(AllocError::from)?;
        rest = behind;
    }
    Ok(facts)
}
