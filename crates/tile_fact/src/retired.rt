//! Retired jobs, at the places of their identities in the bytes of a fact file.

ghost use Rattle.std.specs.List.{list_any};
ghost use Rattle.std.specs.Ordering.{eq_by_cmp};
ghost use Rattle.std.specs.Prelude.{◌≡◌, ◌*◌, ◌≤◌, None, length, take, drop, IfOk};
ghost use Rattle.identity.specs.Keys.{ids_cmp};
ghost use Rattle.tile_fact.specs.Gives.{Gives};
ghost use Rattle.tile_fact.specs.Listing.{IsListing};
ghost use Rattle.tile_fact.specs.Numbers.{pair_in, first_pairs};
ghost use Rattle.tile_fact.specs.Reading.{is_above, list_read, pair_read};

use crate::fault::FactFault;
use crate::record::decode_fact_file_digest_at_offset;
use identity::{InputId, JobId, ProgramId};
use std::alloc::{AllocError, Global};
use std::cmp::Ordering;

/// The identities of retired jobs, which rise, as bytes: `count` of them, one after the other, and perhaps other bytes after
/// them.
#[derive(Clone, Copy)]
pub struct EncodedRetiredJobs<'a> {
    pub count: u32,
    pub bytes: &'a [u8],
}

impl<'a> EncodedRetiredJobs<'a> {
    /// Whether the job is one of them. They rise, so each step of the search halves what is left.
    pub fn has_job(&self, job: &JobId) -> bool
        requires { IsListing self.now.count self.now.bytes.now }
        ensures { result ≡ list_any (eq_by_cmp ids_cmp job.now)
            (first_pairs self.now.count self.now.bytes.now) }
    {
        let mut rest = self.bytes;
        let mut count = self.count as usize;
        while count > 0 {
            let middle = count / 2;
            let (pair, behind) = decode_first_retired_job(skip_encoded_retired_jobs(rest, middle));
            match job.cmp(&pair) {
                Ordering::Less => count = middle,
                Ordering::Equal => return true,
                Ordering::Greater => {
                    rest = behind;
                    count -= middle + 1;
                }
            }
        }
        false
    }

    /// The jobs, in order.
    pub fn decode_jobs(&self, alloc: Global) -> Result<Vec<JobId>, AllocError>
        requires { IsListing self.now.count self.now.bytes.now }
        ensures { IfOk result (λ jobs. jobs.items ≡ first_pairs self.now.count self.now.bytes.now) }
    {
        let mut jobs = Vec::with_capacity(alloc, self.count as usize)?;
        let mut rest = self.bytes;
        for _ in 0..self.count {
            let (pair, behind) = decode_first_retired_job(rest);
            jobs.push(pair)?;
            rest = behind;
        }
        Ok(jobs)
    }
}

/// Finds the first fault of `count` identities, if there is one; otherwise the bytes after them.
pub fn check_and_skip_encoded_retired_jobs(
    total: usize,
    count: u32,
    bytes: &[u8],
) -> Result<&[u8], FactFault>
    requires { length bytes.now ≤ total }
    ensures read { Gives (λ behind. (first_pairs count bytes.now, behind.now)) result
        (list_read (pair_read total) count None bytes.now) }
    ensures listing { IfOk result (λ _. IsListing count bytes.now) }
    ensures behind { IfOk result (λ behind. length behind.now ≤ total) }
{
    let mut last: Option<JobId> = None;
    let mut rest = bytes;
    for _ in 0..count {
        if rest.len() < 64 {
            return Err(FactFault::Cut(total));
        }
        let (pair, behind) = decode_first_retired_job(rest);
        if !is_above_last_retired_job(&last, &pair) {
            return Err(FactFault::NotRising(total - rest.len()));
        }
        last = Some(pair);
        rest = behind;
    }
    Ok(rest)
}

// Whether identities are above the last ones before them, if there are any.
fn is_above_last_retired_job(last: &Option<JobId>, next: &JobId) -> bool
    ensures { result ≡ is_above ids_cmp last.now next.now }
{
    match last {
        None => true,
        Some(last) => last.cmp(next) == Ordering::Less,
    }
}

// The bytes after `count` identities.
fn skip_encoded_retired_jobs(bytes: &[u8], count: usize) -> &[u8]
    requires { count * 64 ≤ length bytes.now }
    ensures { result.now ≡ drop (64 * count) bytes.now }
{
    let (_front, behind) = bytes.split_at(64 * count);
    behind
}

// The identities in front of the bytes, and the bytes after them.
fn decode_first_retired_job(bytes: &[u8]) -> (JobId, &[u8])
    requires { 64 ≤ length bytes.now }
    ensures pair { result.0 ≡ pair_in (take 64 bytes.now) }
    ensures behind { result.1.now ≡ drop 64 bytes.now }
{
    let (front, behind) = bytes.split_at(64);
    let pair = JobId {
        program: ProgramId::new(decode_fact_file_digest_at_offset(front, 0)),
        input: InputId::new(decode_fact_file_digest_at_offset(front, 32)),
    };
    (pair, behind)
}
