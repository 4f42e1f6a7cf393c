//! What precedes the records of a fact file.

ghost use Rattle.std.specs.Prelude.{◌≡◌, ◌≤◌, length, codes, IfOk};
ghost use Rattle.tile_fact.specs.Gives.{Gives};
ghost use Rattle.tile_fact.specs.Listing.{IsListing};
ghost use Rattle.tile_fact.specs.Numbers.{first_pairs};
ghost use Rattle.tile_fact.specs.Reading.{magic_read, version_read, retired_read, head_read};

use crate::fault::FactFault;
use crate::record::read_fact_file_u32;
use crate::retired::{EncodedRetiredJobs, check_and_skip_encoded_retired_jobs};
use crate::version::FactFileVersion;

// What the magics of both versions begin with.
const MAGIC_FRONT: [u8; 3] = *b"PTF";

/// The retired jobs, how many records there are, and the bytes after their count.
#[derive(Clone, Copy)]
pub struct FactFileHead<'a> {
    pub retired: EncodedRetiredJobs<'a>,
    pub count: u32,
    pub records: &'a [u8],
}

/// The head of the file that the bytes are.
#[tactic(auto, unfolding(crate::specs::Reading::head_read))]
pub fn read_fact_file_up_to_records(bytes: &[u8]) -> Result<FactFileHead<'_>, FactFault>
    ensures read { Gives (λ head. (first_pairs head.retired.count head.retired.bytes.now, head.count, head.records.now))
        result (head_read bytes.now) }
    ensures listing { IfOk result (λ head. IsListing head.retired.count head.retired.bytes.now) }
    ensures behind { IfOk result (λ head. length head.records.now ≤ length bytes.now) }
{
    let front = check_and_skip_fact_file_magic(bytes)?;
    let (version, rest) = read_fact_file_version(front)?;
    let (retired, rest) = read_retired_jobs_of_fact_file(bytes.len(), version, rest)?;
    let (count, records) = read_fact_file_u32(bytes.len(), rest)?;
    Ok(FactFileHead {
        retired,
        count,
        records,
    })
}

// The bytes after what both magics begin with.
#[tactic(auto, unfolding(crate::specs::Reading::magic_read))]
fn check_and_skip_fact_file_magic(bytes: &[u8]) -> Result<&[u8], FactFault>
    ensures read { Gives (λ x. x.now) result (magic_read 0 (codes "PTF") bytes.now) }
    ensures behind { IfOk result (λ x. length x.now ≤ length bytes.now) }
{
    for at in 0..MAGIC_FRONT.len() {
        if at == bytes.len() {
            return Err(FactFault::Cut(at));
        }
        if bytes[at] != MAGIC_FRONT[at] {
            return Err(FactFault::BadMagic(at));
        }
    }
    Ok(&bytes[MAGIC_FRONT.len()..])
}

// The version that the magic's last byte specifies, and the bytes after it.
#[tactic(auto, unfolding(crate::specs::Reading::version_read))]
fn read_fact_file_version(bytes: &[u8]) -> Result<(FactFileVersion, &[u8]), FactFault>
    ensures read { Gives (λ x. (x.0, x.1.now)) result (version_read bytes.now) }
    ensures behind { IfOk result (λ x. length x.1.now ≤ length bytes.now) }
{
    match bytes {
        [] => Err(FactFault::Cut(3)),
        [b'1', rest @ ..] => Ok((FactFileVersion::OfFacts, rest)),
        [b'2', rest @ ..] => Ok((FactFileVersion::OfBoth, rest)),
        [_, ..] => Err(FactFault::BadMagic(3)),
    }
}

// The retired jobs that a file of this version has, and the bytes after them.
#[tactic(auto, unfolding(crate::specs::Reading::retired_read))]
fn read_retired_jobs_of_fact_file(
    total: usize,
    version: FactFileVersion,
    bytes: &[u8],
) -> Result<(EncodedRetiredJobs<'_>, &[u8]), FactFault>
    requires { length bytes.now ≤ total }
    ensures read { Gives (λ x. (first_pairs x.0.count x.0.bytes.now, x.1.now)) result
        (retired_read total version bytes.now) }
    ensures listing { IfOk result (λ x. IsListing x.0.count x.0.bytes.now) }
    ensures behind { IfOk result (λ x. length x.1.now ≤ total) }
{
    match version {
        FactFileVersion::OfFacts => Ok((EncodedRetiredJobs { count: 0, bytes }, bytes)),
        FactFileVersion::OfBoth => {
            let (count, listed) = read_fact_file_u32(total, bytes)?;
            if count == 0 {
                return Err(FactFault::NothingRetired(4));
            }
            let behind = check_and_skip_encoded_retired_jobs(total, count, listed)?;
            let retired = EncodedRetiredJobs {
                count,
                bytes: listed,
            };
            Ok((retired, behind))
        }
    }
}
