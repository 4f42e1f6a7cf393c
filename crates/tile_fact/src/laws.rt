//! Consequences of the definitions, proved once for the crates above. A law is a function whose clauses are the law.

ghost use Rattle.std.specs.Cmp.{IsTotalOrder};
ghost use Rattle.std.specs.Int.{w32, w64};
ghost use Rattle.std.specs.Int.RustNames.{FitsSigned};
ghost use Rattle.std.specs.List.{All};
ghost use Rattle.std.specs.Prelude.{◌≡◌, ◌↔◌, ◌<◌, ◌^◌, ℕ, List};
ghost use Rattle.identity.specs.declared.job_ids.JobId.{JobId};
ghost use Rattle.tile_fact.specs.FactFile.{AreBytes, AreContents, IsDigest, IsFact, IsFactFile, IsIds, IsKey, fact_file};
ghost use Rattle.tile_fact.specs.Order.{fact_cmp};

use crate::body::Body;
use crate::fact::Fact;
use identity::{JobId, Key};
use std::cmp::Ordering;

/// Facts are in the order of key, kind and numbers, which is a total one, and equal facts are one.
#[tactic(auto, unfolding(crate::specs::Order::fact_cmp))]
pub fn compare_facts(a: &Fact, b: &Fact) -> Ordering
    ensures parts { result ≡ fact_cmp a.now b.now }
    ensures total { IsTotalOrder fact_cmp }
    ensures one { (result ≡ Ordering.Equal) ↔ (a.now ≡ b.now) }
{
    a.cmp(b)
}

/// Bytes are the file of at most one list of retired jobs and one list of facts.
pub fn fact_file_bytes_have_one_content()
    ensures { (bytes : List ℕ) (jobs others : List JobId) (facts other_facts : List Fact)
        → IsFactFile bytes jobs facts → IsFactFile bytes others other_facts
        → (jobs ≡ others) × (facts ≡ other_facts) }
{}

/// Rising retired jobs and rising facts of other jobs have exactly one file, and no other jobs or facts have that file.
pub fn contents_have_one_fact_file()
    ensures spelled { (jobs : List JobId) (facts : List Fact) → AreContents jobs facts
        → IsFactFile (fact_file jobs facts) jobs facts }
    ensures alone { (a b : List ℕ) (jobs : List JobId) (facts : List Fact) → IsFactFile a jobs facts
        → IsFactFile b jobs facts → a ≡ b }
    ensures apart { (jobs others : List JobId) (facts other_facts : List Fact)
        → AreContents jobs facts → AreContents others other_facts
        → fact_file jobs facts ≡ fact_file others other_facts
        → (jobs ≡ others) × (facts ≡ other_facts) }
{}

/// Each fact can be written to a file: what it consists of fits its fields, and it has no more numbers than a fact may have. It
/// is a law for proofs: the call looks at each number and changes nothing.
pub fn facts_fit_their_records(fact: &Fact)
    ensures { IsFact fact.now }
{
    fact_keys_fit_their_fields(fact.key());
    match fact.body() {
        Body::Tile(samples) => fact_samples_fit_32_bits(samples.as_slice()),
        Body::Partial(bins) => fact_bins_fit_64_bits(bins.as_slice()),
    }
}

/// The identities of each job can be written to a file: they are digests. It is a law for proofs.
pub fn job_ids_fit_their_fact_file_fields(ids: &JobId)
    ensures { IsIds ids.now }
{
    arrays_are_fact_file_digests(ids.program.as_bytes());
    arrays_are_fact_file_digests(ids.input.as_bytes());
}

fn fact_keys_fit_their_fields(key: &Key)
    ensures { IsKey key.now }
{
    arrays_are_fact_file_digests(key.program.as_bytes());
    arrays_are_fact_file_digests(key.input.as_bytes());
    fact_key_numbers_fit_their_fields(key.stage, key.row, key.col);
}

fn arrays_are_fact_file_digests(bytes: &[u8; 32])
    ensures { IsDigest bytes.now }
{
    slices_are_fact_file_bytes(bytes);
}

fn slices_are_fact_file_bytes(bytes: &[u8])
    ensures { AreBytes bytes.now }
{}

fn fact_key_numbers_fit_their_fields(stage: u16, row: u32, col: u32)
    ensures stage { stage < 2 ^ 16 }
    ensures row { row < 2 ^ 32 }
    ensures col { col < 2 ^ 32 }
{}

fn fact_samples_fit_32_bits(samples: &[i32])
    ensures { All (FitsSigned w32) samples.now }
{
    for sample in samples {
        let _sample = *sample;
    }
}

fn fact_bins_fit_64_bits(bins: &[i64])
    ensures { All (FitsSigned w64) bins.now }
{
    for bin in bins {
        let _bin = *bin;
    }
}
