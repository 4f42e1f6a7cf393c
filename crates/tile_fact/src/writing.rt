//! Facts as the bytes of a fact file.

ghost use Rattle.std.specs.Int.{w32, w64, to_be_bytes};
ghost use Rattle.std.specs.List.{flat_map, All};
ghost use Rattle.std.specs.Prelude.{◌≡◌, ◌<◌, ◌^◌, ◌++◌, false, length, OnOk, IfOk};
ghost use Rattle.tile_fact.specs.FactFile.{key_bytes, number_bytes, body_bytes, fact_record, ids_bytes, head_of, fact_file, is_retired};
ghost use Rattle.tile_fact.specs.Order.{Rises, IdsRise};

use crate::body::Body;
use crate::fact::Fact;
use identity::{JobId, Key};
use std::alloc::{AllocError, Global};

/// The file of these retired jobs and these facts, which is their only spelling: `PTF1` if no job is retired, else `PTF2`.
pub fn encode(alloc: Global, retired: &[JobId], facts: &[Fact]) -> Result<Vec<u8>, AllocError>
    requires ids_count { length retired.now < 2 ^ 32 }
    requires ids_rise { IdsRise retired.now }
    requires count { length facts.now < 2 ^ 32 }
    requires rise { Rises facts.now }
    requires apart { All (λ fact. is_retired retired.now fact ≡ false) facts.now }
    ensures { IfOk result (λ bytes. bytes.items ≡ fact_file retired.now facts.now) }
{
    let mut bytes = Vec::new(alloc);
    append_magic_and_retired_jobs(&mut bytes, retired)?;
    bytes.extend_from_slice(&(facts.len() as u32).to_be_bytes())?;
    for fact in facts {
        append_encoded_fact(&mut bytes, fact)?;
    }
    Ok(bytes)
}

// The magic, and the retired jobs if there are any.
fn append_magic_and_retired_jobs(bytes: &mut Vec<u8>, retired: &[JobId]) -> Result<(), AllocError>
    requires { length retired.now < 2 ^ 32 }
    ensures { OnOk result (bytes.new.items ≡ bytes.old.items ++ head_of retired.now) }
{
    if retired.is_empty() {
        bytes.extend_from_slice(b"PTF1")
    } else {
        bytes.extend_from_slice(b"PTF2")?;
        append_encoded_retired_jobs(bytes, retired)
    }
}

// How many jobs there are, and their identities.
fn append_encoded_retired_jobs(bytes: &mut Vec<u8>, jobs: &[JobId]) -> Result<(), AllocError>
    requires { length jobs.now < 2 ^ 32 }
    ensures { OnOk result (bytes.new.items
        ≡ bytes.old.items ++ (to_be_bytes w32 (length jobs.now) ++ flat_map ids_bytes jobs.now)) }
{
    bytes.extend_from_slice(&(jobs.len() as u32).to_be_bytes())?;
    for job in jobs {
        bytes.extend_from_slice(job.program.as_bytes())?;
        bytes.extend_from_slice(job.input.as_bytes())?;
    }
    Ok(())
}

fn append_encoded_fact(bytes: &mut Vec<u8>, fact: &Fact) -> Result<(), AllocError>
    ensures { OnOk result (bytes.new.items ≡ bytes.old.items ++ fact_record fact.now) }
{
    append_encoded_fact_key(bytes, fact.key())?;
    match fact.body() {
        Body::Tile(samples) => append_fact_body_of_samples(bytes, samples.as_slice()),
        Body::Partial(bins) => append_fact_body_of_bins(bytes, bins.as_slice()),
    }
}

fn append_encoded_fact_key(bytes: &mut Vec<u8>, key: &Key) -> Result<(), AllocError>
    ensures { OnOk result (bytes.new.items ≡ bytes.old.items ++ key_bytes key.now) }
{
    bytes.extend_from_slice(key.program.as_bytes())?;
    bytes.extend_from_slice(key.input.as_bytes())?;
    bytes.extend_from_slice(&key.stage.to_be_bytes())?;
    bytes.extend_from_slice(&key.row.to_be_bytes())?;
    bytes.extend_from_slice(&key.col.to_be_bytes())
}

// The body of a tile.
fn append_fact_body_of_samples(bytes: &mut Vec<u8>, samples: &[i32]) -> Result<(), AllocError>
    requires { length samples.now < 2 ^ 32 }
    ensures { OnOk result
        (bytes.new.items ≡ bytes.old.items ++ body_bytes (Body.Tile samples.now)) }
{
    bytes.push(0)?;
    bytes.extend_from_slice(&(samples.len() as u32).to_be_bytes())?;
    bytes.reserve(4 * samples.len())?;
    for sample in samples {
        bytes.extend_from_slice(&sample.to_be_bytes())?;
    }
    Ok(())
}

// The body of a partial.
fn append_fact_body_of_bins(bytes: &mut Vec<u8>, bins: &[i64]) -> Result<(), AllocError>
    requires { length bins.now < 2 ^ 32 }
    ensures { OnOk result
        (bytes.new.items ≡ bytes.old.items ++ body_bytes (Body.Partial bins.now)) }
{
    bytes.push(1)?;
    bytes.extend_from_slice(&(bins.len() as u32).to_be_bytes())?;
    bytes.reserve(8 * bins.len())?;
    for bin in bins {
        bytes.extend_from_slice(&bin.to_be_bytes())?;
    }
    Ok(())
}
