//! Samples in bytes or in numbers of 16 bits.
ghost use Rattle.std.specs.Prelude.{ℕ, ◌≡◌, ◌≤◌, ◌<◌, ◌++◌, ◌↔◌, [], All, take, length, IsTrue, IfOk, OnOk};
ghost use Rattle.plane_samples.specs.Samples.{IsSamples};
ghost use Rattle.netpbm.specs.Widths.{list_of, Holds};

use crate::picture::are_samples_at_most_picture_max;
use crate::raw_raster::encode_sample_bytes_into_buffer;
use plane_samples::{PlaneSamples, SpacedBytes};
use std::alloc::{AllocError, Global};

// How many samples are converted to bytes at a time.
const PIECE: usize = 512;

/// The samples of a plane that grows.
#[derive(Debug, Drop)]
pub enum PackedSamples {
    Bytes(Vec<u8>),
    Words(Vec<u16>),
}

/// None yet, with capacity for `count`, none of them above `max`.
pub fn new_packed_samples(
    alloc: Global,
    max: u16,
    count: usize,
) -> Result<PackedSamples, AllocError>
    ensures none { IfOk result (λ samples. list_of samples ≡ []) }
    ensures holds { IfOk result (λ samples. Holds max samples) }
{
    if max < 256 {
        Ok(PackedSamples::Bytes(Vec::with_capacity(alloc, count)?))
    } else {
        Ok(PackedSamples::Words(Vec::with_capacity(alloc, count)?))
    }
}

/// Adds samples, or some of the first of them if memory runs out.
pub fn append_packed_samples(
    made: &mut PackedSamples,
    max: u16,
    samples: &[u16],
) -> Result<(), AllocError>
    requires holds { Holds max made.old }
    requires bounded { All (λ sample. sample ≤ max) samples.now }
    ensures holds { Holds max made.new }
    ensures all { OnOk result (list_of made.new ≡ list_of made.old ++ samples.now) }
    ensures some { (n : ℕ) × (list_of made.new ≡ list_of made.old ++ take n samples.now) }
{
    match made {
        PackedSamples::Bytes(bytes) => append_packed_samples_to_byte_list(bytes, samples),
        PackedSamples::Words(words) => append_packed_samples_to_u16_list(words, samples),
    }
}

fn append_packed_samples_to_u16_list(
    words: &mut Vec<u16>,
    samples: &[u16],
) -> Result<(), AllocError>
    ensures all { OnOk result (words.new.items ≡ words.old.items ++ samples.now) }
    ensures some { (n : ℕ) × (words.new.items ≡ words.old.items ++ take n samples.now) }
{
    words.extend_from_slice(samples)
}

// Adds samples that are below 256 each, piece by piece.
fn append_packed_samples_to_byte_list(
    bytes: &mut Vec<u8>,
    samples: &[u16],
) -> Result<(), AllocError>
    requires { All (λ sample. sample < 256) samples.now }
    ensures all { OnOk result (bytes.new.items ≡ bytes.old.items ++ samples.now) }
    ensures some { (n : ℕ) × (bytes.new.items ≡ bytes.old.items ++ take n samples.now) }
{
    let mut piece = [0u8; PIECE];
    let mut done = 0;
    while done < samples.len() {
        let end = samples.len().min(done + PIECE);
        encode_sample_bytes_into_buffer(&mut piece, &samples[done..end]);
        bytes.extend_from_slice(&piece[..end - done])?;
        done = end;
    }
    Ok(())
}

/// The samples as they lie in memory.
pub fn view_packed_samples(made: &PackedSamples) -> PlaneSamples<'_>
    ensures { IsSamples result (list_of made.now) }
{
    match made {
        PackedSamples::Bytes(bytes) => PlaneSamples::Bytes(SpacedBytes {
            bytes: bytes.as_slice(),
            step: 1,
            count: bytes.len(),
        }),
        PackedSamples::Words(words) => PlaneSamples::Words(words.as_slice()),
    }
}

/// How many there are.
pub fn count_packed_samples(made: &PackedSamples) -> usize
    ensures { result ≡ length (list_of made.now) }
{
    match made {
        PackedSamples::Bytes(bytes) => bytes.len(),
        PackedSamples::Words(words) => words.len(),
    }
}

/// Whether none is above `max`.
pub fn has_bounded_packed_samples(made: &PackedSamples, max: u16) -> bool
    ensures { IsTrue result ↔ All (λ sample. sample ≤ max) (list_of made.now) }
{
    match made {
        PackedSamples::Bytes(bytes) => has_bounded_sample_bytes(bytes.as_slice(), max),
        PackedSamples::Words(words) => are_samples_at_most_picture_max(max, words.as_slice()),
    }
}

// Whether no byte is above `max`.
fn has_bounded_sample_bytes(bytes: &[u8], max: u16) -> bool
    ensures { IsTrue result ↔ All (λ byte. byte ≤ max) bytes.now }
{
    bytes.iter().all(|byte| u16::from(*byte) <= max)
}
