//! Numbers of a record from their bytes, the most significant byte first and in two's complement.

ghost use Rattle.std.specs.Cmp.Lexicographic.{slice_cmp};
ghost use Rattle.std.specs.Int.{w32, w64};
ghost use Rattle.std.specs.Ordering.{int_cmp};
ghost use Rattle.std.specs.Prelude.{◌≡◌, ◌≤◌, length, drop, IfOk};
ghost use Rattle.tile_fact.specs.Numbers.{number_in, numbers_in};

use std::alloc::{AllocError, Global};
use std::cmp::Ordering;

// The sample in front, and the bytes after it.
fn decode_first_fact_sample(bytes: &[u8]) -> (i32, &[u8])
    requires { 4 ≤ length bytes.now }
    ensures sample { result.0 ≡ number_in w32 bytes.now }
    ensures behind { result.1.now ≡ drop 4 bytes.now }
{
    let (front, behind) = bytes.split_at(4);
    let sample = i32::from_be_bytes([front[0], front[1], front[2], front[3]]);
    (sample, behind)
}

/// The samples that the bytes are.
pub fn decode_fact_samples(alloc: Global, bytes: &[u8]) -> Result<Vec<i32>, AllocError>
    ensures { IfOk result (λ samples. samples.items ≡ numbers_in w32 bytes.now) }
{
    let mut samples = Vec::with_capacity(alloc, bytes.len() / 4)?;
    let mut rest = bytes;
    while rest.len() >= 4 {
        let (sample, behind) = decode_first_fact_sample(rest);
        samples.push(sample)?;
        rest = behind;
    }
    Ok(samples)
}

/// The order of the samples that the bytes are.
pub fn compare_encoded_fact_samples(a: &[u8], b: &[u8]) -> Ordering
    ensures { result ≡ slice_cmp int_cmp (numbers_in w32 a.now) (numbers_in w32 b.now) }
{
    let mut a_rest = a;
    let mut b_rest = b;
    while a_rest.len() >= 4 && b_rest.len() >= 4 {
        let (x, a_behind) = decode_first_fact_sample(a_rest);
        let (y, b_behind) = decode_first_fact_sample(b_rest);
        let order = x.cmp(&y);
        if order != Ordering::Equal {
            return order;
        }
        a_rest = a_behind;
        b_rest = b_behind;
    }
    if a_rest.len() >= 4 {
        Ordering::Greater
    } else if b_rest.len() >= 4 {
        Ordering::Less
    } else {
        Ordering::Equal
    }
}

// The bin in front, and the bytes after it.
fn decode_first_fact_bin(bytes: &[u8]) -> (i64, &[u8])
    requires { 8 ≤ length bytes.now }
    ensures bin { result.0 ≡ number_in w64 bytes.now }
    ensures behind { result.1.now ≡ drop 8 bytes.now }
{
    let (front, behind) = bytes.split_at(8);
    let bin = i64::from_be_bytes([
        front[0], front[1], front[2], front[3], front[4], front[5], front[6], front[7],
    ]);
    (bin, behind)
}

/// The bins that the bytes are.
pub fn decode_fact_bins(alloc: Global, bytes: &[u8]) -> Result<Vec<i64>, AllocError>
    ensures { IfOk result (λ bins. bins.items ≡ numbers_in w64 bytes.now) }
{
    let mut bins = Vec::with_capacity(alloc, bytes.len() / 8)?;
    let mut rest = bytes;
    while rest.len() >= 8 {
        let (bin, behind) = decode_first_fact_bin(rest);
        bins.push(bin)?;
        rest = behind;
    }
    Ok(bins)
}

/// The order of the bins that the bytes are.
pub fn compare_encoded_fact_bins(a: &[u8], b: &[u8]) -> Ordering
    ensures { result ≡ slice_cmp int_cmp (numbers_in w64 a.now) (numbers_in w64 b.now) }
{
    let mut a_rest = a;
    let mut b_rest = b;
    while a_rest.len() >= 8 && b_rest.len() >= 8 {
        let (x, a_behind) = decode_first_fact_bin(a_rest);
        let (y, b_behind) = decode_first_fact_bin(b_rest);
        let order = x.cmp(&y);
        if order != Ordering::Equal {
            return order;
        }
        a_rest = a_behind;
        b_rest = b_behind;
    }
    if a_rest.len() >= 8 {
        Ordering::Greater
    } else if b_rest.len() >= 8 {
        Ordering::Less
    } else {
        Ordering::Equal
    }
}
