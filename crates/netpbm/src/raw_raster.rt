//! Rasters with one byte or two per sample.
ghost use Rattle.std.specs.Prelude.{◌≡◌, ◌≤◌, ◌<◌, ◌-◌, ◌*◌, ◌/◌, length, take, drop, slice_range, All, Ok, Err, IfSome, IfNone, MatchResult, OnOk};
ghost use Rattle.std.specs.List.{flat_map};
ghost use Rattle.netpbm.specs.Raw.{width_of, two_bytes, raw_raster, pairs, decoded, first_big};
ghost use Rattle.netpbm.specs.Reading.{raw_read};

use crate::fault::PicFault;

/// How many bytes a sample has.
pub fn count_bytes_per_raw_sample(max: u16) -> usize
    ensures { result ≡ width_of max }
{
    if max < 256 { 1 } else { 2 }
}

/// Finds the fault of a raw raster of `count` samples that begins at `start`.
pub fn check_raw_raster(bytes: &[u8], start: usize, max: u16, count: usize) -> Result<(), PicFault>
    requires place { start ≤ length bytes.now }
    requires count { count ≤ 50331648 }
    ensures read { MatchResult result
        (λ _. raw_read bytes.now start max count ≡ Ok (decoded max (drop start bytes.now)))
        (λ e. raw_read bytes.now start max count ≡ Err e) }
    ensures whole { OnOk result (length (drop start bytes.now) ≡ count * width_of max) }
{
    let width = count_bytes_per_raw_sample(max);
    let raster = &bytes[start..];
    if let Some(place) = find_first_raw_sample_above(
        view_first_whole_samples_of_raster(raster, max, count),
        max,
    ) {
        return Err(PicFault::SampleTooBig(start + place * width));
    }
    if raster.len() / width < count {
        return Err(PicFault::RasterCut(bytes.len()));
    }
    if count * width < raster.len() {
        return Err(PicFault::TrailingBytes(start + count * width));
    }
    Ok(())
}

// The bytes of `count` samples, or of fewer if no more are whole.
fn view_first_whole_samples_of_raster(raster: &[u8], max: u16, count: usize) -> &[u8]
    ensures samples { decoded max result.now ≡ take count (decoded max raster.now) }
    ensures within { length result.now ≤ length raster.now }
{
    let width = count_bytes_per_raw_sample(max);
    let whole = count.min(raster.len() / width);
    &raster[..whole * width]
}

// The place of the first sample above `max`.
fn find_first_raw_sample_above(raster: &[u8], max: u16) -> Option<usize>
    ensures place { IfSome result (λ place. place ≡ first_big max (decoded max raster.now)) }
    ensures within { IfSome result (λ place. place < length (decoded max raster.now)) }
    ensures none { IfNone result
        (first_big max (decoded max raster.now) ≡ length (decoded max raster.now)) }
{
    if max < 256 {
        find_first_raster_byte_above(raster, max)
    } else {
        find_first_raster_pair_above(raster, max)
    }
}

// The place of the first byte above `max`.
fn find_first_raster_byte_above(raster: &[u8], max: u16) -> Option<usize>
    ensures place { IfSome result (λ place. place ≡ first_big max raster.now) }
    ensures within { IfSome result (λ place. place < length raster.now) }
    ensures none { IfNone result (first_big max raster.now ≡ length raster.now) }
{
    for i in 0..raster.len() {
        if u16::from(raster[i]) > max {
            return Some(i);
        }
    }
    None
}

// The place of the first pair of bytes above `max`.
fn find_first_raster_pair_above(raster: &[u8], max: u16) -> Option<usize>
    ensures place { IfSome result (λ place. place ≡ first_big max (pairs raster.now)) }
    ensures within { IfSome result (λ place. place < length (pairs raster.now)) }
    ensures none { IfNone result (first_big max (pairs raster.now) ≡ length (pairs raster.now)) }
{
    for i in 0..raster.len() / 2 {
        if 256 * u16::from(raster[2 * i]) + u16::from(raster[2 * i + 1]) > max {
            return Some(i);
        }
    }
    None
}

/// Puts the samples from one place up to another, as the bytes spell them, into the front of `out`.
pub fn decode_raw_samples_into_buffer(
    out: &mut [u16],
    raster: &[u8],
    max: u16,
    start: usize,
    end: usize,
)
    requires order { start ≤ end }
    requires within { end ≤ length (decoded max raster.now) }
    requires room { end - start ≤ length out.old }
    ensures { take (end - start) out.new ≡ slice_range (decoded max raster.now) start end }
{
    if max < 256 {
        decode_sample_bytes_into_buffer(out, &raster[start..end]);
    } else {
        decode_sample_byte_pairs_into_buffer(out, &raster[2 * start..2 * end]);
    }
}

// Puts the bytes as samples into the front of `out`.
#[tactic(auto, using(crate::proofs::Rasters::copied))]
fn decode_sample_bytes_into_buffer(out: &mut [u16], bytes: &[u8])
    requires { length bytes.now ≤ length out.old }
    ensures { take (length bytes.now) out.new ≡ bytes.now }
{
    for i in 0..bytes.len() {
        out[i] = u16::from(bytes[i]);
    }
}

// Puts the pairs of bytes, most significant first, as samples into the front of `out`.
#[tactic(auto, using(crate::proofs::Rasters::joined))]
fn decode_sample_byte_pairs_into_buffer(out: &mut [u16], bytes: &[u8])
    requires { length bytes.now ≤ 2 * length out.old }
    ensures { take (length bytes.now / 2) out.new ≡ pairs bytes.now }
{
    for i in 0..bytes.len() / 2 {
        out[i] = 256 * u16::from(bytes[2 * i]) + u16::from(bytes[2 * i + 1]);
    }
}

/// Puts the samples in one byte or two into the front of `out`, and returns how many bytes they are.
pub fn encode_raw_samples_into_buffer(out: &mut [u8], samples: &[u16], max: u16) -> usize
    requires room { width_of max * length samples.now ≤ length out.old }
    requires bounded { All (λ sample. sample ≤ max) samples.now }
    ensures end { result ≡ width_of max * length samples.now }
    ensures written { take result out.new ≡ raw_raster max samples.now }
{
    if max < 256 {
        encode_sample_bytes_into_buffer(out, samples);
        samples.len()
    } else {
        encode_sample_byte_pairs_into_buffer(out, samples);
        2 * samples.len()
    }
}

/// Puts samples that are below 256 each as bytes into the front of `out`.
#[tactic(auto, using(crate::proofs::Rasters::copied))]
pub fn encode_sample_bytes_into_buffer(out: &mut [u8], samples: &[u16])
    requires room { length samples.now ≤ length out.old }
    requires small { All (λ sample. sample < 256) samples.now }
    ensures { take (length samples.now) out.new ≡ samples.now }
{
    for i in 0..samples.len() {
        out[i] = samples[i] as u8;
    }
}

#[tactic(auto, using(crate::proofs::Rasters::spread))]
fn encode_sample_byte_pairs_into_buffer(out: &mut [u8], samples: &[u16])
    requires { 2 * length samples.now ≤ length out.old }
    ensures { take (2 * length samples.now) out.new ≡ flat_map two_bytes samples.now }
{
    for i in 0..samples.len() {
        out[2 * i] = (samples[i] / 256) as u8;
        out[2 * i + 1] = (samples[i] % 256) as u8;
    }
}
