//! Rasters in digits.
ghost use Rattle.std.specs.Prelude.{◌≡◌, ◌≤◌, ℕ, List, [], length, vec_capacity, Ok, Err, IfOk, IfErr, OnOk};
ghost use Rattle.netpbm.specs.Gives.{Gives, Checks};
ghost use Rattle.netpbm.specs.Reading.{sample_read, end_read, plain_read};

use crate::fault::PicFault;
use crate::text::{read_netpbm_digits, report_missing_netpbm_number, skip_netpbm_space};
use std::alloc::Global;

/// Reads a plain raster of `count` samples that begins at `start`.
pub fn read_plain_raster(
    alloc: Global,
    bytes: &[u8],
    start: usize,
    max: u16,
    count: usize,
) -> Result<Vec<u16>, PicFault>
    requires { start ≤ length bytes.now }
    ensures { Gives (λ samples. samples.items) result (plain_read bytes.now start max count) }
{
    match Vec::with_capacity(alloc, count) {
        Ok(room) => read_plain_raster_into_buffer(room, bytes, start, max, count),
        Err(_) => {
            check_plain_raster(bytes, start, max, count)?;
            Err(PicFault::Memory)
        }
    }
}

// The samples, in the buffer that was allocated for them.
fn read_plain_raster_into_buffer(
    room: Vec<u16>,
    bytes: &[u8],
    start: usize,
    max: u16,
    count: usize,
) -> Result<Vec<u16>, PicFault>
    requires place { start ≤ length bytes.now }
    requires empty { room.items ≡ [] }
    requires enough { count ≤ vec_capacity room }
    ensures { Gives (λ samples. samples.items) result (plain_read bytes.now start max count) }
{
    let mut samples = room;
    let mut at = start;
    for _ in 0..count {
        let (sample, end) = read_plain_raster_sample(bytes, at, max)?;
        samples.push_reserved(sample);
        at = end;
    }
    check_plain_raster_end(bytes, at)?;
    Ok(samples)
}

// Finds the fault of a plain raster, without memory.
fn check_plain_raster(bytes: &[u8], start: usize, max: u16, count: usize) -> Result<(), PicFault>
    requires { start ≤ length bytes.now }
    ensures { Checks result (plain_read bytes.now start max count) }
{
    let mut at = start;
    for _ in 0..count {
        let (_, end) = read_plain_raster_sample(bytes, at, max)?;
        at = end;
    }
    check_plain_raster_end(bytes, at)
}

// White space, the sample after it, and where its digits end.
#[tactic(auto, unfolding(crate::specs::Reading::sample_read))]
fn read_plain_raster_sample(bytes: &[u8], at: usize, max: u16) -> Result<(u16, usize), PicFault>
    requires { at ≤ length bytes.now }
    ensures read { result ≡ sample_read bytes.now at max }
    ensures within { IfOk result (λ s. s.1 ≤ length bytes.now) }
{
    let start = skip_netpbm_space(bytes, at);
    let (value, end) = read_netpbm_digits(bytes, start);
    if end == start {
        return Err(report_missing_netpbm_number(bytes, start, PicFault::RasterCut(start)));
    }
    if value > u32::from(max) {
        return Err(PicFault::SampleTooBig(start));
    }
    Ok((value as u16, end))
}

// Only white space may follow the last sample.
#[tactic(auto, unfolding(crate::specs::Reading::end_read))]
fn check_plain_raster_end(bytes: &[u8], at: usize) -> Result<(), PicFault>
    requires { at ≤ length bytes.now }
    ensures ok { OnOk result ((samples : List ℕ) → end_read bytes.now at samples ≡ Ok samples) }
    ensures err { IfErr result (λ e. (samples : List ℕ) → end_read bytes.now at samples ≡ Err e) }
{
    let end = skip_netpbm_space(bytes, at);
    if end < bytes.len() {
        return Err(PicFault::TrailingBytes(end));
    }
    Ok(())
}
