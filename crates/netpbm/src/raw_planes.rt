//! Raw rasters, decoded piece by piece into their planes.
ghost use Rattle.std.specs.Prelude.{◌≡◌, ◌≤◌, ◌-◌, ◌*◌, ◌⊎◌, ◌↔◌, length, take, slice_range, All, IsTrue, IfSome};
ghost use Rattle.netpbm.specs.Colours.{separated};
ghost use Rattle.netpbm.specs.Planes.{samples_of};
ghost use Rattle.netpbm.specs.Raw.{width_of, decoded};

use crate::colours::{ColourPlanes, PIECE};
use crate::picture::are_samples_at_most_picture_max;
use crate::raw_bounds::is_greatest_possible_raw_sample;
use crate::raw_raster::decode_raw_samples_into_buffer;
use std::alloc::Global;

/// The planes of a raw raster of `area` pixels; none if a sample is above `max` or memory runs out.
pub fn decode_raw_planes_if_bounded(
    alloc: Global,
    raster: &[u8],
    max: u16,
    colours: usize,
    area: usize,
) -> Option<Vec<Vec<u16>>>
    requires colours { (colours ≡ 1) ⊎ (colours ≡ 3) }
    requires whole { length (decoded max raster.now) ≡ colours * area }
    ensures planes { IfSome result
        (λ planes. samples_of planes.items ≡ separated colours (decoded max raster.now)) }
    ensures bounded { IfSome result
        (λ _. All (λ sample. sample ≤ max) (decoded max raster.now)) }
{
    if colours == 1 {
        decode_grey_raster_to_plane_list(alloc, raster, max, area)
    } else {
        decode_colour_raster_to_plane_list(alloc, raster, max, area)
    }
}

// The one plane of a raster of grey samples.
fn decode_grey_raster_to_plane_list(
    alloc: Global,
    raster: &[u8],
    max: u16,
    area: usize,
) -> Option<Vec<Vec<u16>>>
    requires { length (decoded max raster.now) ≡ area }
    ensures planes { IfSome result
        (λ planes. samples_of planes.items ≡ separated 1 (decoded max raster.now)) }
    ensures bounded { IfSome result
        (λ _. All (λ sample. sample ≤ max) (decoded max raster.now)) }
{
    let grey = decode_grey_raster_to_u16_list(alloc, raster, max, area)?;
    let mut planes = Vec::with_capacity(alloc, 1).ok()?;
    planes.push(grey).ok()?;
    Some(planes)
}

fn decode_grey_raster_to_u16_list(
    alloc: Global,
    raster: &[u8],
    max: u16,
    area: usize,
) -> Option<Vec<u16>>
    requires { length (decoded max raster.now) ≡ area }
    ensures samples { IfSome result (λ samples. samples.items ≡ decoded max raster.now) }
    ensures bounded { IfSome result
        (λ _. All (λ sample. sample ≤ max) (decoded max raster.now)) }
{
    let mut grey = Vec::with_capacity(alloc, area).ok()?;
    let mut piece = [0u16; PIECE];
    let mut done = 0;
    while done < area {
        let end = area.min(done + PIECE);
        if !decode_raw_into_buffer_and_test_bound(&mut piece, raster, max, done, end) {
            return None;
        }
        grey.extend_from_slice(&piece[..end - done]).ok()?;
        done = end;
    }
    Some(grey)
}

// The red, the green and the blue plane of a raster of interleaved samples.
#[tactic(auto, using(crate::proofs::RawReads::decoded_short))]
fn decode_colour_raster_to_plane_list(
    alloc: Global,
    raster: &[u8],
    max: u16,
    area: usize,
) -> Option<Vec<Vec<u16>>>
    requires { length (decoded max raster.now) ≡ 3 * area }
    ensures planes { IfSome result
        (λ planes. samples_of planes.items ≡ separated 3 (decoded max raster.now)) }
    ensures bounded { IfSome result
        (λ _. All (λ sample. sample ≤ max) (decoded max raster.now)) }
{
    let mut apart = ColourPlanes::with_capacity(alloc, area).ok()?;
    let mut piece = [0u16; 3 * PIECE];
    let mut done = 0;
    while done < area {
        let end = area.min(done + PIECE);
        if !decode_raw_into_buffer_and_test_bound(&mut piece, raster, max, 3 * done, 3 * end) {
            return None;
        }
        apart.append_interleaved(&piece[..3 * (end - done)]).ok()?;
        done = end;
    }
    apart.into_planes(alloc).ok()
}

// Decodes the samples from one place up to another, and returns whether none is above `max`.
fn decode_raw_into_buffer_and_test_bound(
    out: &mut [u16],
    raster: &[u8],
    max: u16,
    start: usize,
    end: usize,
) -> bool
    requires order { start ≤ end }
    requires within { end ≤ length (decoded max raster.now) }
    requires room { end - start ≤ length out.old }
    ensures written { take (end - start) out.new
        ≡ slice_range (decoded max raster.now) start end }
    ensures bounded { IsTrue result
        ↔ All (λ sample. sample ≤ max) (slice_range (decoded max raster.now) start end) }
{
    decode_raw_samples_into_buffer(out, raster, max, start, end);
    if is_greatest_possible_raw_sample(max) {
        return true;
    }
    are_samples_at_most_picture_max(max, &out[..end - start])
}
