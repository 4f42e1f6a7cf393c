//! How a picture keeps its samples.
ghost use Rattle.std.specs.Prelude.{ℕ, ◌≡◌, ◌≤◌, ◌<◌, ◌+◌, ◌*◌, ◌⊎◌, length, slice_index_or, []};
ghost use Rattle.netpbm.specs.Colours.{interleaved, separated};
ghost use Rattle.netpbm.specs.Raw.{width_of, decoded, pairs, raw_raster};
ghost use Rattle.plane_samples.specs.Samples.{IsSamples};
ghost use Rattle.plane_samples.specs.declared.samples.PlaneSamples.TheVariants.{Bytes, Pairs};

use crate::packed_plane::PackedPlane;
use plane_samples::{PlaneSamples, SpacedBytes, SpacedPairs};

/// The samples of a picture.
#[derive(Debug, Drop)]
pub enum Raster {
    Planes(Vec<Vec<u16>>),
    Made(Vec<PackedPlane>),
    Kept(KeptRaster),
}

/// A raw raster after the other bytes that it was read with.
#[derive(Debug, Drop)]
pub struct KeptRaster {
    pub bytes: Vec<u8>,
    pub start: usize,
    /// The number of planes, 1 or 3.
    pub colours: usize,
}

/// The samples of a plane of a raw raster with `area` samples in each.
pub fn view_plane_of_raw_raster(
    raster: &[u8],
    max: u16,
    colours: usize,
    area: usize,
    plane: usize,
) -> PlaneSamples<'_>
    requires whole { length raster.now ≡ (colours * area) * width_of max }
    requires colours { (colours ≡ 1) ⊎ (colours ≡ 3) }
    requires some { 0 < area }
    requires plane { plane < colours }
    ensures { IsSamples result
        (slice_index_or (separated colours (decoded max raster.now)) plane []) }
{
    if max < 256 {
        PlaneSamples::Bytes(view_raster_plane_of_bytes(raster, colours, area, plane))
    } else {
        PlaneSamples::Pairs(view_raster_plane_of_byte_pairs(raster, colours, area, plane))
    }
}

// The bytes of a plane where each is a sample.
fn view_raster_plane_of_bytes(
    raster: &[u8],
    colours: usize,
    area: usize,
    plane: usize,
) -> SpacedBytes<'_>
    requires whole { length raster.now ≡ colours * area }
    requires colours { (colours ≡ 1) ⊎ (colours ≡ 3) }
    requires some { 0 < area }
    requires plane { plane < colours }
    ensures { IsSamples (Bytes result) (slice_index_or (separated colours raster.now) plane []) }
{
    SpacedBytes {
        bytes: &raster[plane..],
        step: colours,
        count: area,
    }
}

// The bytes of a plane where two are a sample.
fn view_raster_plane_of_byte_pairs(
    raster: &[u8],
    colours: usize,
    area: usize,
    plane: usize,
) -> SpacedPairs<'_>
    requires whole { length raster.now ≡ (colours * area) * 2 }
    requires colours { (colours ≡ 1) ⊎ (colours ≡ 3) }
    requires some { 0 < area }
    requires plane { plane < colours }
    ensures { IsSamples (Pairs result)
        (slice_index_or (separated colours (pairs raster.now)) plane []) }
{
    SpacedPairs {
        bytes: &raster[2 * plane..],
        step: 2 * colours,
        count: area,
    }
}

/// What is written of the planes of a raw raster with `area` samples in each: the raster itself.
pub fn return_raw_raster_unchanged(raster: &[u8], max: u16, colours: usize, area: usize) -> &[u8]
    requires whole { length raster.now ≡ (colours * area) * width_of max }
    requires colours { (colours ≡ 1) ⊎ (colours ≡ 3) }
    ensures { result.now ≡ raw_raster max (interleaved (separated colours (decoded max raster.now))) }
{
    raster
}
