//! A picture: its sides, its greatest sample and its planes.
ghost use Rattle.std.specs.Prelude.{◌≡◌, ◌≤◌, ◌<◌, ◌+◌, ◌*◌, ◌↔◌, ℕ};
ghost use Rattle.std.specs.Prelude.{All, length, slice_index, slice_index_or, [], IsTrue, IsOk, IfOk, IfErr, IfSome};
ghost use Rattle.netpbm.specs.Image.{Image, InRange, IsPlane, IsImage, AreSizes, image};
ghost use Rattle.netpbm.specs.Colours.{separated, interleaved};
ghost use Rattle.netpbm.specs.Planes.{samples_of};
ghost use Rattle.netpbm.specs.MadePlane.{made_samples};
ghost use Rattle.netpbm.specs.Rasters.{bytes_of, IsKept};
ghost use Rattle.netpbm.specs.Raw.{decoded, raw_raster};
ghost use Rattle.plane_samples.specs.Samples.{IsSamples};

use crate::packed_plane::{PackedPlane, is_valid_packed_plane};
use crate::parts::view_contiguous_sample_bytes;
use crate::raster::{KeptRaster, Raster, return_raw_raster_unchanged, view_plane_of_raw_raster};
use plane_samples::PlaneSamples;
use std::marker::Model;

/// The longest side of a picture, in samples.
pub const LONGEST_SIDE: u32 = 4096;

/// A grey picture of one plane, or a coloured one of a red, a green and a blue plane.
///
/// Both sides are from 1 to 4096 and the greatest sample `max` from 1 to 65535. Each plane has
/// `rows * cols` samples, none above `max`, from the top row to the bottom one and from left to right.
/// One that `read_picture_in_place` reads of a raw raster keeps the bytes that it was read from.
#[derive(Debug, Drop)]
pub struct Picture {
    rows: u32,
    cols: u32,
    max: u16,
    raster: Raster,
}

impl Model for Picture {
    ghost use Rattle.std.specs.Prelude.{◌*◌};
    ghost use Rattle.netpbm.specs.Image.{Image, IsImage, image};
    ghost use Rattle.netpbm.specs.Rasters.{planes_of, FitsRaster};

    ghost Value = { Image };

    ghost view = { λ p. image p.rows p.cols p.max (planes_of p.max p.raster) };

    ghost invariant = { λ p. IsImage (image p.rows p.cols p.max (planes_of p.max p.raster))
        × FitsRaster (p.rows * p.cols) p.max p.raster };
}

impl Picture {
    /// A picture of these planes, or the planes back if a side, the greatest sample, the number of planes, a plane's length or a
    /// sample is wrong.
    pub fn of(
        rows: u32,
        cols: u32,
        max: u16,
        planes: Vec<Vec<u16>>,
    ) -> Result<Picture, Vec<Vec<u16>>>
        ensures exact { IsOk result ↔ IsImage (image rows cols max (samples_of planes.items)) }
        ensures ok { IfOk result (λ p. p ≡ image rows cols max (samples_of planes.items)) }
        ensures refused { IfErr result (λ back. back ≡ planes) }
    {
        if is_valid_picture(rows, cols, max, &planes) {
            Ok(Picture::from_valid_planes(rows, cols, max, planes))
        } else {
            Err(planes)
        }
    }

    /// Like `of`, of planes that were made piece by piece.
    pub fn from_packed_planes(
        rows: u32,
        cols: u32,
        max: u16,
        planes: Vec<PackedPlane>,
    ) -> Result<Picture, Vec<PackedPlane>>
        ensures exact { IsOk result ↔ IsImage (image rows cols max (made_samples planes.items)) }
        ensures ok { IfOk result (λ p. p ≡ image rows cols max (made_samples planes.items)) }
        ensures refused { IfErr result (λ back. back ≡ planes) }
    {
        if is_valid_packed_picture(rows, cols, max, &planes) {
            Ok(Picture {
                rows,
                cols,
                max,
                raster: Raster::Made(planes),
            })
        } else {
            Err(planes)
        }
    }

    // A picture of parts that are known to be those of one.
    pub(crate) fn from_valid_planes(
        rows: u32,
        cols: u32,
        max: u16,
        planes: Vec<Vec<u16>>,
    ) -> Picture
        requires { IsImage (image rows cols max (samples_of planes.items)) }
        ensures { result ≡ image rows cols max (samples_of planes.items) }
    {
        Picture {
            rows,
            cols,
            max,
            raster: Raster::Planes(planes),
        }
    }

    // The same of a raw raster that is known to be that of a picture.
    pub(crate) fn from_valid_kept_raster(
        rows: u32,
        cols: u32,
        max: u16,
        raster: KeptRaster,
    ) -> Picture
        requires image { IsImage (image rows cols max
            (separated raster.colours (decoded max (bytes_of raster)))) }
        requires kept { IsKept (rows * cols) max raster }
        ensures { result ≡ image rows cols max
            (separated raster.colours (decoded max (bytes_of raster))) }
    {
        Picture {
            rows,
            cols,
            max,
            raster: Raster::Kept(raster),
        }
    }

    /// The number of rows, from 1 to 4096.
    pub fn rows(&self) -> u32
        ensures value { result ≡ self.now.rows }
        ensures range { InRange 4096 result }
    {
        self.rows
    }

    /// The number of samples in a row of a plane, from 1 to 4096.
    pub fn cols(&self) -> u32
        ensures value { result ≡ self.now.cols }
        ensures range { InRange 4096 result }
    {
        self.cols
    }

    /// The greatest sample that the picture may have, from 1 to 65535.
    pub fn max(&self) -> u16
        ensures value { result ≡ self.now.max }
        ensures range { InRange 65535 result }
    {
        self.max
    }

    /// The number of planes: one of grey samples, or a red, a green and a blue one.
    pub fn plane_count(&self) -> usize
        ensures value { result ≡ length self.now.planes }
        ensures image { IsImage self.now }
    {
        match &self.raster {
            Raster::Planes(planes) => planes.len(),
            Raster::Made(planes) => planes.len(),
            Raster::Kept(raster) => raster.colours,
        }
    }

    /// The samples of a plane. Planes count from 0.
    pub fn samples(&self, plane: usize) -> PlaneSamples<'_>
        requires { plane < length self.now.planes }
        ensures samples { IsSamples result (slice_index_or self.now.planes plane []) }
        ensures image { IsImage self.now }
    {
        match &self.raster {
            Raster::Planes(planes) => PlaneSamples::Words(planes[plane].as_slice()),
            Raster::Made(planes) => planes[plane].samples(),
            Raster::Kept(raster) => {
                let bytes = &raster.bytes[raster.start..];
                view_plane_of_raw_raster(bytes, self.max, raster.colours, self.area(), plane)
            }
        }
    }

    /// The number of samples in a plane.
    pub fn area(&self) -> usize
        ensures value { result ≡ self.now.rows * self.now.cols }
        ensures small { result ≤ 16777216 }
        ensures image { IsImage self.now }
    {
        self.rows as usize * self.cols as usize
    }

    // The raster that is written, if it lies in memory in this form.
    pub(crate) fn view_raw_raster_if_stored(&self) -> Option<&[u8]>
        ensures { IfSome result
            (λ bytes. bytes.now ≡ raw_raster self.now.max (interleaved self.now.planes)) }
    {
        match &self.raster {
            Raster::Planes(_) => None,
            Raster::Made(planes) => view_raster_if_one_plane_of_bytes(planes, self.max),
            Raster::Kept(raster) => {
                let bytes = &raster.bytes[raster.start..];
                Some(return_raw_raster_unchanged(bytes, self.max, raster.colours, self.area()))
            }
        }
    }

    /// The sample at a place of a plane. Planes, rows and columns count from 0.
    pub fn sample(&self, plane: usize, row: u32, col: u32) -> u16
        requires in_planes { plane < length self.now.planes }
        requires in_rows { row < self.now.rows }
        requires in_cols { col < self.now.cols }
        ensures { result
            ≡ slice_index (slice_index_or self.now.planes plane []) (row * self.now.cols + col) }
    {
        self.samples(plane)
            .load_sample(row as usize * self.cols as usize + col as usize)
    }
}

// The bytes of a grey plane, if they are what is written of it.
fn view_raster_if_one_plane_of_bytes(planes: &[PackedPlane], max: u16) -> Option<&[u8]>
    ensures { IfSome result
        (λ bytes. bytes.now ≡ raw_raster max (interleaved (made_samples planes.now))) }
{
    if planes.len() != 1 {
        return None;
    }
    if max > 255 {
        return None;
    }
    view_contiguous_sample_bytes(&planes[0].samples())
}

// Whether these are the parts of a picture.
fn is_valid_picture(rows: u32, cols: u32, max: u16, planes: &[Vec<u16>]) -> bool
    ensures { IsTrue result ↔ IsImage (image rows cols max (samples_of planes.now)) }
{
    is_valid_picture_shape(rows, cols, max, planes.len())
        && has_valid_planes(rows as usize * cols as usize, max, planes)
}

// Whether these are the parts of a picture.
fn is_valid_packed_picture(rows: u32, cols: u32, max: u16, planes: &[PackedPlane]) -> bool
    ensures { IsTrue result ↔ IsImage (image rows cols max (made_samples planes.now)) }
{
    is_valid_picture_shape(rows, cols, max, planes.len())
        && has_valid_packed_planes(rows as usize * cols as usize, max, planes)
}

// Whether a picture may have these sides, this greatest sample and this number of planes.
fn is_valid_picture_shape(rows: u32, cols: u32, max: u16, colours: usize) -> bool
    ensures { IsTrue result ↔ AreSizes rows cols max colours }
{
    if !is_valid_picture_side(rows) {
        return false;
    }
    if !is_valid_picture_side(cols) {
        return false;
    }
    if max == 0 {
        return false;
    }
    match colours {
        1 | 3 => true,
        _ => false,
    }
}

// Whether a picture may have a side of this length.
fn is_valid_picture_side(side: u32) -> bool
    ensures { IsTrue result ↔ InRange 4096 side }
{
    0 < side && side <= LONGEST_SIDE
}

// Whether each plane has `area` samples, none above `max`.
fn has_valid_planes(area: usize, max: u16, planes: &[Vec<u16>]) -> bool
    ensures { IsTrue result ↔ All (λ plane. IsPlane area max plane.items) planes.now }
{
    planes.iter().all(|plane| is_valid_plane(area, max, plane))
}

// The same of planes that were made piece by piece.
fn has_valid_packed_planes(area: usize, max: u16, planes: &[PackedPlane]) -> bool
    ensures { IsTrue result ↔ All (λ plane. IsPlane area max plane.samples) planes.now }
{
    planes
        .iter()
        .all(|plane| is_valid_packed_plane(area, max, plane))
}

// Whether a plane has `area` samples, none above `max`.
fn is_valid_plane(area: usize, max: u16, plane: &Vec<u16>) -> bool
    ensures { IsTrue result ↔ IsPlane area max plane.now.items }
{
    plane.len() == area && are_samples_at_most_picture_max(max, plane.as_slice())
}

/// Whether no sample is above `max`. It always goes to the end, in a loop that is compiled to few steps.
pub fn are_samples_at_most_picture_max(max: u16, samples: &[u16]) -> bool
    ensures { IsTrue result ↔ All (λ sample. sample ≤ max) samples.now }
{
    let mut greatest = 0;
    for sample in samples {
        if *sample > greatest {
            greatest = *sample;
        }
    }
    greatest <= max
}
