//! From bytes to a picture.
ghost use Rattle.std.specs.Prelude.{ℕ, ◌≡◌, ◌≤◌, ◌<◌, ◌+◌, ◌*◌, ◌⊎◌, length, drop, slice_index, Ok, Err, IfOk, IfErr, OnOk};
ghost use Rattle.netpbm.specs.Colours.{separated};
ghost use Rattle.netpbm.specs.Faults.{IsFault};
ghost use Rattle.netpbm.specs.Raw.{width_of, decoded};
ghost use Rattle.netpbm.specs.Gives.{Gives, IsReadAs};
ghost use Rattle.netpbm.specs.Grammar.{IsPicture};
ghost use Rattle.netpbm.specs.declared.header.RasterCoding.TheVariants.{Plain, Raw};
ghost use Rattle.netpbm.specs.Image.{Image, InRange};
ghost use Rattle.netpbm.specs.Planes.{samples_of};
ghost use Rattle.netpbm.specs.Reading.{header_read, planes_read, picture_read};

use crate::colours::split_into_planes;
use crate::fault::PicFault;
use crate::header::{PictureHeader, RasterCoding, read_picture_header};
use crate::picture::Picture;
use crate::plain::read_plain_raster;
use crate::raster::KeptRaster;
use crate::raw_bounds::has_bounded_raster_samples;
use crate::raw_planes::decode_raw_planes_if_bounded;
use crate::raw_raster::{check_raw_raster, count_bytes_per_raw_sample};
use std::alloc::Global;

/// The picture that the bytes spell, or their first fault from the left.
pub fn read(alloc: Global, bytes: &[u8]) -> Result<Picture, PicFault>
    // What is read is spelled so.
    ensures found { IfOk result (IsPicture bytes.now) }

    // What spells a picture is read as it alone, unless memory runs out.
    ensures only { (p : Image) → IsPicture bytes.now p → IsReadAs result p }

    // A fault is the first one of the bytes, at its place; memory is refused only for a picture.
    ensures fault { IfErr result (IsFault bytes.now) }
{
    read_picture(alloc, bytes)
}

/// Reads like `read` what the input spells from `start` on. If the raster is raw, the input's bytes are kept, so that no sample
/// is copied.
pub fn read_picture_in_place(
    alloc: Global,
    input: Vec<u8>,
    start: usize,
) -> Result<Picture, PicFault>
    requires { start ≤ length input.items }
    // What is read is spelled so.
    ensures found { IfOk result (IsPicture (drop start input.items)) }

    // What spells a picture is read as it alone, unless memory runs out.
    ensures only { (p : Image) → IsPicture (drop start input.items) p → IsReadAs result p }

    // A fault is the first one of the bytes, at its place; memory is refused only for a picture.
    ensures fault { IfErr result (IsFault (drop start input.items)) }
{
    picture_bytes_are_below_256(input.as_slice());
    read_plain_or_keep_raw_picture(alloc, input, start)
}

// Each byte is below 256, which is known of a slice alone. No code runs.
fn picture_bytes_are_below_256(bytes: &[u8])
    ensures { (k : ℕ) → slice_index bytes.now k < 256 }
{}

// The picture or the fault that reading from the left gives. Digits are read as they are everywhere.
fn read_plain_or_keep_raw_picture(
    alloc: Global,
    input: Vec<u8>,
    start: usize,
) -> Result<Picture, PicFault>
    requires start { start ≤ length input.items }
    requires bytes { (k : ℕ) → slice_index input.items k < 256 }
    ensures { Gives (λ picture. picture) result (picture_read (drop start input.items)) }
{
    let header = read_picture_header(&input[start..])?;
    match header.coding {
        RasterCoding::Plain => read_picture(alloc, &input[start..]),
        RasterCoding::Raw => read_raw_picture_in_place(input, start, &header),
    }
}

// The picture of a raw raster, which stays where it is.
fn read_raw_picture_in_place(
    input: Vec<u8>,
    start: usize,
    header: &PictureHeader,
) -> Result<Picture, PicFault>
    requires start { start ≤ length input.items }
    requires bytes { (k : ℕ) → slice_index input.items k < 256 }
    requires read { header_read (drop start input.items) ≡ Ok header.now }
    requires raw { header.now.coding ≡ Raw }
    requires place { start + header.now.end ≤ length input.items }
    requires rows { InRange 4096 header.now.rows }
    requires cols { InRange 4096 header.now.cols }
    requires colours { (header.now.colours ≡ 1) ⊎ (header.now.colours ≡ 3) }
    ensures { Gives (λ picture. picture) result (picture_read (drop start input.items)) }
{
    check_raw_raster_after_header(&input[start..], header)?;
    let raster = KeptRaster {
        bytes: input,
        start: start + header.end,
        colours: header.colours,
    };
    Ok(Picture::from_valid_kept_raster(header.rows, header.cols, header.max, raster))
}

// Finds the fault of a raw raster. A whole one without fault is looked at once, or not at all if its bytes spell no sample above
// the greatest.
fn check_raw_raster_after_header(bytes: &[u8], header: &PictureHeader) -> Result<(), PicFault>
    requires place { header.now.end ≤ length bytes.now }
    requires rows { InRange 4096 header.now.rows }
    requires cols { InRange 4096 header.now.cols }
    requires colours { (header.now.colours ≡ 1) ⊎ (header.now.colours ≡ 3) }
    ensures ok { OnOk result (planes_read Raw bytes.now header.now
        ≡ Ok (separated header.now.colours (decoded header.now.max (drop header.now.end bytes.now)))) }
    ensures whole { OnOk result (length (drop header.now.end bytes.now)
        ≡ (header.now.colours * (header.now.rows * header.now.cols)) * width_of header.now.max) }
    ensures fault { IfErr result (λ e. planes_read Raw bytes.now header.now ≡ Err e) }
{
    let count = header.colours * count_samples_per_plane(header);
    let raster = &bytes[header.end..];
    if raster.len() == count * count_bytes_per_raw_sample(header.max)
        && has_bounded_raster_samples(raster, header.max)
    {
        return Ok(());
    }
    check_raw_raster(bytes, header.end, header.max, count)
}

// The picture or the fault that reading from the left gives.
fn read_picture(alloc: Global, bytes: &[u8]) -> Result<Picture, PicFault>
    ensures { Gives (λ picture. picture) result (picture_read bytes.now) }
{
    let header = read_picture_header(bytes)?;
    let planes = read_raster_planes(alloc, bytes, &header)?;
    Ok(Picture::from_valid_planes(header.rows, header.cols, header.max, planes))
}

// The planes of the raster.
fn read_raster_planes(
    alloc: Global,
    bytes: &[u8],
    header: &PictureHeader,
) -> Result<Vec<Vec<u16>>, PicFault>
    requires place { header.now.end ≤ length bytes.now }
    requires rows { InRange 4096 header.now.rows }
    requires cols { InRange 4096 header.now.cols }
    requires colours { (header.now.colours ≡ 1) ⊎ (header.now.colours ≡ 3) }
    ensures { Gives (λ planes. samples_of planes.items) result
        (planes_read header.now.coding bytes.now header.now) }
{
    match header.coding {
        RasterCoding::Plain => read_plain_raster_planes(alloc, bytes, header),
        RasterCoding::Raw => read_raw_raster_planes(alloc, bytes, header),
    }
}

// The planes of a raster whose samples are written in digits.
fn read_plain_raster_planes(
    alloc: Global,
    bytes: &[u8],
    header: &PictureHeader,
) -> Result<Vec<Vec<u16>>, PicFault>
    requires place { header.now.end ≤ length bytes.now }
    requires rows { InRange 4096 header.now.rows }
    requires cols { InRange 4096 header.now.cols }
    requires colours { (header.now.colours ≡ 1) ⊎ (header.now.colours ≡ 3) }
    ensures { Gives (λ planes. samples_of planes.items) result
        (planes_read Plain bytes.now header.now) }
{
    let count = header.colours * count_samples_per_plane(header);
    let samples = read_plain_raster(alloc, bytes, header.end, header.max, count)?;
    match split_into_planes(alloc, samples, header.colours) {
        Ok(planes) => Ok(planes),
        Err(_) => Err(PicFault::Memory),
    }
}

// The planes of a raster whose samples are written in bytes. Their fault is looked for only if they cannot be had.
fn read_raw_raster_planes(
    alloc: Global,
    bytes: &[u8],
    header: &PictureHeader,
) -> Result<Vec<Vec<u16>>, PicFault>
    requires place { header.now.end ≤ length bytes.now }
    requires rows { InRange 4096 header.now.rows }
    requires cols { InRange 4096 header.now.cols }
    requires colours { (header.now.colours ≡ 1) ⊎ (header.now.colours ≡ 3) }
    ensures { Gives (λ planes. samples_of planes.items) result
        (planes_read Raw bytes.now header.now) }
{
    let area = count_samples_per_plane(header);
    let raster = &bytes[header.end..];
    let count = header.colours * area;
    if raster.len() == count * count_bytes_per_raw_sample(header.max) {
        if let Some(planes) = decode_raw_planes_if_bounded(
            alloc,
            raster,
            header.max,
            header.colours,
            area,
        ) {
            return Ok(planes);
        }
    }
    check_raw_raster(bytes, header.end, header.max, count)?;
    Err(PicFault::Memory)
}

// The number of samples in a plane.
fn count_samples_per_plane(header: &PictureHeader) -> usize
    requires rows { InRange 4096 header.now.rows }
    requires cols { InRange 4096 header.now.cols }
    ensures value { result ≡ header.now.rows * header.now.cols }
    ensures small { result ≤ 16777216 }
{
    header.rows as usize * header.cols as usize
}
