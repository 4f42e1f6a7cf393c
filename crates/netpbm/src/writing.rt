//! From a picture to its one written form.
ghost use Rattle.std.specs.Prelude.{List, ℕ, ◌≡◌, ◌≤◌, ◌<◌, ◌+◌, ◌-◌, ◌*◌, ◌++◌, ◌∷◌, [], All, take, length, slice_range, slice_index_or, IfOk, IfSome, OnOk, OnErr};
ghost use Rattle.std.specs.Io.KnownBytes.{Appends};
ghost use Rattle.netpbm.specs.Colours.{woven, interleaved};
ghost use Rattle.netpbm.specs.Image.{IsImage};
ghost use Rattle.netpbm.specs.Raw.{raw_raster};
ghost use Rattle.netpbm.specs.Spelling.{header as header_of, spelling};
ghost use Rattle.streams.specs.Streams.{AppendsPart, CountsFailure};
ghost use Rattle.netpbm.specs.Pixels.{pixels};

use crate::colours::{write_interleaved_colour_bytes, write_interleaved_colour_samples};
use crate::parts::{view_contiguous_sample_bytes, view_or_copy_plane_slice};
use crate::picture::Picture;
use crate::raw_header::{LONGEST_RAW_HEADER, encode_raw_header_into_buffer};
use crate::raw_raster::{count_bytes_per_raw_sample, encode_raw_samples_into_buffer};
use sha2::Digest;
use std::alloc::{AllocError, Global};
use streams::{Sink, WriteFailed, write_all_bytes};

// How many pixels are written at a time.
const PIXELS: usize = 16384;

/// The written form of a picture: raw, with no leading zeros, and with no more than one white byte
/// between two parts.
pub fn raw(alloc: Global, picture: &Picture) -> Result<Vec<u8>, AllocError>
    ensures { IfOk result (λ bytes. bytes.items ≡ spelling picture.now) }
{
    let mut header = [0u8; LONGEST_RAW_HEADER];
    let header_len = encode_picture_header_into_buffer(&mut header, picture);
    let mut bytes = Vec::with_capacity(alloc, header_len + count_raster_bytes(picture))?;
    bytes.extend_from_slice(&header[..header_len])?;
    append_raster(&mut bytes, picture)?;
    Ok(bytes)
}

// Adds the raster of a picture.
fn append_raster(bytes: &mut Vec<u8>, picture: &Picture) -> Result<(), AllocError>
    ensures { OnOk result (bytes.new.items
        ≡ bytes.old.items ++ raw_raster picture.now.max (interleaved picture.now.planes)) }
{
    match picture.view_raw_raster_if_stored() {
        Some(raster) => bytes.extend_from_slice(raster),
        None => append_raster_piece_by_piece(bytes, picture),
    }
}

// Adds the raster of a picture, some pixels at a time.
fn append_raster_piece_by_piece(bytes: &mut Vec<u8>, picture: &Picture) -> Result<(), AllocError>
    ensures { OnOk result (bytes.new.items
        ≡ bytes.old.items ++ raw_raster picture.now.max (interleaved picture.now.planes)) }
{
    let mut piece = [0u8; 6 * PIXELS];
    let area = picture.area();
    let mut done = 0;
    while done < area {
        let (end, len) = encode_next_pixels_into_buffer(&mut piece, picture, done);
        bytes.extend_from_slice(&piece[..len])?;
        done = end;
    }
    Ok(())
}

/// Writes the written form of a picture. It takes no memory.
pub fn write_raw<W: Sink>(picture: &Picture, writer: &mut W) -> Result<(), WriteFailed>
    ensures ok { OnOk result
        (Appends (W.contents writer.old) (W.contents writer.new) (spelling picture.now)) }
    ensures part { OnErr result
        (AppendsPart (W.contents writer.old) (W.contents writer.new) (spelling picture.now)) }
    ensures failed { CountsFailure result (W.failures writer.old) (W.failures writer.new) }
{
    let mut header = [0u8; LONGEST_RAW_HEADER];
    let header_len = encode_picture_header_into_buffer(&mut header, picture);
    write_all_bytes(writer, &header[..header_len])?;
    write_raster(writer, picture)
}

// Writes the raster of a picture.
fn write_raster<W: Sink>(writer: &mut W, picture: &Picture) -> Result<(), WriteFailed>
    ensures ok { OnOk result (Appends (W.contents writer.old) (W.contents writer.new)
        (raw_raster picture.now.max (interleaved picture.now.planes))) }
    ensures part { OnErr result (AppendsPart (W.contents writer.old) (W.contents writer.new)
        (raw_raster picture.now.max (interleaved picture.now.planes))) }
    ensures failed { CountsFailure result (W.failures writer.old) (W.failures writer.new) }
{
    match picture.view_raw_raster_if_stored() {
        Some(raster) => write_all_bytes(writer, raster),
        None => write_raster_piece_by_piece(writer, picture),
    }
}

// Writes the raster of a picture, some pixels at a time.
fn write_raster_piece_by_piece<W: Sink>(
    writer: &mut W,
    picture: &Picture,
) -> Result<(), WriteFailed>
    ensures ok { OnOk result (Appends (W.contents writer.old) (W.contents writer.new)
        (raw_raster picture.now.max (interleaved picture.now.planes))) }
    ensures part { OnErr result (AppendsPart (W.contents writer.old) (W.contents writer.new)
        (raw_raster picture.now.max (interleaved picture.now.planes))) }
    ensures failed { CountsFailure result (W.failures writer.old) (W.failures writer.new) }
{
    let mut piece = [0u8; 6 * PIXELS];
    let area = picture.area();
    let mut done = 0;
    while done < area {
        let (end, len) = encode_next_pixels_into_buffer(&mut piece, picture, done);
        write_all_bytes(writer, &piece[..len])?;
        done = end;
    }
    Ok(())
}

/// Adds the written form of a picture to the message that a hasher holds. It takes no memory.
pub fn hash_raw_picture<D: Digest>(picture: &Picture, hasher: &mut D)
    ensures { (message : List ℕ) → D.holds hasher.old message
        → D.holds hasher.new (message ++ spelling picture.now) }
{
    let mut header = [0u8; LONGEST_RAW_HEADER];
    let header_len = encode_picture_header_into_buffer(&mut header, picture);
    hasher.update(&header[..header_len]);
    hash_raster(hasher, picture);
}

// Adds the raster of a picture to the message that a hasher holds.
fn hash_raster<D: Digest>(hasher: &mut D, picture: &Picture)
    ensures { (message : List ℕ) → D.holds hasher.old message → D.holds hasher.new
        (message ++ raw_raster picture.now.max (interleaved picture.now.planes)) }
{
    match picture.view_raw_raster_if_stored() {
        Some(raster) => hasher.update(raster),
        None => hash_raster_piece_by_piece(hasher, picture),
    }
}

// Adds the raster of a picture to the message that a hasher holds, some pixels at a time.
fn hash_raster_piece_by_piece<D: Digest>(hasher: &mut D, picture: &Picture)
    ensures { (message : List ℕ) → D.holds hasher.old message → D.holds hasher.new
        (message ++ raw_raster picture.now.max (interleaved picture.now.planes)) }
{
    let mut piece = [0u8; 6 * PIXELS];
    let area = picture.area();
    let mut done = 0;
    while done < area {
        let (end, len) = encode_next_pixels_into_buffer(&mut piece, picture, done);
        hasher.update(&piece[..len]);
        done = end;
    }
}

// The number of bytes of the written raster.
fn count_raster_bytes(picture: &Picture) -> usize
    ensures { result ≤ 100663296 }
{
    picture.plane_count() * (picture.area() * count_bytes_per_raw_sample(picture.max()))
}

// Puts the bytes of the pixels from `start` on, of as many as are written at a time, into the front of `out`. Returns where these
// pixels end, and how many bytes they are.
fn encode_next_pixels_into_buffer(out: &mut [u8], picture: &Picture, start: usize) -> (usize, usize)
    requires before { start < picture.now.rows * picture.now.cols }
    requires room { 98304 ≤ length out.old }
    ensures on { start < result.0 }
    ensures within { result.0 ≤ picture.now.rows * picture.now.cols }
    ensures len { result.1 ≤ 98304 }
    ensures written { take result.1 out.new
        ≡ raw_raster picture.now.max (pixels start result.0 picture.now.planes) }
{
    let end = picture.area().min(start + PIXELS);
    let len = encode_range_of_pixels_into_buffer(out, picture, start, end);
    (end, len)
}

// Puts the bytes of these pixels into the front of `out`, and returns how many they are.
fn encode_range_of_pixels_into_buffer(
    out: &mut [u8],
    picture: &Picture,
    start: usize,
    end: usize,
) -> usize
    requires image { IsImage picture.now }
    requires order { start ≤ end }
    requires within { end ≤ picture.now.rows * picture.now.cols }
    requires few { end - start ≤ 16384 }
    requires room { 98304 ≤ length out.old }
    ensures end { result ≤ 98304 }
    ensures written { take result out.new
        ≡ raw_raster picture.now.max (pixels start end picture.now.planes) }
{
    if let Some((red, green, blue)) = view_colour_planes_if_contiguous_bytes(picture) {
        write_interleaved_colour_bytes(
            out,
            &red[start..end],
            &green[start..end],
            &blue[start..end],
        );
        return 3 * (end - start);
    }
    let mut red_room = [0u16; PIXELS];
    let red = view_or_copy_pixels_of_plane(&mut red_room, picture, 0, start, end);
    if picture.plane_count() == 1 {
        return encode_raw_samples_into_buffer(out, red, picture.max());
    }
    let mut green_room = [0u16; PIXELS];
    let mut blue_room = [0u16; PIXELS];
    let green = view_or_copy_pixels_of_plane(&mut green_room, picture, 1, start, end);
    let blue = view_or_copy_pixels_of_plane(&mut blue_room, picture, 2, start, end);
    encode_colour_samples_into_buffer(out, red, green, blue, picture.max())
}

// The bytes of a red, a green and a blue plane, where each sample is a byte of its own.
fn view_colour_planes_if_contiguous_bytes(picture: &Picture) -> Option<(&[u8], &[u8], &[u8])>
    ensures small { IfSome result (λ _. picture.now.max < 256) }
    ensures planes { IfSome result
        (λ bytes. picture.now.planes ≡ bytes.0.now ∷ bytes.1.now ∷ bytes.2.now ∷ []) }
{
    if picture.max() > 255 {
        return None;
    }
    if picture.plane_count() == 1 {
        return None;
    }
    let red = view_contiguous_sample_bytes(&picture.samples(0))?;
    let green = view_contiguous_sample_bytes(&picture.samples(1))?;
    let blue = view_contiguous_sample_bytes(&picture.samples(2))?;
    Some((red, green, blue))
}

// The samples of these pixels of a plane, which may be copied into the buffer `room`.
fn view_or_copy_pixels_of_plane<'a>(
    room: &'a mut [u16],
    picture: &'a Picture,
    plane: usize,
    start: usize,
    end: usize,
) -> &'a [u16]
    requires plane { plane < length picture.now.planes }
    requires order { start ≤ end }
    requires within { end ≤ picture.now.rows * picture.now.cols }
    requires room { end - start ≤ length room.old }
    ensures part { result.now
        ≡ slice_range (slice_index_or picture.now.planes plane []) start end }
    ensures bounded { All (λ sample. sample ≤ picture.now.max) result.now }
{
    view_or_copy_plane_slice(room, &picture.samples(plane), start, end)
}

// Puts the bytes of interleaved red, green and blue samples into the front of `out`, and returns how many they are.
fn encode_colour_samples_into_buffer(
    out: &mut [u8],
    red: &[u16],
    green: &[u16],
    blue: &[u16],
    max: u16,
) -> usize
    requires few { length red.now ≤ 16384 }
    requires green { length green.now ≡ length red.now }
    requires blue { length blue.now ≡ length red.now }
    requires red_bounded { All (λ sample. sample ≤ max) red.now }
    requires green_bounded { All (λ sample. sample ≤ max) green.now }
    requires blue_bounded { All (λ sample. sample ≤ max) blue.now }
    requires room { 98304 ≤ length out.old }
    ensures end { result ≤ 98304 }
    ensures written { take result out.new ≡ raw_raster max (woven red.now green.now blue.now) }
{
    let mut in_turn = [0u16; 3 * PIXELS];
    write_interleaved_colour_samples(&mut in_turn, red, green, blue);
    encode_raw_samples_into_buffer(out, &in_turn[..3 * red.len()], max)
}

// Puts the header of a picture into the front of `out`, and returns how many bytes it has.
fn encode_picture_header_into_buffer(out: &mut [u8], picture: &Picture) -> usize
    requires { 36 ≤ length out.old }
    ensures end { result ≤ 36 }
    ensures written { take result out.new ≡ header_of picture.now }
{
    let (rows, cols, max) = (picture.rows(), picture.cols(), picture.max());
    encode_raw_header_into_buffer(out, picture.plane_count(), rows, cols, u32::from(max))
}
