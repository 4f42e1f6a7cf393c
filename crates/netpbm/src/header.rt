//! What precedes the raster.
ghost use Rattle.std.specs.Prelude.{◌≡◌, ◌≤◌, ◌⊎◌, length, IfOk};
ghost use Rattle.netpbm.specs.Image.{InRange};
ghost use Rattle.netpbm.specs.Reading.{magic_read, number_read, size_read, max_read, white_read, header_read};

use crate::fault::PicFault;
use crate::picture::LONGEST_SIDE;
use crate::text::{
    is_netpbm_space, read_netpbm_digits, report_missing_netpbm_number,
    skip_netpbm_spaces_and_comments,
};

/// How the samples of a raster are written.
#[derive(Clone, Copy, Debug, PartialEq, Eq)]
pub enum RasterCoding {
    /// In digits.
    Plain,
    /// In one byte or two.
    Raw,
}

/// What a header specifies, and where the raster begins.
#[derive(Clone, Copy, Debug)]
pub struct PictureHeader {
    pub coding: RasterCoding,
    /// The number of planes, 1 or 3.
    pub colours: usize,
    pub cols: u32,
    pub rows: u32,
    pub max: u16,
    /// The number of bytes in front of the raster.
    pub end: usize,
}

/// Reads the header of a picture.
#[tactic(auto, unfolding(crate::specs::Reading::header_read))]
pub fn read_picture_header(bytes: &[u8]) -> Result<PictureHeader, PicFault>
    ensures read { result ≡ header_read bytes.now }
    ensures within { IfOk result (λ h. h.end ≤ length bytes.now) }
    ensures colours { IfOk result (λ h. (h.colours ≡ 1) ⊎ (h.colours ≡ 3)) }
    ensures cols { IfOk result (λ h. InRange 4096 h.cols) }
    ensures rows { IfOk result (λ h. InRange 4096 h.rows) }
    ensures max { IfOk result (λ h. InRange 65535 h.max) }
{
    let (coding, colours) = read_picture_coding_and_plane_count(bytes)?;
    let (cols, end) = read_picture_side(bytes, 2)?;
    let (rows, end) = read_picture_side(bytes, end)?;
    let (max, end) = read_picture_max_sample(bytes, end)?;
    let end = skip_space_at_end_of_picture_header(bytes, end)?;
    Ok(PictureHeader {
        coding,
        colours,
        cols,
        rows,
        max,
        end,
    })
}

// The coding and the number of planes that the first two bytes name.
#[tactic(auto, unfolding(crate::specs::Reading::magic_read))]
fn read_picture_coding_and_plane_count(bytes: &[u8]) -> Result<(RasterCoding, usize), PicFault>
    ensures read { result ≡ magic_read bytes.now }
    ensures long { IfOk result (λ _. 2 ≤ length bytes.now) }
    ensures colours { IfOk result (λ m. (m.1 ≡ 1) ⊎ (m.1 ≡ 3)) }
{
    if bytes.is_empty() {
        return Err(PicFault::HeaderCut(0));
    }
    if bytes[0] != b'P' {
        return Err(PicFault::OtherFormat(0));
    }
    if bytes.len() < 2 {
        return Err(PicFault::HeaderCut(1));
    }
    match bytes[1] {
        b'2' => Ok((RasterCoding::Plain, 1)),
        b'3' => Ok((RasterCoding::Plain, 3)),
        b'5' => Ok((RasterCoding::Raw, 1)),
        b'6' => Ok((RasterCoding::Raw, 3)),
        _ => Err(PicFault::OtherFormat(1)),
    }
}

// A number of the header: its value, which stops at 65536, and where its digits begin and end.
#[derive(Clone, Copy)]
struct HeaderNumber {
    value: u32,
    start: usize,
    end: usize,
}

// The gap at a place, and the number after it.
#[tactic(auto, unfolding(crate::specs::Reading::number_read))]
fn read_header_number_after_gap(bytes: &[u8], at: usize) -> Result<HeaderNumber, PicFault>
    requires { at ≤ length bytes.now }
    ensures read { result ≡ number_read bytes.now at }
    ensures within { IfOk result (λ n. n.end ≤ length bytes.now) }
{
    let start = skip_netpbm_spaces_and_comments(bytes, at);
    let (value, end) = read_netpbm_digits(bytes, start);
    if start > at && end > start {
        return Ok(HeaderNumber { value, start, end });
    }
    Err(report_missing_netpbm_number(bytes, start, PicFault::HeaderCut(start)))
}

// A gap and a side after it, and where its digits end.
#[tactic(auto, unfolding(crate::specs::Reading::size_read))]
fn read_picture_side(bytes: &[u8], at: usize) -> Result<(u32, usize), PicFault>
    requires { at ≤ length bytes.now }
    ensures read { result ≡ size_read bytes.now at }
    ensures within { IfOk result (λ n. n.1 ≤ length bytes.now) }
    ensures range { IfOk result (λ n. InRange 4096 n.0) }
{
    let number = read_header_number_after_gap(bytes, at)?;
    if number.value < 1 || number.value > LONGEST_SIDE {
        return Err(PicFault::BadSize(number.start));
    }
    Ok((number.value, number.end))
}

// A gap and a greatest sample after it, and where its digits end.
#[tactic(auto, unfolding(crate::specs::Reading::max_read))]
fn read_picture_max_sample(bytes: &[u8], at: usize) -> Result<(u16, usize), PicFault>
    requires { at ≤ length bytes.now }
    ensures read { result ≡ max_read bytes.now at }
    ensures within { IfOk result (λ n. n.1 ≤ length bytes.now) }
    ensures range { IfOk result (λ n. InRange 65535 n.0) }
{
    let number = read_header_number_after_gap(bytes, at)?;
    if number.value < 1 || number.value > 65535 {
        return Err(PicFault::BadMax(number.start));
    }
    Ok((number.value as u16, number.end))
}

// The place after the one white byte that follows the greatest sample.
#[tactic(auto, unfolding(crate::specs::Reading::white_read))]
fn skip_space_at_end_of_picture_header(bytes: &[u8], at: usize) -> Result<usize, PicFault>
    requires { at ≤ length bytes.now }
    ensures read { result ≡ white_read bytes.now at }
    ensures within { IfOk result (λ end. end ≤ length bytes.now) }
{
    if at < bytes.len() && is_netpbm_space(bytes[at]) {
        return Ok(at + 1);
    }
    if at < bytes.len() && bytes[at] == b'#' {
        return Err(PicFault::CommentBehindDigit(at));
    }
    Err(report_missing_netpbm_number(bytes, at, PicFault::HeaderCut(at)))
}
