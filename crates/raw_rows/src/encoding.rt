#![tactic(auto)]
//! Bytes of a row of a picture.

ghost use Rattle.std.specs.Prelude.{◌≡◌, ℕ, ◌+◌, ◌*◌, ◌/◌, ◌%◌, ◌≤◌, ◌<◌, ◌^◌, pos, length, map, slice_index_or};
ghost use Rattle.std.specs.List.{flat_map};
ghost use Rattle.netpbm.specs.Colours.{woven};
ghost use Rattle.netpbm.specs.Raw.{raw_raster, two_bytes, width_of};
ghost use Rattle.job.specs.Answers.{sample_of};
ghost use Rattle.raw_rows.specs.Lines.{line_samples, pixel_count, plane_count, AreEven};

use crate::lines::RawRowLines;
use crate::numbers::RawRowNumbers;

/// How many bytes a row of `cols` pixels takes in `planes` planes, if no sample is above `max`.
pub fn count_raw_row_bytes(planes: usize, cols: usize, max: u16) -> usize
    requires { planes * cols < 2 ^ 60 }
    ensures { result ≡ width_of max * (planes * cols) }
{
    if max < 256 {
        planes * cols
    } else {
        2 * (planes * cols)
    }
}

/// Writes the bytes of a row: of each pixel the numbers of its planes, each clamped to 0 and `max`. A sample has one byte where `max`
/// is below 256, else two, the most significant one first.
pub fn encode_raw_row(out: &mut [u8], lines: RawRowLines<'_>, max: u16)
    requires even { AreEven lines }
    requires len { length out.old ≡ width_of max * (plane_count lines * pixel_count lines) }
    ensures { out.new ≡ raw_raster max (line_samples max lines.entry) }
{
    match lines {
        RawRowLines::Grey(line) => encode_grey_raw_row(out, line, max),
        RawRowLines::Colour(red, green, blue) => encode_colour_raw_row(out, red, green, blue, max),
        RawRowLines::NarrowGrey(line) => encode_grey_raw_row(out, line, max),
        RawRowLines::NarrowColour(red, green, blue) => {
            encode_colour_raw_row(out, red, green, blue, max)
        },
    }
}

// A grey row.
fn encode_grey_raw_row<V: RawRowNumbers>(out: &mut [u8], line: V, max: u16)
    requires { length out.old ≡ width_of max * length (V.numbers line) }
    ensures { out.new ≡ raw_raster max (map (sample_of max) (V.numbers line)) }
{
    if max < 256 {
        encode_grey_raw_row_in_bytes(out, line, max);
    } else {
        encode_grey_raw_row_in_pairs(out, line, max);
    }
}

// A grey row of one byte a sample.
fn encode_grey_raw_row_in_bytes<V: RawRowNumbers>(out: &mut [u8], line: V, max: u16)
    requires max { max < 256 }
    requires len { length out.old ≡ length (V.numbers line) }
    ensures { out.new ≡ map (sample_of max) (V.numbers line) }
{
    for k in 0..out.len() {
        out[k] = line.clamp_raw_row_number(k, max) as u8;
    }
}

// A grey row of two bytes a sample.
#[tactic(auto, using(crate::proofs::Encoded::pairs_of_line))]
fn encode_grey_raw_row_in_pairs<V: RawRowNumbers>(out: &mut [u8], line: V, max: u16)
    requires { length out.old ≡ 2 * length (V.numbers line) }
    ensures { out.new ≡ flat_map two_bytes (map (sample_of max) (V.numbers line)) }
{
    for k in 0..out.len() / 2 {
        write_raw_row_pair(out, 2 * k, line.clamp_raw_row_number(k, max));
    }
}

// A row of three colours.
fn encode_colour_raw_row<V: RawRowNumbers>(out: &mut [u8], red: V, green: V, blue: V, max: u16)
    requires green { length (V.numbers green) ≡ length (V.numbers red) }
    requires blue { length (V.numbers blue) ≡ length (V.numbers red) }
    requires len { length out.old ≡ width_of max * (3 * length (V.numbers red)) }
    ensures { out.new ≡ raw_raster max (woven (map (sample_of max) (V.numbers red))
        (map (sample_of max) (V.numbers green)) (map (sample_of max) (V.numbers blue))) }
{
    if max < 256 {
        encode_colour_raw_row_in_bytes(out, red, green, blue, max);
    } else {
        encode_colour_raw_row_in_pairs(out, red, green, blue, max);
    }
}

// A row of three colours and one byte a sample.
#[tactic(auto, using(crate::proofs::Encoded::bytes_of_lines))]
fn encode_colour_raw_row_in_bytes<V: RawRowNumbers>(
    out: &mut [u8],
    red: V,
    green: V,
    blue: V,
    max: u16,
)
    requires max { max < 256 }
    requires green { length (V.numbers green) ≡ length (V.numbers red) }
    requires blue { length (V.numbers blue) ≡ length (V.numbers red) }
    requires len { length out.old ≡ 3 * length (V.numbers red) }
    ensures { out.new ≡ woven (map (sample_of max) (V.numbers red))
        (map (sample_of max) (V.numbers green)) (map (sample_of max) (V.numbers blue)) }
{
    for k in 0..out.len() / 3 {
        out[3 * k] = red.clamp_raw_row_number(k, max) as u8;
        out[3 * k + 1] = green.clamp_raw_row_number(k, max) as u8;
        out[3 * k + 2] = blue.clamp_raw_row_number(k, max) as u8;
    }
}

// A row of three colours and two bytes a sample.
#[tactic(auto, using(crate::proofs::Encoded::pairs_of_lines))]
fn encode_colour_raw_row_in_pairs<V: RawRowNumbers>(
    out: &mut [u8],
    red: V,
    green: V,
    blue: V,
    max: u16,
)
    requires green { length (V.numbers green) ≡ length (V.numbers red) }
    requires blue { length (V.numbers blue) ≡ length (V.numbers red) }
    requires len { length out.old ≡ 6 * length (V.numbers red) }
    ensures { out.new ≡ flat_map two_bytes (woven (map (sample_of max) (V.numbers red))
        (map (sample_of max) (V.numbers green)) (map (sample_of max) (V.numbers blue))) }
{
    for k in 0..out.len() / 6 {
        write_raw_row_pair(out, 6 * k, red.clamp_raw_row_number(k, max));
        write_raw_row_pair(out, 6 * k + 2, green.clamp_raw_row_number(k, max));
        write_raw_row_pair(out, 6 * k + 4, blue.clamp_raw_row_number(k, max));
    }
}

// Writes the two bytes of a sample. (They are stored at once, so that vector code exchanges bytes of whole vectors.)
#[inline]
fn write_raw_row_sample(pair: &mut [u8], sample: u16)
    requires { length pair.old ≡ 2 }
    ensures { pair.new ≡ two_bytes sample }
{
    if let Some(bytes) = pair.as_mut_array::<2>() {
        *bytes = sample.to_be_bytes();
    }
}

// Writes the two bytes of a sample from a place on.
#[inline]
fn write_raw_row_pair(out: &mut [u8], place: usize, sample: u16)
    requires { place + 1 < length out.old }
    ensures high { slice_index_or out.new place 0 ≡ sample / 256 }
    ensures low { slice_index_or out.new (place + 1) 0 ≡ sample % 256 }
    ensures before { (k : ℕ) → k < place → slice_index_or out.new k 0 ≡ slice_index_or out.old k 0 }
{
    write_raw_row_sample(&mut out[place..place + 2], sample);
}
