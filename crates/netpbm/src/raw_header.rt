//! The header of a raw picture.
ghost use Rattle.std.specs.Prelude.{List, ℕ, ◌≡◌, ◌≤◌, ◌<◌, ◌+◌, ◌++◌, ◌∷◌, [], take, length, decimal};
ghost use Rattle.netpbm.specs.Image.{image};
ghost use Rattle.netpbm.specs.Spelling.{header};

/// The most bytes of a header: three numbers of ten digits, and six bytes beside them.
pub const LONGEST_RAW_HEADER: usize = 36;

/// Puts the header of a raw picture of so many planes into the front of `out`, and returns how many bytes it has.
#[tactic(auto, using(crate::proofs::Decimals::short_decimal))]
pub fn encode_raw_header_into_buffer(
    out: &mut [u8],
    planes: usize,
    rows: u32,
    cols: u32,
    max: u32,
) -> usize
    requires room { 36 ≤ length out.old }
    ensures end { result ≤ 36 }
    ensures written { (samples : List (List ℕ)) → length samples ≡ planes
        → take result out.new ≡ header (image rows cols max samples) }
{
    let magic = if planes == 1 { b'5' } else { b'6' };
    let at = write_header_byte_at_offset(out, 0, b'P');
    let at = write_header_byte_at_offset(out, at, magic);
    let at = write_header_byte_at_offset(out, at, b'\n');
    let at = write_header_number_at_offset(out, at, cols);
    let at = write_header_byte_at_offset(out, at, b' ');
    let at = write_header_number_at_offset(out, at, rows);
    let at = write_header_byte_at_offset(out, at, b'\n');
    let at = write_header_number_at_offset(out, at, max);
    write_header_byte_at_offset(out, at, b'\n')
}

// Puts a byte at a place of `out`, and returns where the next one goes.
fn write_header_byte_at_offset(out: &mut [u8], at: usize, byte: u8) -> usize
    requires { at < length out.old }
    ensures end { result ≡ at + 1 }
    ensures written { take result out.new ≡ take at out.old ++ byte ∷ [] }
{
    out[at] = byte;
    at + 1
}

// Puts the digits of a number at a place of `out`, and returns where they end.
#[tactic(auto, using(crate::proofs::Decimals::more_digits))]
fn write_header_number_at_offset(out: &mut [u8], start: usize, number: u32) -> usize
    requires { start + length (decimal number) ≤ length out.old }
    ensures end { result ≡ start + length (decimal number) }
    ensures written { take result out.new ≡ take start out.old ++ decimal number }
{
    let last = b'0' + (number % 10) as u8;
    if number < 10 {
        return write_header_byte_at_offset(out, start, last);
    }
    let at = write_header_number_at_offset(out, start, number / 10);
    write_header_byte_at_offset(out, at, last)
}
