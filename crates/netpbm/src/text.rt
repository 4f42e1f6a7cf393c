//! White space, comments and digits.
ghost use Rattle.std.specs.Prelude.{◌≡◌, false, ◌+◌, ◌≤◌, length, drop, min};
ghost use Rattle.std.specs.Str.Parse.{digits_value};
ghost use Rattle.netpbm.specs.Text.{is_white as is_white_byte, white_len, digits_len, digits_in_front};
ghost use Rattle.netpbm.specs.Scanning.{may_stand, is_open_behind, gap_len};
ghost use Rattle.netpbm.specs.Reading.{stop};

use crate::fault::PicFault;

/// The least number that no picture has. Greater numbers are read as this one.
pub const TOO_BIG: u32 = 65536;

/// Whether a byte is a blank, TAB, CR or LF.
pub fn is_netpbm_space(byte: u8) -> bool
    ensures { result ≡ is_white_byte byte }
{
    byte == b' ' || byte == b'\t' || byte == b'\r' || byte == b'\n'
}

/// Where the white space at a place ends.
pub fn skip_netpbm_space(bytes: &[u8], start: usize) -> usize
    requires { start ≤ length bytes.now }
    ensures value { result ≡ start + white_len (drop start bytes.now) }
    ensures within { result ≤ length bytes.now }
{
    let mut at = start;
    while at < bytes.len() && is_netpbm_space(bytes[at]) {
        at += 1;
    }
    at
}

/// Where the white space and the comments at a place end.
pub fn skip_netpbm_spaces_and_comments(bytes: &[u8], start: usize) -> usize
    requires { start ≤ length bytes.now }
    ensures value { result ≡ start + gap_len false (drop start bytes.now) }
    ensures within { result ≤ length bytes.now }
{
    let mut at = start;
    let mut in_comment = false;
    while at < bytes.len() && is_netpbm_space_or_comment(in_comment, bytes[at]) {
        in_comment = is_netpbm_comment_open(in_comment, bytes[at]);
        at += 1;
    }
    at
}

// Whether a byte continues white space and comments: in a comment each byte does.
fn is_netpbm_space_or_comment(in_comment: bool, byte: u8) -> bool
    ensures { result ≡ may_stand in_comment byte }
{
    in_comment || is_netpbm_space(byte) || byte == b'#'
}

// Whether a comment is open after a byte that continues white space and comments.
fn is_netpbm_comment_open(in_comment: bool, byte: u8) -> bool
    ensures { result ≡ is_open_behind in_comment byte }
{
    if in_comment {
        !(byte == b'\r' || byte == b'\n')
    } else {
        byte == b'#'
    }
}

/// The number at a place, which stops at 65536, and where its digits end.
pub fn read_netpbm_digits(bytes: &[u8], start: usize) -> (u32, usize)
    requires { start ≤ length bytes.now }
    ensures value { result.0
        ≡ min 65536 (digits_value 10 (digits_in_front (drop start bytes.now))) }
    ensures end { result.1 ≡ start + digits_len (drop start bytes.now) }
    ensures within { result.1 ≤ length bytes.now }
{
    let mut at = start;
    let mut value = 0;
    while at < bytes.len() && bytes[at].is_ascii_digit() {
        value = TOO_BIG.min(value * 10 + u32::from(bytes[at] - b'0'));
        at += 1;
    }
    (value, at)
}

/// The fault where a number should be: there is none, or the bytes are cut.
pub fn report_missing_netpbm_number(bytes: &[u8], at: usize, cut: PicFault) -> PicFault
    ensures { result ≡ stop cut bytes.now at }
{
    if at < bytes.len() {
        PicFault::BadNumber(at)
    } else {
        cut
    }
}
