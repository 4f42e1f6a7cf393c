//! Identities, which are SHA-256 digests. What is digested is defined in the crates that make them.

ghost use Rattle.std.specs.Prelude.{◌≡◌, ◌<◌, Some};
ghost use Rattle.std.specs.Fmt.{WritesOnOk};
ghost use Rattle.identity.specs.Hexadecimal.{hex_digit, hex_byte, hex_text};

use std::fmt;
use std::marker::Model;

/// The identity of a program: the SHA-256 digest of its canonical text.
#[derive(Clone, Copy, Debug, PartialEq, Eq, PartialOrd, Ord, Hash)]
pub struct ProgramId {
    bytes: [u8; 32],
}

impl Model for ProgramId {
    ghost use Rattle.std.specs.Prelude.{ℕ, List};

    ghost Value = { List ℕ };

    ghost view = { λ id. id.bytes };

    ghost inverse = { λ bytes. record { bytes = bytes } };
}

impl ProgramId {
    /// The identity that has these bytes.
    pub fn new(bytes: [u8; 32]) -> ProgramId
        ensures { result ≡ bytes }
    {
        ProgramId { bytes }
    }

    /// The bytes of the digest.
    pub fn as_bytes(&self) -> &[u8; 32]
        ensures { result.now ≡ self.now }
    {
        &self.bytes
    }
}

/// The digest in hexadecimal digits, two for each byte.
impl fmt::Display for ProgramId {
    ghost output = { λ id. Some (hex_text id) };

    fn fmt<W: fmt::Write>(&self, f: &mut fmt::Formatter<W>) -> fmt::Result {
        write_hex_digest(&self.bytes, f)
    }
}

/// The identity of a program's input: the SHA-256 digest of the sides of the tiles, the parameters, the tables and the picture.
#[derive(Clone, Copy, Debug, PartialEq, Eq, PartialOrd, Ord, Hash)]
pub struct InputId {
    bytes: [u8; 32],
}

impl Model for InputId {
    ghost use Rattle.std.specs.Prelude.{ℕ, List};

    ghost Value = { List ℕ };

    ghost view = { λ id. id.bytes };

    ghost inverse = { λ bytes. record { bytes = bytes } };
}

impl InputId {
    /// The identity that has these bytes.
    pub fn new(bytes: [u8; 32]) -> InputId
        ensures { result ≡ bytes }
    {
        InputId { bytes }
    }

    /// The bytes of the digest.
    pub fn as_bytes(&self) -> &[u8; 32]
        ensures { result.now ≡ self.now }
    {
        &self.bytes
    }
}

/// The digest in hexadecimal digits, two for each byte.
impl fmt::Display for InputId {
    ghost output = { λ id. Some (hex_text id) };

    fn fmt<W: fmt::Write>(&self, f: &mut fmt::Formatter<W>) -> fmt::Result {
        write_hex_digest(&self.bytes, f)
    }
}

fn encode_hex_digit(value: u8) -> char
    requires { value < 16 }
    ensures { result ≡ hex_digit value }
{
    if value < 10 {
        (b'0' + value) as char
    } else {
        (b'a' - 10 + value) as char
    }
}

fn write_hex_byte<W: fmt::Write>(byte: u8, f: &mut fmt::Formatter<W>) -> fmt::Result
    ensures { WritesOnOk W.write_str_gives f.old result (hex_byte byte) f.new }
{
    f.write_char(encode_hex_digit(byte / 16))?;
    f.write_char(encode_hex_digit(byte % 16))
}

// Two hexadecimal digits for each byte.
fn write_hex_digest<W: fmt::Write>(bytes: &[u8; 32], f: &mut fmt::Formatter<W>) -> fmt::Result
    ensures { WritesOnOk W.write_str_gives f.old result (hex_text bytes.now) f.new }
{
    for byte in bytes {
        write_hex_byte(*byte, f)?;
    }
    Ok(())
}
