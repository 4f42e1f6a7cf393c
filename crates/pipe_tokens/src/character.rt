//! The bytes that a text is made of.

ghost use Rattle.std.specs.Prelude.{◌≡◌};
ghost use Rattle.pipe_tokens.specs.Character as character;

/// Whether the byte is a blank, a TAB, a CR or an LF.
pub fn is_white_byte(byte: u8) -> bool
    ensures { result ≡ character.is_white byte }
{
    byte == b' ' || byte == b'\t' || byte == b'\r' || byte == b'\n'
}

/// Whether the byte continues a comment: an LF ends it, and a byte of 128 or more is part of no text.
pub fn is_comment_byte(byte: u8) -> bool
    ensures { result ≡ character.is_comment_byte byte }
{
    byte < 128 && byte != b'\n'
}

/// Whether the byte continues a name.
pub fn is_name_byte(byte: u8) -> bool
    ensures { result ≡ character.is_name_byte byte }
{
    byte.is_ascii_alphanumeric() || byte == b'_'
}
