//! A buffer of fixed size before a writer.

ghost use Rattle.hex.specs.Hex.{encode_lower};
ghost use Rattle.std.specs.Fmt.{decimal};
ghost use Rattle.std.specs.Io.KnownBytes.{Appends};
ghost use Rattle.std.specs.List.{flat_map};
ghost use Rattle.std.specs.Prelude.{◌≡◌, [], ◌∷◌, OnOk, OnErr};
ghost use Rattle.streams.specs.Streams.{AppendsPart, CountsFailure};
ghost use Rattle.write_buffer.specs.Passing.{Puts};

use arrayvec::ArrayVec;
use itoa::Buffer;
use std::marker::Model;
use streams::{Sink, WriteFailed, write_all_bytes};

const ROOM: usize = 4096;

const DIGITS: &[u8; 16] = b"0123456789abcdef";

/// Bytes that wait to be written. They are written when there is no room for more. It allocates no memory. Once the writer has
/// failed, the buffer is of no further use.
#[derive(Debug, Drop)]
pub struct WriteBuffer {
    bytes: ArrayVec<u8, ROOM>,
}

impl Model for WriteBuffer {
    ghost use Rattle.std.specs.Prelude.{ℕ, List};

    ghost Value = { List ℕ };

    ghost view = { λ b. b.bytes.items };
}

impl WriteBuffer {
    /// A buffer in which no byte waits.
    pub fn new() -> WriteBuffer
        ensures { result ≡ [] }
    {
        WriteBuffer {
            bytes: ArrayVec::new(),
        }
    }

    /// Puts bytes after those that wait.
    pub fn put_bytes<W: Sink>(&mut self, writer: &mut W, bytes: &[u8]) -> Result<(), WriteFailed>
        ensures { Puts result bytes.now self.old self.new
            (W.contents writer.old) (W.contents writer.new)
            (W.failures writer.old) (W.failures writer.new) }
    {
        let Err(_) = self.bytes.try_extend_from_slice(bytes) else {
            return Ok(());
        };
        self.flush_and_put_bytes(writer, bytes)
    }

    // Writes all bytes that wait, and lets these wait instead; or writes these too, if there is no room for all of them.
    fn flush_and_put_bytes<W: Sink>(
        &mut self,
        writer: &mut W,
        bytes: &[u8],
    ) -> Result<(), WriteFailed>
        ensures { Puts result bytes.now self.old self.new
            (W.contents writer.old) (W.contents writer.new)
            (W.failures writer.old) (W.failures writer.new) }
    {
        self.flush(writer)?;
        let Err(_) = self.bytes.try_extend_from_slice(bytes) else {
            return Ok(());
        };
        write_all_bytes(writer, bytes)
    }

    /// Puts the parts, one after the other.
    pub fn put_slices<W: Sink>(
        &mut self,
        writer: &mut W,
        parts: &[&[u8]],
    ) -> Result<(), WriteFailed>
        ensures { Puts result (flat_map (λ part. part.now) parts.now) self.old self.new
            (W.contents writer.old) (W.contents writer.new)
            (W.failures writer.old) (W.failures writer.new) }
    {
        for part in parts {
            self.put_bytes(writer, part)?;
        }
        Ok(())
    }

    /// Puts two lower-case hexadecimal digits for each of the bytes.
    pub fn put_hex<W: Sink>(&mut self, writer: &mut W, bytes: &[u8]) -> Result<(), WriteFailed>
        ensures { Puts result (encode_lower bytes.now) self.old self.new
            (W.contents writer.old) (W.contents writer.new)
            (W.failures writer.old) (W.failures writer.new) }
    {
        for byte in bytes {
            self.put_bytes(writer, &encode_hex_pair(*byte))?;
        }
        Ok(())
    }

    /// Puts two lower-case hexadecimal digits for each byte of the parts, one after the other.
    pub fn put_hex_slices<W: Sink>(
        &mut self,
        writer: &mut W,
        parts: &[&[u8]],
    ) -> Result<(), WriteFailed>
        ensures { Puts result (encode_lower (flat_map (λ part. part.now) parts.now)) self.old self.new
            (W.contents writer.old) (W.contents writer.new)
            (W.failures writer.old) (W.failures writer.new) }
    {
        for part in parts {
            self.put_hex(writer, part)?;
        }
        Ok(())
    }

    /// Puts the decimal digits of a number.
    pub fn put_decimal<W: Sink>(&mut self, writer: &mut W, number: u64) -> Result<(), WriteFailed>
        ensures { Puts result (decimal number) self.old self.new
            (W.contents writer.old) (W.contents writer.new)
            (W.failures writer.old) (W.failures writer.new) }
    {
        let mut digits = Buffer::new();
        self.put_bytes(writer, digits.format(number).as_bytes())
    }

    /// Writes all bytes that wait, after which none does.
    pub fn flush<W: Sink>(&mut self, writer: &mut W) -> Result<(), WriteFailed>
        ensures ok { OnOk result (Appends (W.contents writer.old) (W.contents writer.new) self.old) }
        ensures part { OnErr result
            (AppendsPart (W.contents writer.old) (W.contents writer.new) self.old) }
        ensures failed { CountsFailure result (W.failures writer.old) (W.failures writer.new) }
        ensures none { OnOk result (self.new ≡ []) }
    {
        write_all_bytes(writer, self.bytes.as_slice())?;
        self.bytes.clear();
        Ok(())
    }
}

// The lower-case hexadecimal digits of a byte.
fn encode_hex_pair(byte: u8) -> [u8; 2]
    ensures { result ≡ encode_lower (byte ∷ []) }
{
    [
        DIGITS[usize::from(byte / 16)],
        DIGITS[usize::from(byte % 16)],
    ]
}
