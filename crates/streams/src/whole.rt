//! All bytes of a reader, and all bytes into a writer.
ghost use Rattle.std.specs.Prelude.{◌≡◌, ◌<◌, ◌≤◌, ◌-◌, ◌^◌, length, vec_len, IfOk, IfSome, OnOk, OnErr, IsErrOf};
ghost use Rattle.std.specs.Io.KnownBytes.{Appends, Consumes, IsAtEnd};
ghost use Rattle.streams.specs.Streams.{AppendsPart, CountsFailure};
ghost use Rattle.streams.specs.Wholes.{CountsWholeRead};

use crate::stream::{Sink, Source};
use std::alloc::{AllocError, Global};
use thiserror::Error;

/// Why a reader was not read to its end.
#[derive(Clone, Copy, Debug, PartialEq, Eq, Error)]
pub enum SourceFault {
    #[error("the reader failed")]
    Failed,
    #[error("the input is too long")]
    TooLong,
    #[error("out of memory")]
    Memory,
}

/// The writer failed or took nothing.
#[derive(Clone, Copy, Debug, PartialEq, Eq, Error)]
#[error("the writer failed")]
pub struct WriteFailed;

// How many bytes one call requests at most.
const PIECE: usize = 65536;

/// Reads to the end, if it comes after at most `limit` bytes.
pub fn read_all_bytes_within_limit<R: Source>(
    alloc: Global,
    reader: &mut R,
    limit: usize,
) -> Result<Vec<u8>, SourceFault>
    ensures whole { IfOk result
        (λ bytes. IfSome (R.remaining reader.old) (λ all. bytes.items ≡ all)) }
    ensures end { OnOk result (IsAtEnd (R.remaining reader.new)) }
    ensures within { IfOk result (λ bytes. vec_len bytes ≤ limit) }
    ensures too_long { IsErrOf result SourceFault.TooLong
        → IfSome (R.remaining reader.old) (λ all. limit < length all) }
    ensures failed { CountsWholeRead result (R.failures reader.old) (R.failures reader.new) }
{
    let mut piece = [0u8; PIECE];
    let mut bytes = Vec::new(alloc);
    while bytes.len() <= limit {
        match reader.read(&mut piece) {
            Ok(0) => return Ok(bytes),
            Ok(count) => {
                let added: Result<(), AllocError> = bytes.extend_from_slice(&piece[..count]);
                if added.is_err() {
                    return Err(SourceFault::Memory);
                }
            }
            Err(_) => return Err(SourceFault::Failed),
        }
    }
    Err(SourceFault::TooLong)
}

/// Writes all of the bytes, in as many calls as the writer needs.
pub fn write_all_bytes<W: Sink>(writer: &mut W, bytes: &[u8]) -> Result<(), WriteFailed>
    ensures ok { OnOk result (Appends (W.contents writer.old) (W.contents writer.new) bytes.now) }
    ensures part { OnErr result
        (AppendsPart (W.contents writer.old) (W.contents writer.new) bytes.now) }
    ensures failed { CountsFailure result (W.failures writer.old) (W.failures writer.new) }
{
    let mut done = 0;
    while done < bytes.len() {
        match writer.write(&bytes[done..]) {
            Ok(0) | Err(_) => return Err(WriteFailed),
            Ok(count) => done += count,
        }
    }
    Ok(())
}
