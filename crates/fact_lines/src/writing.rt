//! Retired jobs and facts as the line of their file.

ghost use Rattle.std.specs.Io.KnownBytes.{Appends};
ghost use Rattle.std.specs.Prelude.{◌≡◌, ◌<◌, ◌≤◌, ◌^◌, ◌⊎◌, MatchOption, OnOk, OnErr, length};
ghost use Rattle.streams.specs.Streams.{AppendsPart, CountsFailure};
ghost use Rattle.write_buffer.specs.Passing.{Puts};
ghost use Rattle.hex.specs.Hex.{encode_lower};
ghost use Rattle.tile_fact.specs.FactFile.{fact_file};
ghost use Rattle.fact_lines.specs.Written.{AreCounts, written};

use crate::head::put_hex_fact_file_magic_and_retired_jobs;
use crate::records::put_hex_fact_count_and_records;
use identity::JobId;
use streams::{Sink, WriteFailed};
use tile_fact::Fact;
use write_buffer::WriteBuffer;

/// How many retired jobs and facts a fact file has.
#[derive(Clone, Copy, Debug)]
pub struct FactFileCounts {
    pub retired: u32,
    pub facts: u32,
}

/// How many there are, if a fact file can count them: none if there are more than 4,294,967,295 of either.
pub fn count_facts_and_jobs_for_fact_file_line(
    retired: &[JobId],
    facts: &[Fact],
) -> Option<FactFileCounts>
    ensures { MatchOption result ((2 ^ 32 ≤ length retired.now) ⊎ (2 ^ 32 ≤ length facts.now))
        (λ counts. AreCounts counts retired.now facts.now) }
{
    let retired = u32::try_from(retired.len()).ok()?;
    let facts = u32::try_from(facts.len()).ok()?;
    Some(FactFileCounts { retired, facts })
}

/// Writes the file of the retired jobs and the facts in lower-case hexadecimal digits, and LF. No memory is allocated: the digits
/// go through a buffer of fixed size.
pub fn write_fact_file_line_to_sink<W: Sink>(
    retired: &[JobId],
    facts: &[Fact],
    counts: FactFileCounts,
    writer: &mut W,
) -> Result<(), WriteFailed>
    requires { AreCounts counts retired.now facts.now }
    ensures ok { OnOk result (Appends (W.contents writer.old) (W.contents writer.new)
        (written retired.now facts.now)) }
    ensures part { OnErr result (AppendsPart (W.contents writer.old) (W.contents writer.new)
        (written retired.now facts.now)) }
    ensures failed { CountsFailure result (W.failures writer.old) (W.failures writer.new) }
{
    let mut buffer = WriteBuffer::new();
    put_fact_file_line(&mut buffer, writer, retired, facts, counts)?;
    buffer.flush(writer)
}

/// Puts the same after what waits to be written.
pub fn put_fact_file_line<W: Sink>(
    buffer: &mut WriteBuffer,
    writer: &mut W,
    retired: &[JobId],
    facts: &[Fact],
    counts: FactFileCounts,
) -> Result<(), WriteFailed>
    requires { AreCounts counts retired.now facts.now }
    ensures { Puts result (written retired.now facts.now) buffer.old buffer.new
        (W.contents writer.old) (W.contents writer.new)
        (W.failures writer.old) (W.failures writer.new) }
{
    put_hex_fact_file(buffer, writer, retired, facts, counts)?;
    buffer.put_bytes(writer, b"\n")
}

// Puts the digits of the file.
fn put_hex_fact_file<W: Sink>(
    buffer: &mut WriteBuffer,
    writer: &mut W,
    retired: &[JobId],
    facts: &[Fact],
    counts: FactFileCounts,
) -> Result<(), WriteFailed>
    requires { AreCounts counts retired.now facts.now }
    ensures { Puts result (encode_lower (fact_file retired.now facts.now)) buffer.old buffer.new
        (W.contents writer.old) (W.contents writer.new)
        (W.failures writer.old) (W.failures writer.new) }
{
    put_hex_fact_file_magic_and_retired_jobs(buffer, writer, counts.retired, retired)?;
    put_hex_fact_count_and_records(buffer, writer, counts.facts, facts)
}
