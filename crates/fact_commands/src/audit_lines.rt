//! The verdicts on facts, and which jobs are retired, as lines.

ghost use Rattle.std.specs.Io.KnownBytes.{Appends};
ghost use Rattle.std.specs.List.{flat_map, zip};
ghost use Rattle.std.specs.Prelude.{◌≡◌, OnOk, OnErr, length};
ghost use Rattle.streams.specs.Streams.{AppendsPart, CountsFailure};
ghost use Rattle.fact_commands.specs.Verdicts.{audit_lines, retired_line, verdict_line, verdict_lines, verdict_word};
ghost use Rattle.hex.specs.Hex.{encode_lower};
ghost use Rattle.write_buffer.specs.Passing.{Puts};

use fact_audit::Verdict;
use identity::JobId;
use itoa::Buffer;
use streams::{Sink, WriteFailed};
use tile_fact::Fact;
use write_buffer::WriteBuffer;

/// Writes a line for each fact: the verdict, its stage, its row and its column. After them it writes a line for each retired job.
/// No memory is allocated: the lines go through a buffer of fixed size.
pub fn write_audit_lines<W: Sink>(
    facts: &[Fact],
    verdicts: &[Verdict],
    retired: &[JobId],
    writer: &mut W,
) -> Result<(), WriteFailed>
    requires { length verdicts.now ≡ length facts.now }
    ensures ok { OnOk result (Appends (W.contents writer.old) (W.contents writer.new)
        (audit_lines facts.now verdicts.now retired.now)) }
    ensures part { OnErr result (AppendsPart (W.contents writer.old) (W.contents writer.new)
        (audit_lines facts.now verdicts.now retired.now)) }
    ensures failed { CountsFailure result (W.failures writer.old) (W.failures writer.new) }
{
    let mut buffer = WriteBuffer::new();
    put_audit_lines(&mut buffer, writer, facts, verdicts, retired)?;
    buffer.flush(writer)
}

fn put_audit_lines<W: Sink>(
    buffer: &mut WriteBuffer,
    writer: &mut W,
    facts: &[Fact],
    verdicts: &[Verdict],
    retired: &[JobId],
) -> Result<(), WriteFailed>
    requires { length verdicts.now ≡ length facts.now }
    ensures { Puts result (audit_lines facts.now verdicts.now retired.now) buffer.old buffer.new
        (W.contents writer.old) (W.contents writer.new)
        (W.failures writer.old) (W.failures writer.new) }
{
    put_audit_verdict_lines(buffer, writer, facts, verdicts)?;
    put_retirement_audit_lines(buffer, writer, retired)
}

fn put_retirement_audit_lines<W: Sink>(
    buffer: &mut WriteBuffer,
    writer: &mut W,
    retired: &[JobId],
) -> Result<(), WriteFailed>
    ensures { Puts result (flat_map retired_line retired.now) buffer.old buffer.new
        (W.contents writer.old) (W.contents writer.new)
        (W.failures writer.old) (W.failures writer.new) }
{
    for job in retired {
        put_retirement_audit_line(buffer, writer, job)?;
    }
    Ok(())
}

fn put_retirement_audit_line<W: Sink>(
    buffer: &mut WriteBuffer,
    writer: &mut W,
    job: &JobId,
) -> Result<(), WriteFailed>
    ensures { Puts result (retired_line job.now) buffer.old buffer.new
        (W.contents writer.old) (W.contents writer.new)
        (W.failures writer.old) (W.failures writer.new) }
{
    let program = encode_id_in_hex_for_audit_line(job.program.as_bytes());
    let input = encode_id_in_hex_for_audit_line(job.input.as_bytes());
    buffer.put_slices(writer, &[b"Retired ", &program, b" ", &input, b"\n"])
}

// Two lower-case hexadecimal digits for each byte.
fn encode_id_in_hex_for_audit_line(bytes: &[u8; 32]) -> [u8; 64]
    ensures { result ≡ encode_lower bytes.now }
{
    let mut digits = [0; 64];
    match hex::encode_to_slice(bytes.as_slice(), &mut digits) {
        Ok(()) => digits,
        Err(_) => unreachable!(),
    }
}

fn put_audit_verdict_lines<W: Sink>(
    buffer: &mut WriteBuffer,
    writer: &mut W,
    facts: &[Fact],
    verdicts: &[Verdict],
) -> Result<(), WriteFailed>
    requires { length verdicts.now ≡ length facts.now }
    ensures { Puts result (verdict_lines facts.now verdicts.now) buffer.old buffer.new
        (W.contents writer.old) (W.contents writer.new)
        (W.failures writer.old) (W.failures writer.new) }
{
    for (fact, verdict) in facts.iter().zip(verdicts) {
        put_audit_verdict_line(buffer, writer, fact, *verdict)?;
    }
    Ok(())
}

fn put_audit_verdict_line<W: Sink>(
    buffer: &mut WriteBuffer,
    writer: &mut W,
    fact: &Fact,
    verdict: Verdict,
) -> Result<(), WriteFailed>
    ensures { Puts result (verdict_line (fact.now, verdict)) buffer.old buffer.new
        (W.contents writer.old) (W.contents writer.new)
        (W.failures writer.old) (W.failures writer.new) }
{
    let key = fact.key();
    let mut stages = Buffer::new();
    let mut rows = Buffer::new();
    let mut cols = Buffer::new();
    buffer.put_slices(
        writer,
        &[
            choose_audit_verdict_word(verdict),
            b" ",
            stages.format(key.stage).as_bytes(),
            b" ",
            rows.format(key.row).as_bytes(),
            b" ",
            cols.format(key.col).as_bytes(),
            b"\n",
        ],
    )
}

fn choose_audit_verdict_word(verdict: Verdict) -> &'static [u8]
    ensures { result.now ≡ verdict_word verdict }
{
    match verdict {
        Verdict::Foreign => b"Foreign",
        Verdict::Misshapen => b"Misshapen",
        Verdict::True => b"True",
        Verdict::False => b"False",
    }
}
