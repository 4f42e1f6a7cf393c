//! The digits before the facts.

ghost use Rattle.hex.specs.Hex.{encode_lower};
ghost use Rattle.std.specs.List.{flat_map};
ghost use Rattle.std.specs.Prelude.{◌≡◌, length};
ghost use Rattle.tile_fact.specs.FactFile.{head_of, ids_bytes};
ghost use Rattle.write_buffer.specs.Passing.{Puts};

use identity::JobId;
use streams::{Sink, WriteFailed};
use write_buffer::WriteBuffer;

/// Puts the digits of the magic, and of the retired jobs where there are any.
pub fn put_hex_fact_file_magic_and_retired_jobs<W: Sink>(
    buffer: &mut WriteBuffer,
    writer: &mut W,
    count: u32,
    retired: &[JobId],
) -> Result<(), WriteFailed>
    requires { count ≡ length retired.now }
    ensures { Puts result (encode_lower (head_of retired.now)) buffer.old buffer.new
        (W.contents writer.old) (W.contents writer.new)
        (W.failures writer.old) (W.failures writer.new) }
{
    if retired.is_empty() {
        buffer.put_hex(writer, b"PTF1")
    } else {
        buffer.put_hex_slices(writer, &[b"PTF2", &count.to_be_bytes()])?;
        put_hex_retired_job_ids_without_count(buffer, writer, retired)
    }
}

fn put_hex_retired_job_ids_without_count<W: Sink>(
    buffer: &mut WriteBuffer,
    writer: &mut W,
    jobs: &[JobId],
) -> Result<(), WriteFailed>
    ensures { Puts result (flat_map (λ job. encode_lower (ids_bytes job)) jobs.now)
        buffer.old buffer.new (W.contents writer.old) (W.contents writer.new)
        (W.failures writer.old) (W.failures writer.new) }
{
    for job in jobs {
        put_hex_retired_job_id(buffer, writer, job)?;
    }
    Ok(())
}

fn put_hex_retired_job_id<W: Sink>(
    buffer: &mut WriteBuffer,
    writer: &mut W,
    job: &JobId,
) -> Result<(), WriteFailed>
    ensures { Puts result (encode_lower (ids_bytes job.now)) buffer.old buffer.new
        (W.contents writer.old) (W.contents writer.new)
        (W.failures writer.old) (W.failures writer.new) }
{
    buffer.put_hex_slices(writer, &[job.program.as_bytes(), job.input.as_bytes()])
}
