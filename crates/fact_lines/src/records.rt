//! The digits of facts, one part after the other.

ghost use Rattle.hex.specs.Hex.{encode_lower};
ghost use Rattle.std.specs.Int.{w32, w64};
ghost use Rattle.std.specs.List.{flat_map};
ghost use Rattle.std.specs.Prelude.{◌≡◌, ◌++◌, length};
ghost use Rattle.tile_fact.specs.FactFile.{fact_record, number_bytes, records_of};
ghost use Rattle.write_buffer.specs.Passing.{Puts};
ghost use Rattle.fact_lines.specs.inside.Labels.{label_bytes};

use streams::{Sink, WriteFailed};
use tile_fact::{Body, Fact};
use write_buffer::WriteBuffer;

/// Puts the digits of the count of the facts and of their records.
pub fn put_hex_fact_count_and_records<W: Sink>(
    buffer: &mut WriteBuffer,
    writer: &mut W,
    count: u32,
    facts: &[Fact],
) -> Result<(), WriteFailed>
    requires { count ≡ length facts.now }
    ensures { Puts result (encode_lower (records_of facts.now)) buffer.old buffer.new
        (W.contents writer.old) (W.contents writer.new)
        (W.failures writer.old) (W.failures writer.new) }
{
    buffer.put_hex(writer, &count.to_be_bytes())?;
    put_hex_fact_records(buffer, writer, facts)
}

fn put_hex_fact_records<W: Sink>(
    buffer: &mut WriteBuffer,
    writer: &mut W,
    facts: &[Fact],
) -> Result<(), WriteFailed>
    ensures { Puts result (flat_map (λ fact. encode_lower (fact_record fact)) facts.now)
        buffer.old buffer.new (W.contents writer.old) (W.contents writer.new)
        (W.failures writer.old) (W.failures writer.new) }
{
    for fact in facts {
        put_hex_fact_record(buffer, writer, fact)?;
    }
    Ok(())
}

fn put_hex_fact_record<W: Sink>(
    buffer: &mut WriteBuffer,
    writer: &mut W,
    fact: &Fact,
) -> Result<(), WriteFailed>
    ensures { Puts result (encode_lower (fact_record fact.now)) buffer.old buffer.new
        (W.contents writer.old) (W.contents writer.new)
        (W.failures writer.old) (W.failures writer.new) }
{
    put_hex_fact_record_key_kind_and_count(buffer, writer, fact)?;
    match fact.body() {
        Body::Tile(samples) => put_hex_fact_samples(buffer, writer, samples.as_slice()),
        Body::Partial(bins) => put_hex_fact_bins(buffer, writer, bins.as_slice()),
    }
}

// What comes before the numbers.
fn put_hex_fact_record_key_kind_and_count<W: Sink>(
    buffer: &mut WriteBuffer,
    writer: &mut W,
    fact: &Fact,
) -> Result<(), WriteFailed>
    ensures { Puts result (encode_lower (label_bytes fact.now)) buffer.old buffer.new
        (W.contents writer.old) (W.contents writer.new)
        (W.failures writer.old) (W.failures writer.new) }
{
    let (kind, count) = match fact.body() {
        Body::Tile(samples) => (0, samples.as_slice().len()),
        Body::Partial(bins) => (1, bins.as_slice().len()),
    };
    let key = fact.key();
    buffer.put_hex_slices(
        writer,
        &[
            key.program.as_bytes(),
            key.input.as_bytes(),
            &key.stage.to_be_bytes(),
            &key.row.to_be_bytes(),
            &key.col.to_be_bytes(),
            &[kind],
            &(count as u32).to_be_bytes(),
        ],
    )
}

fn put_hex_fact_samples<W: Sink>(
    buffer: &mut WriteBuffer,
    writer: &mut W,
    samples: &[i32],
) -> Result<(), WriteFailed>
    ensures { Puts result (flat_map (λ sample. encode_lower (number_bytes w32 sample)) samples.now)
        buffer.old buffer.new (W.contents writer.old) (W.contents writer.new)
        (W.failures writer.old) (W.failures writer.new) }
{
    for sample in samples {
        buffer.put_hex(writer, &sample.to_be_bytes())?;
    }
    Ok(())
}

fn put_hex_fact_bins<W: Sink>(
    buffer: &mut WriteBuffer,
    writer: &mut W,
    bins: &[i64],
) -> Result<(), WriteFailed>
    ensures { Puts result (flat_map (λ bin. encode_lower (number_bytes w64 bin)) bins.now)
        buffer.old buffer.new (W.contents writer.old) (W.contents writer.new)
        (W.failures writer.old) (W.failures writer.new) }
{
    for bin in bins {
        buffer.put_hex(writer, &bin.to_be_bytes())?;
    }
    Ok(())
}
