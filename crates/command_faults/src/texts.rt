//! Writing texts into a writer, without memory.

ghost use Rattle.std.specs.Fmt.{decimal, signed_decimal};
ghost use Rattle.std.specs.List.{flat_map};
ghost use Rattle.std.specs.Prelude.{◌++◌};
ghost use Rattle.command_faults.specs.FaultLines.{head, name_text, offset_text};
ghost use Rattle.command_faults.specs.Taking.{Takes};

use itoa::Buffer;
use pipe_tokens::Name;
use streams::{Sink, WriteFailed, write_all_bytes};

/// Writes the text.
pub fn write_text_in_fault_line<W: Sink>(writer: &mut W, text: &[u8]) -> Result<(), WriteFailed>
    ensures { Takes result text.now (W.contents writer.old) (W.contents writer.new)
        (W.failures writer.old) (W.failures writer.new) }
{
    write_all_bytes(writer, text)
}

/// Writes the texts, one after another.
pub fn write_texts_in_fault_line<W: Sink>(
    writer: &mut W,
    texts: &[&[u8]],
) -> Result<(), WriteFailed>
    ensures { Takes result (flat_map (λ t. t.now) texts.now)
        (W.contents writer.old) (W.contents writer.new)
        (W.failures writer.old) (W.failures writer.new) }
{
    for text in texts {
        write_text_in_fault_line(writer, text)?;
    }
    Ok(())
}

/// The kind, the number and the name of a fault.
pub fn write_fault_head<W: Sink>(
    writer: &mut W,
    kind: &[u8],
    number: u8,
    name: &str,
) -> Result<(), WriteFailed>
    ensures { Takes result (head kind.now number name.now)
        (W.contents writer.old) (W.contents writer.new)
        (W.failures writer.old) (W.failures writer.new) }
{
    let mut digits = Buffer::new();
    write_texts_in_fault_line(
        writer,
        &[
            kind,
            b": ",
            digits.format(number).as_bytes(),
            b" ",
            name.as_bytes(),
        ],
    )
}

/// Where a fault is; 0 for one that has no place.
pub fn write_offset_or_zero_in_fault_line<W: Sink>(
    writer: &mut W,
    offset: Option<usize>,
) -> Result<(), WriteFailed>
    ensures { Takes result (offset_text offset) (W.contents writer.old) (W.contents writer.new)
        (W.failures writer.old) (W.failures writer.new) }
{
    write_fault_words_and_count(writer, b" at ", offset.unwrap_or(0))
}

/// The words, followed by a count.
pub fn write_fault_words_and_count<W: Sink>(
    writer: &mut W,
    words: &[u8],
    count: usize,
) -> Result<(), WriteFailed>
    ensures { Takes result (words.now ++ decimal count)
        (W.contents writer.old) (W.contents writer.new)
        (W.failures writer.old) (W.failures writer.new) }
{
    let mut digits = Buffer::new();
    write_texts_in_fault_line(writer, &[words, digits.format(count).as_bytes()])
}

/// The words, followed by an integer.
pub fn write_fault_words_and_integer<W: Sink>(
    writer: &mut W,
    words: &[u8],
    value: i32,
) -> Result<(), WriteFailed>
    ensures { Takes result (words.now ++ signed_decimal value)
        (W.contents writer.old) (W.contents writer.new)
        (W.failures writer.old) (W.failures writer.new) }
{
    let mut digits = Buffer::new();
    let digits = digits.format(value).as_bytes();
    write_texts_in_fault_line(writer, &[words, digits])
}

/// A name after a blank.
pub fn write_name_in_fault_line<W: Sink>(writer: &mut W, name: &Name) -> Result<(), WriteFailed>
    ensures { Takes result (name_text name.now) (W.contents writer.old) (W.contents writer.new)
        (W.failures writer.old) (W.failures writer.new) }
{
    write_texts_in_fault_line(writer, &[b" ", name.as_bytes()])
}
