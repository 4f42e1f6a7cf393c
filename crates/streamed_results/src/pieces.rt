#![tactic(auto)]
//! Rows that are made and written piece by piece.

ghost use Rattle.std.specs.Prelude.{◌≡◌, ◌<◌, ◌≤◌, ◌*◌, length, IfOk};
ghost use Rattle.command_faults.specs.Taking.{Takes};
ghost use Rattle.job.specs.Kept.{pipeline_in};
ghost use Rattle.job.specs.Views.{output_view};
ghost use Rattle.raw_rows.specs.Rows.{bytes_per_row};
ghost use Rattle.streamed_results.specs.Pieces.{bytes_left, bytes_up_to, HasPieceRoom};

use row_streams::RowStream;
use std::alloc::{AllocError, Global};
use streams::{Sink, WriteFailed, write_all_bytes};

/// How many bytes a piece has at most, where it has more than one row.
const PIECE: usize = 65_536;

/// A stream of rows, with a buffer for some of them. No memory is taken any more.
#[derive(Drop)]
pub(crate) struct StreamedPieces<'a> {
    stream: RowStream<'a>,
    buffer: Vec<u8>,
    // How many rows have room in the buffer.
    rows: usize,
    ghost some: { 0 < rows },
    ghost few: { rows ≤ 4096 },
    ghost room: { length buffer.items
        ≡ rows * bytes_per_row (pipeline_in stream.steps.job.now) (output_view stream.output.now) },
}

impl<'a> StreamedPieces<'a> {
    /// The rows of a stream.
    ///
    /// # Errors
    ///
    /// Fails only where memory is refused.
    pub(crate) fn new(
        alloc: Global,
        stream: RowStream<'a>,
    ) -> Result<StreamedPieces<'a>, AllocError>
        ensures { IfOk result (λ pieces. pieces.stream ≡ stream.entry) }
    {
        let rows = (PIECE / stream.count_bytes_of_streamed_rows(1).max(1))
            .min(stream.count_streamed_rows_left())
            .clamp(1, 4096);
        let buffer = vec![in alloc; 0u8; stream.count_bytes_of_streamed_rows(rows)]?;
        Ok(StreamedPieces {
            stream,
            buffer,
            rows,
        })
    }

    /// Makes and writes all rows that the stream has left.
    pub(crate) fn write_all_streamed_pieces<W: Sink>(
        self,
        writer: &mut W,
    ) -> Result<(), WriteFailed>
        ensures { Takes result (bytes_left self.entry.stream)
            (W.contents writer.old) (W.contents writer.new)
            (W.failures writer.old) (W.failures writer.new) }
    {
        let StreamedPieces {
            mut stream,
            mut buffer,
            rows,
        } = self;
        write_each_streamed_piece(&mut stream, &mut buffer, rows, writer)
    }
}

// Makes and writes all rows that the stream has left, so many of them at a time.
fn write_each_streamed_piece<W: Sink>(
    stream: &mut RowStream<'_>,
    buffer: &mut [u8],
    rows: usize,
    writer: &mut W,
) -> Result<(), WriteFailed>
    requires some { 0 < rows }
    requires few { rows ≤ 4096 }
    requires room { HasPieceRoom rows stream.old buffer.old }
    ensures { Takes result (bytes_left stream.old) (W.contents writer.old) (W.contents writer.new)
        (W.failures writer.old) (W.failures writer.new) }
{
    while stream.count_streamed_rows_left() > 0 {
        write_next_streamed_piece(stream, buffer, rows, writer)?;
    }
    Ok(())
}

// Makes and writes so many of the rows that are left, or all of them if they are fewer.
fn write_next_streamed_piece<W: Sink>(
    stream: &mut RowStream<'_>,
    buffer: &mut [u8],
    rows: usize,
    writer: &mut W,
) -> Result<(), WriteFailed>
    requires left { stream.old.steps.row < stream.old.steps.end }
    requires some { 0 < rows }
    requires few { rows ≤ 4096 }
    requires room { HasPieceRoom rows stream.old buffer.old }
    ensures on { stream.old.steps.row < stream.new.steps.row }
    ensures within { stream.new.steps.row ≤ stream.new.steps.end }
    ensures job { stream.new.steps.job ≡ stream.old.steps.job }
    ensures output { stream.new.output ≡ stream.old.output }
    ensures end { stream.new.steps.end ≡ stream.old.steps.end }
    ensures written { Takes result (bytes_up_to stream.old stream.new.steps.row)
        (W.contents writer.old) (W.contents writer.new)
        (W.failures writer.old) (W.failures writer.new) }
{
    let count = rows.min(stream.count_streamed_rows_left());
    let len = stream.count_bytes_of_streamed_rows(count);
    stream.encode_next_streamed_rows(&mut buffer[..len], count);
    write_all_bytes(writer, &buffer[..len])
}
