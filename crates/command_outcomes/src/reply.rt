//! What a command has to write.

ghost use Rattle.std.specs.Prelude.{[]};
ghost use Rattle.std.specs.Option.{option_map_or};
ghost use Rattle.netpbm.specs.Spelling.{spelling};
ghost use Rattle.command_faults.specs.Taking.{Takes};
ghost use Rattle.command_outcomes.specs.Replies.{reply_bytes};

use netpbm::{Picture, write_raw};
use streams::{Sink, WriteFailed, write_all_bytes};

/// A picture, if there is one, and lines after it.
#[derive(Debug, Drop)]
pub struct JobReply {
    pub picture: Option<Picture>,
    pub lines: Vec<u8>,
}

impl JobReply {
    ghost use Rattle.std.specs.Prelude.{◌≡◌};
    ghost use Rattle.command_outcomes.specs.Replies.{reply_bytes};

    /// Lines alone.
    pub fn from_lines(lines: Vec<u8>) -> JobReply
        ensures { reply_bytes result ≡ lines.items }
    {
        JobReply {
            picture: None,
            lines,
        }
    }
}

/// Writes the raw spelling of the picture, if there is one, then the lines. It allocates no memory.
pub fn write_job_reply<W: Sink>(reply: &JobReply, writer: &mut W) -> Result<(), WriteFailed>
    ensures { Takes result (reply_bytes reply.now) (W.contents writer.old) (W.contents writer.new)
        (W.failures writer.old) (W.failures writer.new) }
{
    write_job_reply_picture_if_any(&reply.picture, writer)?;
    write_all_bytes(writer, reply.lines.as_slice())
}

fn write_job_reply_picture_if_any<W: Sink>(
    picture: &Option<Picture>,
    writer: &mut W,
) -> Result<(), WriteFailed>
    ensures { Takes result (option_map_or spelling picture.now [])
        (W.contents writer.old) (W.contents writer.new)
        (W.failures writer.old) (W.failures writer.new) }
{
    match picture {
        Some(picture) => write_raw(picture, writer),
        None => Ok(()),
    }
}
