//! All bytes of an input.

ghost use Rattle.std.specs.Prelude.{◌≡◌, ◌≤◌, IfOk, IfErr, IfSome, length};
ghost use Rattle.command_outcomes.specs.Outcomes.{CountsRead, CountsWritten, IsOfReader, most_input};

use command_faults::StreamFault;
use std::alloc::Global;
use streams::{Source, SourceFault, read_all_bytes_within_limit};

/// The most bytes of an input.
const MAX_INPUT: usize = 536_870_912;

/// All bytes of the input.
pub fn read_command_input_bytes<R: Source>(
    alloc: Global,
    reader: &mut R,
) -> Result<Vec<u8>, StreamFault>
    ensures whole { IfOk result
        (λ input. IfSome (R.remaining reader.old) (λ all. input.items ≡ all)) }
    ensures within { IfOk result (λ input. length input.items ≤ most_input) }
    ensures read { CountsRead result (R.failures reader.old) (R.failures reader.new) }
    ensures fault { IfErr result (IsOfReader (R.remaining reader.old)) }
    ensures no_write { CountsWritten result 0 0 }
{
    match read_all_bytes_within_limit(alloc, reader, MAX_INPUT) {
        Ok(input) => Ok(input),
        Err(SourceFault::Failed) => Err(StreamFault::Read),
        Err(SourceFault::TooLong) => Err(StreamFault::TooLong),
        Err(SourceFault::Memory) => Err(StreamFault::Memory),
    }
}
