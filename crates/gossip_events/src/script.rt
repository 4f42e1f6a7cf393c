//! Scripts.

ghost use Rattle.std.specs.Prelude.{IfErr, IfOk};
ghost use Rattle.gossip_events.specs.ScriptFaults.{IsScriptFault};
ghost use Rattle.gossip_events.specs.Scripts.{AreEvents, lines};

use crate::event::Event;
use crate::fault::ScriptFault;
use crate::line::parse_script_line_into_events;
use catalog::Catalog;
use std::alloc::Global;

/// The events that the lines of a text specify, in order, or the first fault of the text.
///
/// LF or the end of the text ends a line. Empty lines and lines that begin with `#` are passed over. Any other line is one of
/// `make N KEY`, `retire N JOB`, `send N M KEY..` (zero or more keys), `deliver N K`, `merge A B`, `keep N` and `restart N`, with
/// one blank between its words. Nodes are numbers up to 255, messages and jobs are numbers up to 4,294,967,295, and a key is
/// `JOB:STAGE:ROW:COL`. JOB counts the jobs of the catalog from 0.
pub fn parse_script(alloc: Global, jobs: &Catalog, text: &[u8]) -> Result<Vec<Event>, ScriptFault>
    // The events are those of the text's lines.
    ensures events { IfOk result (λ events. AreEvents jobs.now (lines text.now) events.items) }

    // A fault is the first one of the text, at its line; memory is refused only for a line that specifies an event.
    ensures fault { IfErr result (IsScriptFault jobs.now text.now) }
{
    let mut events = Vec::new(alloc);
    let mut number = 0;
    for line in text.split(|byte| *byte == b'\n') {
        number += 1;
        parse_script_line_into_events(alloc, jobs, number, line, &mut events)?;
    }
    Ok(events)
}
