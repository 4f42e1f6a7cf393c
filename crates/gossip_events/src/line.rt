//! One line of a script.

ghost use Rattle.std.specs.Prelude.{◌≡◌, ◌≢◌, ◌≤◌, IfErr, IfOk, OnOk, false, length};
ghost use Rattle.gossip_events.specs.ScriptFaults.{IsBadLine, IsLineFault, LacksJob};
ghost use Rattle.gossip_events.specs.Scripts.{SpellsOrder, TellsEvent, is_passed_over, words};
ghost use Rattle.gossip_events.specs.inside.Adding.{Adds};
ghost use Rattle.gossip_events.specs.declared.line.ScriptLineFault.TheVariants as faults;
ghost use Rattle.gossip_events.specs.declared.order.ScriptRequest.{ScriptRequest as OrderType};
ghost use Rattle.gossip_events.specs.declared.order.ScriptRequestFault.TheVariants.{NoRequest};

use crate::event::Event;
use crate::fault::ScriptFault;
use crate::naming::resolve_script_request_to_event;
use crate::order::{ScriptRequest, ScriptRequestFault};
use crate::order_words::parse_script_request_words;
use crate::words::split_script_line_into_words;
use catalog::Catalog;
use std::alloc::{AllocError, Global};

/// The most events of a script.
pub const MAX_EVENTS: usize = 65_536;

/// Adds the event that the line of this number specifies, unless the line is passed over.
pub fn parse_script_line_into_events(
    alloc: Global,
    jobs: &Catalog,
    number: usize,
    line: &[u8],
    events: &mut Vec<Event>,
) -> Result<(), ScriptFault>
    requires { length events.old.items ≤ 65536 }
    ensures added { OnOk result (Adds jobs.now line.now events.old.items events.new.items) }
    ensures few { OnOk result (length events.new.items ≤ 65536) }
    ensures tells { IfErr result (λ _. is_passed_over line.now ≡ false) }
    ensures fault { IfErr result
        (IsLineFault jobs.now number (length events.old.items) line.now) }
{
    if is_script_line_empty_or_comment(line) {
        return Ok(());
    }
    if events.len() == MAX_EVENTS {
        return Err(ScriptFault::TooManyEvents);
    }
    match parse_event_line(alloc, jobs, line) {
        Ok(event) => {
            events.push(event).map_err(AllocError::from)?;
            Ok(())
        }
        Err(ScriptLineFault::Bad) => Err(ScriptFault::BadLine { line: number }),
        Err(ScriptLineFault::NoSuchJob) => Err(ScriptFault::NoSuchJob { line: number }),
        Err(ScriptLineFault::Memory) => Err(ScriptFault::Memory),
    }
}

// Whether the line is passed over.
fn is_script_line_empty_or_comment(line: &[u8]) -> bool
    ensures { result ≡ is_passed_over line.now }
{
    match line {
        [] => true,
        [first, ..] => *first == b'#',
    }
}

/// Why a line specifies no event.
#[derive(Clone, Copy, Debug, PartialEq, Eq)]
pub enum ScriptLineFault {
    Bad,
    NoSuchJob,
    Memory,
}

impl From<ScriptRequestFault> for ScriptLineFault {
    ghost from_gives = { λ fault told. (told ≡ faults.Bad → fault ≡ NoRequest) × (told ≢ faults.NoSuchJob) };

    fn from(fault: ScriptRequestFault) -> ScriptLineFault {
        match fault {
            ScriptRequestFault::NoRequest => ScriptLineFault::Bad,
            ScriptRequestFault::Memory => ScriptLineFault::Memory,
        }
    }
}

// The event that the line specifies.
fn parse_event_line(alloc: Global, jobs: &Catalog, line: &[u8]) -> Result<Event, ScriptLineFault>
    ensures some { IfOk result (TellsEvent jobs.now line.now) }
    ensures bad { IfErr result (λ fault. fault ≡ faults.Bad → IsBadLine line.now) }
    ensures lacks { IfErr result (λ fault. fault ≡ faults.NoSuchJob → LacksJob jobs.now line.now) }
{
    let order = parse_script_request_of_line(alloc, line)?;
    match resolve_script_request_to_event(alloc, jobs, order) {
        Ok(Some(event)) => Ok(event),
        Ok(None) => Err(ScriptLineFault::NoSuchJob),
        Err(_) => Err(ScriptLineFault::Memory),
    }
}

// What the line requests.
fn parse_script_request_of_line(
    alloc: Global,
    line: &[u8],
) -> Result<ScriptRequest, ScriptRequestFault>
    ensures some { IfOk result (SpellsOrder (words line.now)) }
    ensures none { IfErr result (λ fault. fault ≡ NoRequest
        → (order : OrderType) → ¬ SpellsOrder (words line.now) order) }
{
    let words = split_script_line_into_words(alloc, line)?;
    parse_script_request_words(alloc, &words)
}
