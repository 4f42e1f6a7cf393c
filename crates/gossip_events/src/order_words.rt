//! Words that request an event.

ghost use Rattle.std.specs.Prelude.{◌≡◌, IfErr, IfNone, IfOk, IfSome, ℕ, map};
ghost use Rattle.gossip_events.specs.Scripts.{AreTwo, FollowPlain, FollowVerb, IsLoneNode, SpellsNode, SpellsNumber, SpellsOrder};
ghost use Rattle.gossip_events.specs.declared.event.Event.{Event as EventType};
ghost use Rattle.gossip_events.specs.declared.order.ScriptRequest.{ScriptRequest as OrderType};
ghost use Rattle.gossip_events.specs.declared.order.ScriptRequestFault.TheVariants.{NoRequest};
ghost use Rattle.gossip_events.specs.declared.verb.EventVerb.TheVariants as verbs;

use crate::event::Event;
use crate::order::{ScriptRequest, ScriptRequestFault};
use crate::place::{parse_script_tile_name, parse_script_tile_names};
use crate::verb::{EventVerb, parse_event_verb};
use crate::words::{parse_script_node_number, parse_script_number};
use std::alloc::Global;

/// What the words of a line request.
pub fn parse_script_request_words(
    alloc: Global,
    words: &[&[u8]],
) -> Result<ScriptRequest, ScriptRequestFault>
    ensures some { IfOk result (SpellsOrder (map (λ w. w.now) words.now)) }
    ensures none { IfErr result (λ fault. fault ≡ NoRequest
        → (order : OrderType) → ¬ SpellsOrder (map (λ w. w.now) words.now) order) }
{
    let [first, rest @ ..] = words else {
        return Err(ScriptRequestFault::NoRequest);
    };
    match parse_event_verb(first) {
        Some(verb) => parse_script_request_after_verb(alloc, verb, rest),
        None => Err(ScriptRequestFault::NoRequest),
    }
}

// What the words after the verb request.
fn parse_script_request_after_verb(
    alloc: Global,
    verb: EventVerb,
    words: &[&[u8]],
) -> Result<ScriptRequest, ScriptRequestFault>
    ensures some { IfOk result (FollowVerb verb (map (λ w. w.now) words.now)) }
    ensures none { IfErr result (λ fault. fault ≡ NoRequest
        → (order : OrderType) → ¬ FollowVerb verb (map (λ w. w.now) words.now) order) }
{
    match verb {
        EventVerb::Make => parse_script_make_request(alloc, words),
        EventVerb::Retire => parse_script_retire_request(words),
        EventVerb::Send => parse_script_send_request(alloc, words),
        EventVerb::Deliver | EventVerb::Merge | EventVerb::Keep | EventVerb::Restart =>
            match parse_event_without_job(verb, words) {
                Some(event) => Ok(ScriptRequest::Plain(event)),
                None => Err(ScriptRequestFault::NoRequest),
            },
    }
}

// `N KEY`
fn parse_script_make_request(
    alloc: Global,
    words: &[&[u8]],
) -> Result<ScriptRequest, ScriptRequestFault>
    ensures some { IfOk result (FollowVerb verbs.Make (map (λ w. w.now) words.now)) }
    ensures none { IfErr result (λ fault. fault ≡ NoRequest
        → (order : OrderType) → ¬ FollowVerb verbs.Make (map (λ w. w.now) words.now) order) }
{
    let [first, second] = words else {
        return Err(ScriptRequestFault::NoRequest);
    };
    let Some(node) = parse_script_node_number(first) else {
        return Err(ScriptRequestFault::NoRequest);
    };
    Ok(ScriptRequest::Make {
        node,
        place: parse_script_tile_name(alloc, second)?,
    })
}

// `N JOB`
fn parse_script_retire_request(words: &[&[u8]]) -> Result<ScriptRequest, ScriptRequestFault>
    ensures some { IfOk result (FollowVerb verbs.Retire (map (λ w. w.now) words.now)) }
    ensures none { IfErr result (λ fault. fault ≡ NoRequest
        → (order : OrderType) → ¬ FollowVerb verbs.Retire (map (λ w. w.now) words.now) order) }
{
    let Some((node, job)) = parse_event_node_and_number(words) else {
        return Err(ScriptRequestFault::NoRequest);
    };
    Ok(ScriptRequest::Retire { node, job })
}

// `N M KEY..`
fn parse_script_send_request(
    alloc: Global,
    words: &[&[u8]],
) -> Result<ScriptRequest, ScriptRequestFault>
    ensures some { IfOk result (FollowVerb verbs.Send (map (λ w. w.now) words.now)) }
    ensures none { IfErr result (λ fault. fault ≡ NoRequest
        → (order : OrderType) → ¬ FollowVerb verbs.Send (map (λ w. w.now) words.now) order) }
{
    let [first, second, keys @ ..] = words else {
        return Err(ScriptRequestFault::NoRequest);
    };
    let (Some(node), Some(to)) = (
        parse_script_node_number(first),
        parse_script_node_number(second),
    ) else {
        return Err(ScriptRequestFault::NoRequest);
    };
    Ok(ScriptRequest::Send {
        node,
        to,
        places: parse_script_tile_names(alloc, keys)?,
    })
}

// The event of the words after a verb that names neither a job nor a tile: `deliver N K`, `merge A B`, `keep N` or `restart N`.
fn parse_event_without_job(verb: EventVerb, words: &[&[u8]]) -> Option<Event>
    ensures some { IfSome result (FollowPlain verb (map (λ w. w.now) words.now)) }
    ensures none { IfNone result ((event : EventType)
        → ¬ FollowPlain verb (map (λ w. w.now) words.now) event) }
{
    match verb {
        EventVerb::Make | EventVerb::Retire | EventVerb::Send => None,
        EventVerb::Deliver => {
            let (node, message) = parse_event_node_and_number(words)?;
            Some(Event::Deliver {
                node,
                message: u64::from(message),
            })
        }
        EventVerb::Merge => {
            let (node, other) = parse_event_node_and_number(words)?;
            Some(Event::Merge {
                node,
                other: u8::try_from(other).ok()?,
            })
        }
        EventVerb::Keep => Some(Event::Keep {
            node: parse_lone_event_node(words)?,
        }),
        EventVerb::Restart => Some(Event::Restart {
            node: parse_lone_event_node(words)?,
        }),
    }
}

// The node and the number that two words name.
fn parse_event_node_and_number(words: &[&[u8]]) -> Option<(u8, u32)>
    ensures some { IfSome result (λ both. AreTwo (map (λ w. w.now) words.now)
        (λ w. SpellsNode w both.0) (λ w. SpellsNumber w both.1)) }
    ensures none { IfNone result ((m n : ℕ) → ¬ AreTwo (map (λ w. w.now) words.now)
        (λ w. SpellsNode w m) (λ w. SpellsNumber w n)) }
{
    match words {
        [first, second] => Some((
            parse_script_node_number(first)?,
            parse_script_number(second)?,
        )),
        _ => None,
    }
}

// The node that a lone word names.
fn parse_lone_event_node(words: &[&[u8]]) -> Option<u8>
    ensures some { IfSome result (IsLoneNode (map (λ w. w.now) words.now)) }
    ensures none { IfNone result ((n : ℕ) → ¬ IsLoneNode (map (λ w. w.now) words.now) n) }
{
    match words {
        [word] => parse_script_node_number(word),
        _ => None,
    }
}
