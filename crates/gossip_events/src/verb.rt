//! The first words of lines.

ghost use Rattle.std.specs.Prelude.{IfNone, IfSome, ◌≡◌};
ghost use Rattle.gossip_events.specs.Scripts.{verb_word};
ghost use Rattle.gossip_events.specs.declared.verb.EventVerb.{EventVerb as VerbType};

/// The kind of event that a line specifies.
#[derive(Clone, Copy, Debug, PartialEq, Eq)]
pub enum EventVerb {
    Make,
    Retire,
    Send,
    Deliver,
    Merge,
    Keep,
    Restart,
}

/// The verb that a word spells.
pub fn parse_event_verb(word: &[u8]) -> Option<EventVerb>
    ensures some { IfSome result (λ verb. word.now ≡ verb_word verb) }
    ensures none { IfNone result ((verb : VerbType) → ¬ (word.now ≡ verb_word verb)) }
{
    match word {
        b"make" => Some(EventVerb::Make),
        b"retire" => Some(EventVerb::Retire),
        b"send" => Some(EventVerb::Send),
        b"deliver" => Some(EventVerb::Deliver),
        b"merge" => Some(EventVerb::Merge),
        b"keep" => Some(EventVerb::Keep),
        b"restart" => Some(EventVerb::Restart),
        _ => None,
    }
}
