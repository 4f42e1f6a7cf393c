//! Whether two events are equal.

ghost use Rattle.std.specs.Prelude.{◌≡◌, ◌↔◌, IsTrue};

use crate::event::Event;
use identity::laws::compare_key_fields;
use identity::{JobId, Key};
use tile_fact::Update;
use tile_fact::laws::compare_facts;

/// Values that can be compared for equality.
trait NodeEventPart {
    fn is_same_node_event_part(&self, other: &Self) -> bool
        ensures { IsTrue result ↔ (self.now ≡ other.now) };
}

impl NodeEventPart for Key {
    fn is_same_node_event_part(&self, other: &Key) -> bool {
        compare_key_fields(self, other).is_eq()
    }
}

impl NodeEventPart for JobId {
    fn is_same_node_event_part(&self, other: &JobId) -> bool {
        self == other
    }
}

impl NodeEventPart for Update {
    fn is_same_node_event_part(&self, other: &Update) -> bool {
        match (self, other) {
            (Update::Fact(this), Update::Fact(that)) => compare_facts(this, that).is_eq(),
            (Update::Retire(these), Update::Retire(those)) => these.is_same_node_event_part(those),
            _ => false,
        }
    }
}

pub(crate) fn is_same_node_event(a: &Event, b: &Event) -> bool
    ensures { IsTrue result ↔ (a.now ≡ b.now) }
{
    match (a, b) {
        (Event::Lent(these, ours), Event::Lent(those, theirs)) => {
            is_same_node_event_part_list(these.as_slice(), those.as_slice())
                && is_same_node_event_part_list(ours.as_slice(), theirs.as_slice())
        }
        (Event::Took(these), Event::Took(those)) => {
            is_same_node_event_part_list(these.as_slice(), those.as_slice())
        }
        (Event::Kept, Event::Kept) => true,
        (Event::Restarted, Event::Restarted) => true,
        _ => false,
    }
}

fn is_same_node_event_part_list<T: NodeEventPart>(a: &[T], b: &[T]) -> bool
    ensures { IsTrue result ↔ (a.now ≡ b.now) }
{
    if a.len() != b.len() {
        return false;
    }
    for i in 0..a.len() {
        if !a[i].is_same_node_event_part(&b[i]) {
            return false;
        }
    }
    true
}
