//! What happens to a node.

ghost use Rattle.live_nodes.specs.declared.event.Event.TheVariants.{Lent};
ghost use Rattle.std.specs.Prelude.{◌≡◌, IfOk};

use identity::{JobId, Key};
use sequences::Sequence;
use std::alloc::{AllocError, Global};
use tile_fact::Update;
use updates::copy_update_list;

/// Keys, in the order in which they were requested.
pub type Keys = Sequence<Key>;

/// The identities of retired jobs, rising.
pub type RetiredIds = Sequence<JobId>;

/// Updates, in the order in which they came.
pub type Updates = Sequence<Update>;

/// The event that facts of these keys are lent, with these identities of retired jobs.
pub(crate) fn make_lent_node_event_with_retired_ids(
    alloc: Global,
    keys: &[Key],
    retired: &[JobId],
) -> Result<Event, AllocError>
    ensures { IfOk result (λ event. event ≡ Lent keys.now retired.now) }
{
    let keys = Keys::new(keys.to_vec(alloc)?);
    let retired = RetiredIds::new(retired.to_vec(alloc)?);
    Ok(Event::Lent(keys, retired))
}

/// A copy of updates, which shares their numbers.
pub(crate) fn copy_updates_for_node_event(
    alloc: Global,
    updates: &[Update],
) -> Result<Updates, AllocError>
    ensures { IfOk result (λ copy. copy ≡ updates.now) }
{
    Ok(Updates::new(copy_update_list(alloc, updates)?))
}

/// What happened to a node, as its history records it.
#[derive(Debug, Drop)]
pub enum Event {
    /// The facts of these keys were lent, with the identities of all jobs that were retired there. What is held and kept does not
    /// change.
    Lent(Keys, RetiredIds),
    /// These updates were taken into what is held.
    Took(Updates),
    /// What was held is kept.
    Kept,
    /// What was kept is held, and nothing else.
    Restarted,
}
